//! What the bytes of a totals file hold (docs/reference/console.md, "What a totals file holds").
ghost use Rattle.kijolvar.specs.Surveys.{AnswersSurvey, WritesBreak};

use crate::answers::write_text;
use crate::codes::{DAMAGED, NO_MEMORY, OK, TOO_SMALL, UNFORMATTED};
use pos_survey::{Survey, SurveyFault, words_of};
use std::alloc::Global;

// Writes which rule bytes break, and the place. Returns DAMAGED, SHORT, TOO_SMALL, UNFORMATTED or NO_MEMORY.
fn write_break(why: SurveyFault, at: &mut u64, text: &mut [u8], needed: &mut usize) -> u32
    ensures { WritesBreak why at.old at.new text.old text.new needed.old needed.new result }
{
    match why {
        SurveyFault::NoMemory => NO_MEMORY,
        SurveyFault::TooSmall => TOO_SMALL,
        SurveyFault::Unformatted => UNFORMATTED,
        SurveyFault::Damaged(place, rule) => {
            *at = place;
            write_text(words_of(rule).as_bytes(), DAMAGED, text, needed)
        }
    }
}

/// Writes what the bytes of a totals file hold, and returns OK.
///
/// # Errors
///
/// - DAMAGED if they break a rule: `text` says which, and `at` the place.
/// - SHORT if `text` has less room for either. Then a front of it is written.
/// - TOO_SMALL, UNFORMATTED, and NO_MEMORY if memory ran out.
pub(crate) fn write_survey(
    alloc: Global,
    bytes: &[u8],
    at: &mut u64,
    text: &mut [u8],
    needed: &mut usize,
) -> u32
    ensures { AnswersSurvey bytes.now at.old at.new text.old text.new needed.old needed.new result }
{
    let survey = match Survey::of(alloc, bytes) {
        Ok(survey) => survey,
        Err(why) => return write_break(why, at, text, needed),
    };
    match survey.to_text(alloc) {
        Ok(lines) => write_text(&lines, OK, text, needed),
        Err(_) => NO_MEMORY,
    }
}
