//! Why a profile is refused, in words (docs/reference/profile.md).
ghost use Rattle.std.specs.Prelude.{◌≡◌, ◌++◌, IfOk, OnOk, codes, decimal};
ghost use Rattle.toml.specs.Parse.{parse_document};
ghost use Rattle.kijolvar.specs.Mistakes.{AnswersDocument, AnswersMistake, AnswersRefusal};
ghost use Rattle.kijolvar.specs.Mistakes.{mistake_text, number_reason, option_reason, place_text, reason_text};

use crate::answers::write_text;
use crate::codes::{BAD_PROFILE, BAD_TEXT, NO_MEMORY, OK};
use itoa::Buffer;
use pos_profile::{Mistake, NumberKey, OptionalKey, Place, Reason};
use pos_program::{ProfileFileFault, profile_of_text};
use std::alloc::{AllocError, Global};
use std::str;

// Adds a number to a text.
fn add_number(text: &mut Vec<u8>, number: u64) -> Result<(), AllocError>
    ensures { OnOk result (text.new.items ≡ text.old.items ++ decimal number) }
{
    let mut buffer = Buffer::new();
    text.extend_from_slice(buffer.format(number).as_bytes())
}

// Returns two texts, one after the other.
fn joined(alloc: Global, first: &str, second: &str) -> Result<Vec<u8>, AllocError>
    ensures { IfOk result (λ text. text.items ≡ first.now ++ second.now) }
{
    let mut text = Vec::from_slice(alloc, first.as_bytes())?;
    text.extend_from_slice(second.as_bytes())?;
    Ok(text)
}

// Returns where a profile isn't sound, as text.
fn place_text(alloc: Global, place: Place) -> Result<Vec<u8>, AllocError>
    ensures { IfOk result (λ text. text.items ≡ place_text place) }
{
    let mut text = Vec::new(alloc);
    if let Place::Listed(role, number) = place {
        text.extend_from_slice(role.key().as_bytes())?;
        text.extend_from_slice(" ".as_bytes())?;
        add_number(&mut text, number as u64)?;
        text.extend_from_slice(": ".as_bytes())?;
    }
    Ok(text)
}

// Adds the range of a number to a text.
fn add_number_reason(text: &mut Vec<u8>, key: NumberKey) -> Result<(), AllocError>
    ensures { OnOk result (text.new.items ≡ text.old.items ++ number_reason key) }
{
    text.extend_from_slice(key.key().as_bytes())?;
    text.extend_from_slice(" must be ".as_bytes())?;
    add_number(text, key.least() as u64)?;
    text.extend_from_slice(" to ".as_bytes())?;
    add_number(text, key.most() as u64)
}

// Returns the values that an optional key may have.
fn option_reason(key: OptionalKey) -> &'static str
    ensures { result.now ≡ option_reason key }
{
    match key {
        OptionalKey::Ring => "ring must be true or false",
        OptionalKey::Flaky => "flaky must be an array of two numbers, each 0 to 1000000",
        OptionalKey::Record => "record must be true or false",
    }
}

// Adds words to a text.
fn add_words(text: &mut Vec<u8>, words: &str) -> Result<(), AllocError>
    ensures { OnOk result (text.new.items ≡ text.old.items ++ words.now) }
{
    text.extend_from_slice(words.as_bytes())
}

// Adds words to a text, and others after them.
fn add_both(text: &mut Vec<u8>, first: &str, second: &str) -> Result<(), AllocError>
    ensures { OnOk result (text.new.items ≡ text.old.items ++ (first.now ++ second.now)) }
{
    text.extend_from_slice(first.as_bytes())?;
    text.extend_from_slice(second.as_bytes())
}

// Adds what isn't sound to a text.
fn add_reason(text: &mut Vec<u8>, reason: &Reason) -> Result<(), AllocError>
    ensures { OnOk result (text.new.items ≡ text.old.items ++ reason_text reason.now) }
{
    match reason {
        Reason::NotAnArray(role) => add_both(text, role.key(), " must be an array of tables"),
        Reason::UnknownKey(key) => add_both(text, "unknown key: ", key.as_str()),
        Reason::NotATable => add_words(text, "must be a table"),
        Reason::BadCategory(role) => add_both(text, "category must be ", role.categories()),
        Reason::BadName => add_words(text, "name must be 1 to 16 letters, digits or hyphens"),
        Reason::BadNumber(key) => add_number_reason(text, *key),
        Reason::BadOption(key) => add_words(text, option_reason(*key)),
        Reason::SecondHardTotals => add_words(text, "a second device of category HardTotals"),
    }
}

// Returns the first thing in a profile that isn't sound, as text.
fn mistake_text(alloc: Global, mistake: &Mistake) -> Result<Vec<u8>, AllocError>
    ensures { IfOk result (λ text. text.items ≡ mistake_text mistake.now) }
{
    let mut text = place_text(alloc, mistake.place)?;
    add_reason(&mut text, &mistake.reason)?;
    Ok(text)
}

// Writes why a text is no profile. Returns BAD_TEXT, BAD_PROFILE, SHORT or NO_MEMORY.
fn write_refusal(
    alloc: Global,
    why: &ProfileFileFault,
    at: &mut u64,
    text: &mut [u8],
    needed: &mut usize,
) -> u32
    ensures { AnswersRefusal why.now at.old at.new text.old text.new needed.old needed.new result }
{
    match why {
        ProfileFileFault::NotToml { line: _, error } => {
            let Some(span) = error.span() else {
                return NO_MEMORY;
            };
            let Ok(reason) = joined(alloc, "not TOML: ", error.message()) else {
                return NO_MEMORY;
            };
            *at = span.start as u64;
            write_text(&reason, BAD_TEXT, text, needed)
        }
        ProfileFileFault::Unsound(mistake) => match mistake_text(alloc, mistake) {
            Ok(reason) => write_text(&reason, BAD_PROFILE, text, needed),
            Err(_) => NO_MEMORY,
        },
        ProfileFileFault::Duplicate(name) => {
            match joined(alloc, "two devices have the name ", name.as_str()) {
                Ok(reason) => write_text(&reason, BAD_PROFILE, text, needed),
                Err(_) => NO_MEMORY,
            }
        }
        _ => NO_MEMORY,
    }
}

// Writes why a text is no profile, if it is none.
fn write_document(
    alloc: Global,
    profile: &str,
    at: &mut u64,
    text: &mut [u8],
    needed: &mut usize,
) -> u32
    ensures { AnswersDocument (parse_document profile.now) at.old at.new text.old text.new needed.old needed.new
        result }
{
    match profile_of_text(alloc, profile) {
        Ok(_) => OK,
        Err(why) => write_refusal(alloc, &why, at, text, needed),
    }
}

/// Writes why the bytes of a profile are refused, and returns OK if they aren't.
///
/// # Errors
///
/// - BAD_TEXT if they are not UTF-8 or no TOML document. `at` is the place where reading them stopped.
/// - BAD_PROFILE if something in the document isn't sound.
/// - SHORT if `text` has less room than the reason has bytes, and NO_MEMORY if memory ran out.
pub(crate) fn write_mistake(
    alloc: Global,
    profile: &[u8],
    at: &mut u64,
    text: &mut [u8],
    needed: &mut usize,
) -> u32
    ensures { AnswersMistake profile.now at.old at.new text.old text.new needed.old needed.new result }
{
    if profile.is_empty() {
        return OK;
    }
    match str::from_utf8(profile) {
        Ok(source) => write_document(alloc, source, at, text, needed),
        Err(error) => {
            *at = error.valid_up_to() as u64;
            write_text("not UTF-8".as_bytes(), BAD_TEXT, text, needed)
        }
    }
}
