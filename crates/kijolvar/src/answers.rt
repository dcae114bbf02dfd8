//! Writes answers into the room that C gives.
ghost use Rattle.std.specs.Prelude.{◌≡◌, length, nat_le};
ghost use Rattle.kijolvar.specs.Questions.{WritesText};
ghost use Rattle.kijolvar.specs.Tills.{WritesAnswer};

use crate::codes::SHORT;

/// Writes as much of an answer as there is room for, and to `needed` how many bytes it has. Returns whether all of it
/// was written.
pub(crate) fn write_answer(answer: &[u8], text: &mut [u8], needed: &mut usize) -> bool
    ensures tells { WritesAnswer answer.now text.old text.new needed.new }
    ensures whole { result ≡ nat_le (length answer.now) (length text.old) }
{
    let count = answer.len().min(text.len());
    text[..count].copy_from_slice(&answer[..count]);
    *needed = answer.len();
    answer.len() <= text.len()
}

/// Writes as much of a text as there is room for, and to `needed` how many bytes it has. Returns the code, or SHORT if
/// not all of it was written.
pub(crate) fn write_text(answer: &[u8], code: u32, text: &mut [u8], needed: &mut usize) -> u32
    ensures { WritesText answer.now text.old text.new needed.new code result }
{
    if write_answer(answer, text, needed) {
        code
    } else {
        SHORT
    }
}
