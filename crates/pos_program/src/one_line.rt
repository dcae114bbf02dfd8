//! Text that stays on one line.

use std::fmt;
use std::fmt::Write;

/// A writer of text that stays on one line. Control characters, and the line and paragraph separators of Unicode, are
/// written as Rust escapes them, a line feed as `\n`. So a terminal takes none of the text as an order.
#[derive(Drop)]
pub struct OneLine<'a, W> {
    out: &'a mut W,
}

impl<'a, W: Write> OneLine<'a, W> {
    /// Returns a writer that passes text on to this one.
    pub fn over(out: &'a mut W) -> OneLine<'a, W> {
        OneLine { out }
    }
}

// Returns whether a character ends a line, or a terminal could take it as an order.
fn breaks_line(character: char) -> bool {
    character.is_control() || character == '\u{2028}' || character == '\u{2029}'
}

impl<W: Write> Write for OneLine<'_, W> {
    fn write_str(&mut self, text: &str) -> fmt::Result {
        for character in text.chars() {
            if breaks_line(character) {
                for part in character.escape_default() {
                    self.out.write_char(part)?;
                }
            } else {
                self.out.write_char(character)?;
            }
        }
        Ok(())
    }
}
