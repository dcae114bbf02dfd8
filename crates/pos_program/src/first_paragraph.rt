//! Text that ends with its first paragraph.
use std::fmt;
use std::fmt::Write;

/// A writer of text that passes on the first paragraph alone, as one line. Each line end, with the spaces after it,
/// becomes one space, and what follows an empty line is left out.
#[derive(Drop)]
pub struct FirstParagraph<'a, W> {
    out: &'a mut W,
    is_at_line_end: bool,
    is_over: bool,
}

impl<'a, W: Write> FirstParagraph<'a, W> {
    /// Returns a writer that passes text on to this one.
    pub fn over(out: &'a mut W) -> FirstParagraph<'a, W> {
        FirstParagraph {
            out,
            is_at_line_end: false,
            is_over: false,
        }
    }

    // Passes on a character, or leaves it out.
    fn pass(&mut self, character: char) -> fmt::Result {
        if character == '\n' {
            self.is_over = self.is_over || self.is_at_line_end;
            self.is_at_line_end = true;
            return Ok(());
        }
        if self.is_over || self.is_at_line_end && character == ' ' {
            return Ok(());
        }
        if self.is_at_line_end {
            self.is_at_line_end = false;
            self.out.write_char(' ')?;
        }
        self.out.write_char(character)
    }
}

impl<W: Write> Write for FirstParagraph<'_, W> {
    fn write_str(&mut self, text: &str) -> fmt::Result {
        for character in text.chars() {
            self.pass(character)?;
        }
        Ok(())
    }
}
