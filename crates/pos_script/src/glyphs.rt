//! Characters and how they look, as a display shows them or a printer has printed them.
ghost use Rattle.std.specs.Prelude.{◌≡◌, ◌++◌, ℕ};
ghost use Rattle.pos_script.specs.Glyphs.{characters_text, looks_text, cell_character, cell_look, printed_character, printed_look, printed_text};
ghost use Rattle.pos_script.specs.Writing.{Writes};

use crate::write::{write_bytes, write_hex, write_parts};
use itoa::Buffer;
use pos_service::display_text::DisplayCell;
use pos_service::receipt_text::PrintedCharacter;
use pos_streams::{Sink, WriteFault};

/// A character, and how it looks.
pub(crate) trait Glyph {
    ghost character: { Self → ℕ };

    ghost look: { Self → ℕ };

    /// Returns the character, a byte.
    fn character(&self) -> u8
        ensures { result ≡ character self.now };

    /// Returns the number of how it looks: on a display its attribute, 0 to 3, and of a printer 1 if it is bold,
    /// otherwise 0.
    fn look(&self) -> u32
        ensures { result ≡ look self.now };
}

impl Glyph for DisplayCell {
    ghost character = { cell_character };

    ghost look = { cell_look };

    fn character(&self) -> u8 {
        self.character
    }

    fn look(&self) -> u32 {
        self.attribute.number()
    }
}

impl Glyph for PrintedCharacter {
    ghost character = { printed_character };

    ghost look = { printed_look };

    fn character(&self) -> u8 {
        self.byte
    }

    fn look(&self) -> u32 {
        u32::from(self.is_bold)
    }
}

/// Writes all characters in hex.
fn write_characters<W: Sink, G: Glyph>(writer: &mut W, glyphs: &[G]) -> Result<(), WriteFault>
    ensures { Writes (W.given writer.old) (W.given writer.new)
        (characters_text G.character glyphs.now) result }
{
    for glyph in glyphs {
        write_hex(writer, &[glyph.character()])?;
    }
    Ok(())
}

/// Writes the number of how each character looks, a digit each.
fn write_looks<W: Sink, G: Glyph>(writer: &mut W, glyphs: &[G]) -> Result<(), WriteFault>
    ensures { Writes (W.given writer.old) (W.given writer.new) (looks_text G.look glyphs.now) result }
{
    for glyph in glyphs {
        let mut buffer = Buffer::new();
        write_bytes(writer, buffer.format(glyph.look()).as_bytes())?;
    }
    Ok(())
}

/// Writes all characters in hex, a separator, and how each character looks, one digit each.
///
/// # Errors
///
/// [`WriteFault`] if a write failed. Then only a front of the text was written.
pub(crate) fn write_glyphs<W: Sink, G: Glyph>(
    writer: &mut W,
    separator: &str,
    glyphs: &[G],
) -> Result<(), WriteFault>
    ensures { Writes (W.given writer.old) (W.given writer.new)
        (characters_text G.character glyphs.now ++ (separator.now ++ looks_text G.look glyphs.now)) result }
{
    write_characters(writer, glyphs)?;
    write_bytes(writer, separator.as_bytes())?;
    write_looks(writer, glyphs)
}

/// Writes printed characters and how they look, or that there are none.
///
/// # Errors
///
/// [`WriteFault`] if a write failed. Then only a front of the text was written.
pub(crate) fn write_printed<W: Sink>(
    writer: &mut W,
    printed: &[PrintedCharacter],
) -> Result<(), WriteFault>
    ensures { Writes (W.given writer.old) (W.given writer.new) (printed_text printed.now) result }
{
    if printed.is_empty() {
        return write_parts(writer, &["-:-"]);
    }
    write_glyphs(writer, ":", printed)
}
