//! What is printed of a receipt printer.
ghost use Rattle.std.specs.Prelude.{◌≡◌, ◌++◌, codes, take, drop};
ghost use Rattle.pos_service.specs.Receipts.{Line, CutAt, items_from, buffer_from};
ghost use Rattle.pos_script.specs.ReceiptText.{alignment_text, cover_text, item_text, items_text, printer_text};
ghost use Rattle.pos_script.specs.Writing.{Writes};

use crate::glyphs::write_printed;
use crate::write::write_parts;
use itoa::Buffer;
use pos_service::Receipt;
use pos_service::receipt_text::{Alignment, Mark, PrintedCharacter};
use pos_streams::{Sink, WriteFault};

/// Returns where a line is, as a letter.
fn letter_of(alignment: Alignment) -> &'static str
    ensures { result.now ≡ alignment_text alignment }
{
    match alignment {
        Alignment::Left => "l",
        Alignment::Center => "c",
        Alignment::Right => "r",
    }
}

/// Returns whether a cover is open, as a word.
fn word_of(is_open: bool) -> &'static str
    ensures { result.now ≡ cover_text is_open }
{
    if is_open { "open" } else { "closed" }
}

/// Returns the first so many characters, and those after them.
fn split_line(
    characters: &[PrintedCharacter],
    count: usize,
) -> (&[PrintedCharacter], &[PrintedCharacter])
    ensures line { result.0.now ≡ take count characters.now }
    ensures rest { result.1.now ≡ drop count characters.now }
{
    characters.split_at(count.min(characters.len()))
}

/// Returns the line buffer: the characters after those of the lines.
fn line_buffer<'a>(marks: &[Mark], characters: &'a [PrintedCharacter]) -> &'a [PrintedCharacter]
    ensures { result.now ≡ buffer_from marks.now characters.now }
{
    let mut rest = characters;
    for mark in marks {
        if let Mark::Line(_, count) = mark {
            rest = split_line(rest, *count).1;
        }
    }
    rest
}

/// Writes a line that was printed, after a space.
fn write_line<W: Sink>(
    writer: &mut W,
    alignment: Alignment,
    characters: &[PrintedCharacter],
) -> Result<(), WriteFault>
    ensures { Writes (W.given writer.old) (W.given writer.new)
        (codes " " ++ item_text (Line alignment characters.now)) result }
{
    write_parts(writer, &[" ", letter_of(alignment), ":"])?;
    write_printed(writer, characters)
}

/// Writes a cut, after a space.
fn write_cut<W: Sink>(writer: &mut W, percentage: u8) -> Result<(), WriteFault>
    ensures { Writes (W.given writer.old) (W.given writer.new)
        (codes " " ++ item_text (CutAt percentage)) result }
{
    let mut buffer = Buffer::new();
    write_parts(writer, &[" x:", buffer.format(percentage)])
}

/// Writes what is printed, a space before each line and each cut.
fn write_items<W: Sink>(
    writer: &mut W,
    marks: &[Mark],
    characters: &[PrintedCharacter],
) -> Result<(), WriteFault>
    ensures { Writes (W.given writer.old) (W.given writer.new)
        (items_text (items_from marks.now characters.now)) result }
{
    let mut rest = characters;
    for mark in marks {
        match mark {
            Mark::Line(alignment, count) => {
                let (line, behind) = split_line(rest, *count);
                write_line(writer, *alignment, line)?;
                rest = behind;
            }
            Mark::Cut(percentage) => write_cut(writer, *percentage)?,
        }
    }
    Ok(())
}

/// Writes a printer's cover, how many lines of paper are left, its line buffer, and what is printed.
///
/// # Errors
///
/// [`WriteFault`] if a write failed. Then only a front of the text was written.
pub(crate) fn write_receipt<W: Sink>(writer: &mut W, receipt: &Receipt) -> Result<(), WriteFault>
    ensures { Writes (W.given writer.old) (W.given writer.new) (printer_text receipt.now) result }
{
    let mut buffer = Buffer::new();
    let cover = word_of(receipt.is_cover_open());
    let left = buffer.format(receipt.lines_left());
    let (marks, characters) = receipt.printed();
    write_parts(writer, &[cover, " ", left, " "])?;
    write_printed(writer, line_buffer(marks, characters))?;
    write_items(writer, marks, characters)
}
