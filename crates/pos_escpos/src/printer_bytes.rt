//! What is printed, as the bytes of an ESC/POS printer.
ghost use Rattle.std.specs.Prelude.{◌≡◌, ◌++◌, ◌∷◌, [], OnOk, IfOk, IsErrOf, true, false, nat_le, length, take, drop, ◌&&◌};
ghost use Rattle.std.specs.List.{list_all};
ghost use Rattle.pos_service.specs.Receipts.{items_from, Line};
ghost use Rattle.pos_escpos.specs.Printers.{Press, IsReady, PrintsOnly, press_after};
ghost use Rattle.pos_escpos.specs.PrinterBytes.{alignment_number_of, all_fit, all_on_paper, bold_bytes, cut_bytes, is_character, item_fits, items_bytes, line_bytes, run_bytes};
ghost use Rattle.pos_escpos.specs.declared.bytes_fault.BytesFault.TheVariants as fault;

use crate::bytes_fault::BytesFault;
use crate::settings::{CutSettings, Cutter, LineSettings};
use pos_service::receipt_text::{Alignment, Mark, PrintedCharacter};
use std::alloc::{AllocError, Global};

/// Returns the number of an alignment in ESC a.
fn alignment_number(alignment: Alignment) -> u8
    ensures { result ≡ alignment_number_of alignment }
{
    match alignment {
        Alignment::Left => 0,
        Alignment::Center => 1,
        Alignment::Right => 2,
    }
}

/// Writes ESC E where bold changes.
fn push_bold(out: &mut Vec<u8>, was: bool, is_bold: bool) -> Result<(), AllocError>
    ensures { OnOk result (out.new.items ≡ out.old.items ++ bold_bytes was is_bold) }
{
    match (was, is_bold) {
        (false, true) => out.extend_from_slice(&[0x1B, b'E', 1]),
        (true, false) => out.extend_from_slice(&[0x1B, b'E', 0]),
        (true, true) | (false, false) => Ok(()),
    }
}

/// Writes a character behind bold ones or not.
fn push_character(
    out: &mut Vec<u8>,
    was: bool,
    character: PrintedCharacter,
) -> Result<(), AllocError>
    ensures { OnOk result
        (out.new.items ≡ out.old.items ++ (bold_bytes was character.is_bold ++ character.byte ∷ [])) }
{
    push_bold(out, was, character.is_bold)?;
    out.push(character.byte)?;
    Ok(())
}

/// Writes the characters of a line, and turns bold off at its end.
fn push_run(out: &mut Vec<u8>, characters: &[PrintedCharacter]) -> Result<(), AllocError>
    ensures { OnOk result (out.new.items ≡ out.old.items ++ run_bytes false characters.now) }
{
    let mut is_bold = false;
    for character in characters {
        push_character(out, is_bold, *character)?;
        is_bold = character.is_bold;
    }
    push_bold(out, is_bold, false)
}

/// Writes a line.
fn push_line(
    out: &mut Vec<u8>,
    alignment: Alignment,
    characters: &[PrintedCharacter],
) -> Result<(), AllocError>
    ensures { OnOk result (out.new.items ≡ out.old.items ++ line_bytes alignment characters.now) }
{
    out.extend_from_slice(&[0x1B, b'a', alignment_number(alignment)])?;
    push_run(out, characters)?;
    out.push(b'\n')?;
    Ok(())
}

/// Writes a cut of so many percent.
fn push_cut(out: &mut Vec<u8>, cut: CutSettings, percentage: u8) -> Result<(), AllocError>
    ensures { OnOk result (out.new.items ≡ out.old.items ++ cut_bytes cut.cutter cut.feed percentage) }
{
    match cut.cutter {
        Cutter::Both => {
            let way = if percentage == 100 { b'A' } else { b'B' };
            out.extend_from_slice(&[0x1D, b'V', way, cut.feed])
        }
        Cutter::Full => out.extend_from_slice(&[0x1D, b'V', b'A', cut.feed]),
        Cutter::Partial => out.extend_from_slice(&[0x1D, b'V', b'B', cut.feed]),
        Cutter::Absent => out.extend_from_slice(&[0x1B, b'd', cut.feed]),
    }
}

/// Returns the first so many characters, or all if there are fewer, and the others.
pub(crate) fn split_line(
    characters: &[PrintedCharacter],
    count: usize,
) -> (&[PrintedCharacter], &[PrintedCharacter])
    ensures line { result.0.now ≡ take count characters.now }
    ensures rest { result.1.now ≡ drop count characters.now }
{
    characters.split_at(count.min(characters.len()))
}

/// Returns whether each byte is a character.
fn are_characters(characters: &[PrintedCharacter]) -> bool
    ensures { result ≡ list_all is_character characters.now }
{
    characters
        .iter()
        .all(|character| 32 <= character.byte && character.byte <= 126)
}

/// Returns whether a line fits a printer.
fn line_fits(columns: u32, characters: &[PrintedCharacter]) -> bool
    ensures { result ≡ (nat_le (length characters.now) columns && list_all is_character characters.now) }
{
    characters.len() <= columns as usize && are_characters(characters)
}

/// Returns whether each line fits a printer.
fn fits(columns: u32, marks: &[Mark], characters: &[PrintedCharacter]) -> bool
    ensures { result ≡ all_fit columns (items_from marks.now characters.now) }
{
    let mut rest = characters;
    for mark in marks {
        if let Mark::Line(_, count) = mark {
            let (line, after) = split_line(rest, *count);
            if !line_fits(columns, line) {
                return false;
            }
            rest = after;
        }
    }
    true
}

/// Writes lines and cuts.
fn push_items(
    out: &mut Vec<u8>,
    cut: CutSettings,
    marks: &[Mark],
    characters: &[PrintedCharacter],
) -> Result<(), AllocError>
    ensures { OnOk result (out.new.items ≡ out.old.items ++ items_bytes cut (items_from marks.now characters.now)) }
{
    let mut rest = characters;
    for mark in marks {
        match mark {
            Mark::Line(alignment, count) => {
                let (line, after) = split_line(rest, *count);
                push_line(out, *alignment, line)?;
                rest = after;
            }
            Mark::Cut(percentage) => push_cut(out, cut, *percentage)?,
        }
    }
    Ok(())
}

/// Returns the bytes of lines and cuts for a receipt printer.
///
/// They come in two flat lists, as [`pos_service::Receipt::printed`] gives them: pass what an order has added at their
/// ends. Characters after the last line are left out: they are sent with their line.
///
/// # Errors
///
/// [`BytesFault::Misfit`] if a line has more characters than the printer's columns, or a byte that isn't 0x20 to 0x7E.
/// [`BytesFault::NoMemory`] if memory ran out.
pub fn receipt_bytes(
    alloc: Global,
    line: LineSettings,
    cut: CutSettings,
    marks: &[Mark],
    characters: &[PrintedCharacter],
) -> Result<Vec<u8>, BytesFault>
    // From any ready printer they print the items and nothing else.
    ensures prints { let items = items_from marks.now characters.now in
        IfOk result (λ bytes. (press : Press) → IsReady press →
        PrintsOnly press (all_on_paper cut items) (press_after line.width press bytes.items)) }
    // Which bytes they are.
    ensures sent { let items = items_from marks.now characters.now in
        IfOk result (λ bytes. bytes.items ≡ items_bytes cut items) }
    ensures fit { OnOk result (all_fit line.columns (items_from marks.now characters.now) ≡ true) }
    ensures misfit { IsErrOf result fault.Misfit →
        all_fit line.columns (items_from marks.now characters.now) ≡ false }
{
    if !fits(line.columns, marks, characters) {
        return Err(BytesFault::Misfit);
    }
    let mut out = Vec::new(alloc);
    push_items(&mut out, cut, marks, characters)?;
    Ok(out)
}
