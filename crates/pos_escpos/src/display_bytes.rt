//! What a line display shows, as the bytes of a customer display.
ghost use Rattle.std.specs.Prelude.{◌≡◌, [], ◌++◌, ◌+◌, ◌*◌, ◌≤◌, ◌<◌, OnOk, IfOk, IsErrOf, true, false, length, bytes_eq};
ghost use Rattle.std.specs.List.{list_all};
ghost use Rattle.pos_service.specs.Displays.{blank_display};
ghost use Rattle.pos_escpos.specs.declared.bytes_fault.BytesFault.TheVariants as fault;
ghost use Rattle.pos_escpos.specs.DisplayBytes.{can_become, characters_of, display_start, is_character, is_whole, make_of, row_bytes, row_start, rows_bytes};
ghost use Rattle.pos_escpos.specs.Screens.{IsShowing, Make, Screen, ShowsOnly, screen_after};

use crate::bytes_fault::BytesFault;
use crate::settings::DisplayProtocol;
use pos_service::DisplayCells;
use pos_service::display_text::{BLANK, DisplayCell};
use std::alloc::{AllocError, Global};

/// Returns the bytes that a connection to a display begins with: it is initialized and cleared.
pub fn display_start_bytes() -> [u8; 3]
    ensures bytes { result ≡ display_start }
    // Whatever it showed, it shows blanks then.
    ensures starts { (make : Make) (screen : Screen) → screen.begun ≡ [] →
        ShowsOnly screen (characters_of (blank_display make.rows make.columns).cells)
        (screen_after make screen result) }
{
    [0x1B, b'@', 0x0C]
}

/// Returns the cells of a display that shows blanks.
///
/// # Errors
///
/// [`BytesFault::NoMemory`] if memory ran out.
pub fn blank_cells(alloc: Global, rows: u32, columns: u32) -> Result<DisplayCells, BytesFault>
    ensures { IfOk result (λ cells. cells ≡ blank_display rows columns) }
{
    let cells = Vec::from_elem(alloc, BLANK, rows as usize * columns as usize)?;
    Ok(DisplayCells::new(rows, columns, cells))
}

/// Returns whether each cell has a character.
fn are_characters(cells: &[DisplayCell]) -> bool
    ensures { result ≡ list_all is_character cells.now }
{
    cells
        .iter()
        .all(|cell| 32 <= cell.character && cell.character <= 126)
}

/// Returns whether cells have a character for each place, and rows with numbers of one byte.
fn is_whole(cells: &DisplayCells) -> bool
    ensures { result ≡ is_whole cells.now }
{
    let (rows, columns) = (cells.rows(), cells.columns());
    let all = cells.as_slice();
    1 <= columns
        && rows <= 255
        && all.len() == rows as usize * columns as usize
        && are_characters(all)
}

/// Returns whether one display can become the other.
fn can_become(before: &DisplayCells, after: &DisplayCells) -> bool
    ensures { result ≡ can_become before.now after.now }
{
    before.rows() == after.rows()
        && before.columns() == after.columns()
        && is_whole(before)
        && is_whole(after)
}

/// Returns whether cells have the same characters.
fn same_characters(before: &[DisplayCell], after: &[DisplayCell]) -> bool
    requires { length before.now ≡ length after.now }
    ensures { result ≡ bytes_eq (characters_of before.now) (characters_of after.now) }
{
    for place in 0..before.len() {
        if before[place].character != after[place].character {
            return false;
        }
    }
    true
}

/// Writes the start of a row, from 1.
fn push_row_start(out: &mut Vec<u8>, protocol: DisplayProtocol, row: u8) -> Result<(), AllocError>
    ensures { OnOk result (out.new.items ≡ out.old.items ++ row_start protocol row) }
{
    match protocol {
        DisplayProtocol::Cd5220 => out.extend_from_slice(&[0x1B, b'l', 1, row]),
        DisplayProtocol::EscPos => out.extend_from_slice(&[0x1F, b'$', 1, row]),
    }
}

/// Writes the characters of cells.
fn push_characters(out: &mut Vec<u8>, cells: &[DisplayCell]) -> Result<(), AllocError>
    ensures { OnOk result (out.new.items ≡ out.old.items ++ characters_of cells.now) }
{
    for cell in cells {
        out.push(cell.character)?;
    }
    Ok(())
}

/// Writes a row if a character of it has changed.
fn push_row(
    out: &mut Vec<u8>,
    protocol: DisplayProtocol,
    row: u8,
    before: &[DisplayCell],
    after: &[DisplayCell],
) -> Result<(), AllocError>
    requires { length before.now ≡ length after.now }
    ensures { OnOk result (out.new.items ≡ out.old.items ++ row_bytes protocol row before.now after.now) }
{
    if same_characters(before, after) {
        return Ok(());
    }
    push_row_start(out, protocol, row)?;
    push_characters(out, after)
}

/// Writes the rows that have changed.
fn push_rows(
    out: &mut Vec<u8>,
    protocol: DisplayProtocol,
    rows: u8,
    columns: usize,
    before: &[DisplayCell],
    after: &[DisplayCell],
) -> Result<(), AllocError>
    requires before { length before.now ≡ rows * columns }
    requires after { length after.now ≡ rows * columns }
    ensures { OnOk result (out.new.items ≡ out.old.items ++ rows_bytes protocol columns 1 rows before.now after.now) }
{
    let (mut old, mut new) = (before, after);
    for row in 0..rows {
        let (old_row, old_rest) = old.split_at(columns);
        let (new_row, new_rest) = new.split_at(columns);
        push_row(out, protocol, row + 1, old_row, new_row)?;
        old = old_rest;
        new = new_rest;
    }
    Ok(())
}

/// Returns the bytes for a customer display that shows the first cells, so that it shows the others: each row of which
/// a character has changed, from its beginning.
///
/// Attributes are left out: these displays blink no single cells, and most don't reverse them.
///
/// # Errors
///
/// [`BytesFault::Misfit`] if the sizes differ, or one has no columns, more than 255 rows, another number of cells than
/// places, or a byte that isn't 0x20 to 0x7E. [`BytesFault::NoMemory`] if memory ran out.
pub fn rows_bytes(
    alloc: Global,
    protocol: DisplayProtocol,
    before: &DisplayCells,
    after: &DisplayCells,
) -> Result<Vec<u8>, BytesFault>
    // A display that shows the one shows the other, and gets no other commands than it knows.
    ensures shows { IfOk result (λ bytes. (screen : Screen) → IsShowing (characters_of before.now.cells) screen →
        ShowsOnly screen (characters_of after.now.cells)
        (screen_after (make_of protocol after.now) screen bytes.items)) }
    // Which bytes they are.
    ensures sent { IfOk result (λ bytes. bytes.items
        ≡ rows_bytes protocol after.now.columns 1 after.now.rows before.now.cells after.now.cells) }
    ensures fit { OnOk result (can_become before.now after.now ≡ true) }
    ensures misfit { IsErrOf result fault.Misfit → can_become before.now after.now ≡ false }
{
    if !can_become(before, after) {
        return Err(BytesFault::Misfit);
    }
    let (rows, columns) = (after.rows() as u8, after.columns() as usize);
    let mut out = Vec::new(alloc);
    push_rows(
        &mut out,
        protocol,
        rows,
        columns,
        before.as_slice(),
        after.as_slice(),
    )?;
    Ok(out)
}
