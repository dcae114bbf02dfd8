//! How a text is laid on the cells of a window.
ghost use Rattle.std.specs.Prelude.{◌≡◌, ◌+◌, ◌<◌, ◌≤◌, true, false, [], ◌∷◌, length, slice_index, take};
ghost use Rattle.std.specs.List.{list_all};
ghost use Rattle.pos_sims.specs.Windows.{IsOfStyle, IsWithin, Lays, SameSize, ShowsOver, is_character, with_run_at};

use crate::grid::Grid;
use pos_service::display_text::{Attribute, DisplayCell, Place};

/// How a text is shown: the size of the display, and the text's attribute.
#[derive(Clone, Copy)]
pub(crate) struct TextStyle {
    /// How many rows the display has.
    pub rows: u32,
    /// How many columns the display has.
    pub columns: u32,
    /// How the text is shown.
    pub attribute: Attribute,
}

/// Returns the start of the next row. Below the last row the cells scroll.
fn next_row<W: Grid>(window: &mut W, style: TextStyle, place: Place) -> Place
    requires within { IsWithin style (W.Grid.shown window.old).cells place }
    requires size { IsOfStyle style (W.Grid.shown window.old) }
    ensures follows { let shown = W.Grid.shown in
        Lays style (shown window.old).cells place (10 ∷ []) (shown window.new).cells result }
    ensures within { IsWithin style (W.Grid.shown window.new).cells result }
    ensures size { SameSize (W.Grid.shown window.old) (W.Grid.shown window.new) }
    ensures column { result.column ≡ 0 }
{
    if place.row + 1 < style.rows {
        return Place {
            row: place.row + 1,
            column: 0,
        };
    }
    window.feed_row();
    Place {
        row: place.row,
        column: 0,
    }
}

/// Puts characters with an attribute over cells, from a place on.
#[tactic(auto, using(crate::proofs::RunLemmas::run_more))]
pub(crate) fn put_characters(
    cells: &mut [DisplayCell],
    at: usize,
    attribute: Attribute,
    characters: &[u8],
)
    requires { at + length characters.now ≤ length cells.old }
    ensures { cells.new ≡ with_run_at at attribute characters.now cells.old }
{
    for place in 0..characters.len() {
        cells[at + place] = DisplayCell {
            character: characters[place],
            attribute,
        };
    }
}

/// Puts characters for which there is room in the row, and returns the place after them.
fn lay_run<W: Grid>(window: &mut W, style: TextStyle, place: Place, characters: &[u8]) -> Place
    requires within { IsWithin style (W.Grid.shown window.old).cells place }
    requires size { IsOfStyle style (W.Grid.shown window.old) }
    requires room { place.column + length characters.now ≤ style.columns }
    requires some { 1 ≤ length characters.now }
    requires printed { list_all is_character characters.now ≡ true }
    ensures follows { let shown = W.Grid.shown in
        Lays style (shown window.old).cells place characters.now (shown window.new).cells result }
    ensures within { IsWithin style (W.Grid.shown window.new).cells result }
    ensures size { SameSize (W.Grid.shown window.old) (W.Grid.shown window.new) }
{
    window.put_run(place, style.attribute, characters);
    Place {
        row: place.row,
        column: place.column + characters.len() as u32,
    }
}

/// Puts one byte of a text for which there is no room in the row, and returns the place after it. It is a line feed, a
/// carriage return, or a character right of the last column, which goes to the next row first.
fn lay_byte<W: Grid>(window: &mut W, style: TextStyle, place: Place, byte: u8) -> Place
    requires within { IsWithin style (W.Grid.shown window.old).cells place }
    requires size { IsOfStyle style (W.Grid.shown window.old) }
    requires full { place.column < style.columns → is_character byte ≡ false }
    ensures follows { let shown = W.Grid.shown in
        Lays style (shown window.old).cells place (byte ∷ []) (shown window.new).cells result }
    ensures within { IsWithin style (W.Grid.shown window.new).cells result }
    ensures size { SameSize (W.Grid.shown window.old) (W.Grid.shown window.new) }
{
    if byte == b'\n' {
        return next_row(window, style, place);
    }
    if byte == b'\r' {
        return Place {
            row: place.row,
            column: 0,
        };
    }
    let start = next_row(window, style, place);
    lay_run(window, style, start, &[byte])
}

/// Returns whether a byte of a text is a character: neither a line feed nor a carriage return.
fn is_character_byte(b: u8) -> bool
    ensures { result ≡ is_character b }
{
    b != b'\n' && b != b'\r'
}

/// Returns whether all bytes are characters. It looks at all of them together.
fn are_characters(bytes: &[u8]) -> bool
    ensures { result ≡ list_all is_character bytes.now }
{
    let mut all = true;
    for byte in bytes {
        all &= is_character_byte(*byte);
    }
    all
}

/// Returns a place in a text before which all bytes are characters, found by eights.
fn skip_eights(bytes: &[u8]) -> usize
    ensures bound { result ≤ length bytes.now }
    ensures printed { list_all is_character (take result bytes.now) ≡ true }
{
    let mut place = 0;
    while bytes.len() - place >= 8 && are_characters(&bytes[place..place + 8]) {
        place += 8;
    }
    place
}

/// Returns how many characters are at the front of a text, at most so many.
fn count_characters(bytes: &[u8], most: usize) -> usize
    ensures bound { result ≤ length bytes.now }
    ensures most { result ≤ most }
    ensures printed { list_all is_character (take result bytes.now) ≡ true }
    ensures end { result < most → result < length bytes.now → is_character (slice_index bytes.now result) ≡ false }
{
    let most = most.min(bytes.len());
    for place in skip_eights(&bytes[..most])..most {
        if !is_character_byte(bytes[place]) {
            return place;
        }
    }
    most
}

/// Puts the front of a text, and returns the place after it and how many bytes it has. The front is the characters for
/// which there is room in the row, or otherwise one byte.
fn lay_front<W: Grid>(
    window: &mut W,
    style: TextStyle,
    place: Place,
    bytes: &[u8],
) -> (Place, usize)
    requires within { IsWithin style (W.Grid.shown window.old).cells place }
    requires size { IsOfStyle style (W.Grid.shown window.old) }
    requires some { 1 ≤ length bytes.now }
    ensures count { (1 ≤ result.1) × (result.1 ≤ length bytes.now) }
    ensures follows { let shown = W.Grid.shown in
        Lays style (shown window.old).cells place (take result.1 bytes.now) (shown window.new).cells result.0 }
    ensures within { IsWithin style (W.Grid.shown window.new).cells result.0 }
    ensures size { SameSize (W.Grid.shown window.old) (W.Grid.shown window.new) }
{
    let count = count_characters(bytes, (style.columns - place.column) as usize);
    if count == 0 {
        return (lay_byte(window, style, place, bytes[0]), 1);
    }
    (lay_run(window, style, place, &bytes[..count]), count)
}

/// Puts a text from a place on.
pub(crate) fn lay_text<W: Grid>(window: &mut W, style: TextStyle, start: Place, bytes: &[u8])
    requires within { IsWithin style (W.Grid.shown window.old).cells start }
    requires size { IsOfStyle style (W.Grid.shown window.old) }
    ensures window { let shown = W.Grid.shown in
        ShowsOver style (shown window.old).cells start bytes.now (shown window.new).cells }
    ensures size { SameSize (W.Grid.shown window.old) (W.Grid.shown window.new) }
{
    let mut place = start;
    let mut done = 0;
    while done < bytes.len() {
        let (reached, count) = lay_front(window, style, place, &bytes[done..]);
        place = reached;
        done += count;
    }
}
