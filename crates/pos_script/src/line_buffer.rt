//! A script that comes in pieces, line by line.
ghost use Rattle.std.specs.Prelude.{◌≡◌, ◌<◌, ◌≤◌, ◌++◌, [], ℕ, true, false, List, length, take, slice_index, option_map, IfOk, IfSome};
ghost use Rattle.pos_script.specs.Lines.{is_plain, unfinished, without_cr};
ghost use Rattle.pos_script.specs.LineBuffers.{EndsInput, Feeds, IsEnded, IsHeld, IsLine, StandsFor, are_plain, have_no_feed, is_blank, is_kept_nothing, is_quiet_look, kept_ended, kept_with, look_ended, look_from, look_of, look_with};

use crate::lines::{all_plain, all_spaces, is_plain_byte, is_quiet_line, strip_cr};
use pos_service::NoMemory;
use std::alloc::Global;
use std::marker::Model;

/// How many bytes of a line are kept: the 140,000 of the longest line that isn't refused, and a carriage return.
const MOST_KEPT: usize = 140_001;

/// How a line looks that is too long to be kept.
#[derive(Clone, Copy)]
pub(crate) enum LongLineKind {
    /// Its first byte is `#`.
    Comment,
    /// It is nothing but spaces.
    Blank,
    /// It is nothing but spaces, with a carriage return at its end.
    BlankThenReturn,
    /// It is another line.
    Loud,
}

/// A line of a script (docs/reference/console.md, "Lines").
#[derive(Clone, Copy)]
pub enum Line<'a> {
    /// It prints nothing: a comment, or nothing but spaces.
    Quiet,
    /// It is a `bad line`: longer than 140,000 bytes, or with a byte that is neither a space nor a sign that ASCII
    /// prints.
    Misspelled,
    /// It is well spelled, and these are its bytes.
    Words(&'a [u8]),
}

/// The place of a line that a piece ended.
#[derive(Clone, Copy)]
pub enum EndedLine<'a> {
    /// The buffer holds it.
    Held,
    /// The piece has all of it, and nothing of it was put into the buffer.
    InPiece(Line<'a>),
}

/// Returns whether eight bytes are plain. It looks at all of them together.
fn are_eight_plain(bytes: &[u8]) -> bool
    requires { length bytes.now ≡ 8 }
    ensures { result ≡ are_plain bytes.now }
{
    is_plain_byte(bytes[0])
        & is_plain_byte(bytes[1])
        & is_plain_byte(bytes[2])
        & is_plain_byte(bytes[3])
        & is_plain_byte(bytes[4])
        & is_plain_byte(bytes[5])
        & is_plain_byte(bytes[6])
        & is_plain_byte(bytes[7])
}

/// Returns a place in a piece before which all bytes are plain, found by eights.
fn skip_eights(piece: &[u8]) -> usize
    ensures bound { result ≤ length piece.now }
    ensures plain { are_plain (take result piece.now) ≡ true }
{
    let mut place = 0;
    while piece.len() - place >= 8 && are_eight_plain(&piece[place..place + 8]) {
        place += 8;
    }
    place
}

/// Returns how many bytes of a piece are plain, up to the first that isn't.
fn count_plain(piece: &[u8]) -> usize
    ensures bound { result ≤ length piece.now }
    ensures plain { are_plain (take result piece.now) ≡ true }
    ensures end { result < length piece.now → is_plain (slice_index piece.now result) ≡ false }
{
    for place in skip_eights(piece)..piece.len() {
        if !is_plain_byte(piece[place]) {
            return place;
        }
    }
    piece.len()
}

/// Returns where the first line feed of a piece is, if there is none before `from`, or the length if there is none at
/// all.
fn find_feed(piece: &[u8], from: usize) -> usize
    requires bound { from ≤ length piece.now }
    requires front { have_no_feed (take from piece.now) ≡ true }
    ensures bound { result ≤ length piece.now }
    ensures from { from ≤ result }
    ensures front { have_no_feed (take result piece.now) ≡ true }
    ensures end { result < length piece.now → slice_index piece.now result ≡ 10 }
{
    for place in from..piece.len() {
        if piece[place] == b'\n' {
            return place;
        }
    }
    piece.len()
}

/// Returns where the first line feed of a piece is, or its length if there is none; and whether the bytes before are
/// plain.
fn find_end(piece: &[u8]) -> (usize, bool)
    ensures bound { result.0 ≤ length piece.now }
    ensures front { have_no_feed (take result.0 piece.now) ≡ true }
    ensures end { result.0 < length piece.now → slice_index piece.now result.0 ≡ 10 }
    ensures plain { result.1 ≡ are_plain (take result.0 piece.now) }
{
    let plain = count_plain(piece);
    if plain == piece.len() || piece[plain] == b'\n' {
        return (plain, true);
    }
    (find_feed(piece, plain), false)
}

/// Returns how a line looks that goes on with these bytes, if it isn't empty before them.
fn go_on(look: LongLineKind, bytes: &[u8]) -> LongLineKind
    ensures { result ≡ look_with look bytes.now }
{
    match look {
        _ if bytes.is_empty() => look,
        LongLineKind::Comment => LongLineKind::Comment,
        LongLineKind::Blank => look_behind_spaces(bytes),
        LongLineKind::BlankThenReturn | LongLineKind::Loud => LongLineKind::Loud,
    }
}

/// Returns how a line looks whose last bytes are these, after spaces or nothing.
fn look_behind_spaces(bytes: &[u8]) -> LongLineKind
    ensures { result ≡ look_from false (is_blank bytes.now) (is_blank (without_cr bytes.now)) }
{
    if all_spaces(bytes) {
        return LongLineKind::Blank;
    }
    if all_spaces(strip_cr(bytes)) {
        return LongLineKind::BlankThenReturn;
    }
    LongLineKind::Loud
}

/// Returns how a line looks.
fn look_whole(line: &[u8]) -> LongLineKind
    ensures { result ≡ look_of line.now }
{
    if !line.is_empty() && line[0] == b'#' {
        return LongLineKind::Comment;
    }
    look_behind_spaces(line)
}

/// Returns how a line looks that is in two parts.
fn look_at(front: &[u8], rest: &[u8]) -> LongLineKind
    ensures { result ≡ look_of (front.now ++ rest.now) }
{
    if front.is_empty() {
        return look_whole(rest);
    }
    go_on(look_whole(front), rest)
}

/// Returns how a line looks at its line feed, where a carriage return before it doesn't count.
fn end_look(look: LongLineKind) -> LongLineKind
    ensures { result ≡ look_ended look }
{
    match look {
        LongLineKind::BlankThenReturn => LongLineKind::Blank,
        _ => look,
    }
}

/// Returns whether a line that looks like this prints nothing.
fn is_passed_over(look: LongLineKind) -> bool
    ensures { result ≡ is_quiet_look look }
{
    match look {
        LongLineKind::Comment | LongLineKind::Blank => true,
        LongLineKind::BlankThenReturn | LongLineKind::Loud => false,
    }
}

/// Returns the line of these bytes, given whether all are plain.
fn line_of(bytes: &[u8], is_plain: bool) -> Line<'_>
    requires { is_plain ≡ are_plain bytes.now }
    ensures { IsLine result bytes.now }
{
    if is_quiet_line(bytes) {
        return Line::Quiet;
    }
    if bytes.len() <= 140_000 && is_plain {
        return Line::Words(bytes);
    }
    Line::Misspelled
}

/// Returns the line of these bytes before a line feed, given whether all are plain.
fn line_at_feed(bytes: &[u8], is_plain: bool) -> Line<'_>
    requires { is_plain ≡ are_plain bytes.now }
    ensures { IsLine result (without_cr bytes.now) }
{
    if is_plain {
        return line_of(bytes, true);
    }
    let line = strip_cr(bytes);
    line_of(line, all_plain(line))
}

/// What was read of a line of a script, which comes in pieces (docs/reference/console.md, "Lines"). It takes memory
/// only when it is made.
#[derive(Drop)]
pub struct LineBuffer {
    bytes: Vec<u8>,
    is_plain: bool,
    passed: Option<LongLineKind>,
}

impl Model for LineBuffer {
    ghost use Rattle.std.specs.Prelude.{◌≡◌, ◌≤◌, vec_capacity, vec_len};
    ghost use Rattle.pos_script.specs.LineBuffers.{Kept, are_plain, kept_from};

    ghost Value = { Kept };

    ghost view = { λ a. kept_from a.bytes.items a.passed };

    ghost invariant = { λ a. (140001 ≤ vec_capacity a.bytes) × (vec_len a.bytes ≤ 140001)
        × (a.is_plain ≡ are_plain a.bytes.items) };
}

impl LineBuffer {
    /// Returns a buffer with room for a line, of which nothing was read.
    ///
    /// # Errors
    ///
    /// [`NoMemory`] if memory ran out.
    pub fn new(alloc: Global) -> Result<LineBuffer, NoMemory>
        ensures { IfOk result (λ buffer. StandsFor buffer []) }
    {
        match Vec::with_capacity(alloc, MOST_KEPT) {
            Ok(bytes) => Ok(LineBuffer {
                bytes,
                is_plain: true,
                passed: None,
            }),
            Err(_) => Err(NoMemory),
        }
    }

    /// Takes bytes from a piece, which comes after what was read, up to and with the first line feed. Returns the line
    /// that they end, and the rest of the piece. If the piece doesn't have all of the line, the buffer holds it until
    /// it is cleared for the next.
    ///
    /// A piece without a line feed is taken whole, and the result is `None`.
    #[inline(always)]
    pub fn feed<'a>(&mut self, piece: &'a [u8]) -> Option<(EndedLine<'a>, &'a [u8])>
        ensures lines { (read : List ℕ) → StandsFor self.old read
            → Feeds read piece.now (option_map (λ found. (found.0, found.1.now)) result) self.new }
        ensures shorter { IfSome result (λ found. length found.1.now < length piece.now) }
    {
        let (end, is_plain) = find_end(piece);
        if end < piece.len() && self.is_empty() {
            let line = line_at_feed(&piece[..end], is_plain);
            return Some((EndedLine::InPiece(line), &piece[end + 1..]));
        }
        self.add(&piece[..end], is_plain);
        if end == piece.len() {
            return None;
        }
        self.end_line();
        Some((EndedLine::Held, &piece[end + 1..]))
    }

    /// Returns a line that a piece ended.
    pub fn ended_line<'a>(&'a self, ended: EndedLine<'a>) -> Line<'a>
        ensures { (line : List ℕ) → IsEnded ended.entry self.now line → IsLine result line }
    {
        match ended {
            EndedLine::Held => self.line(),
            EndedLine::InPiece(line) => line,
        }
    }

    /// Adds bytes to a line, given whether all are plain.
    fn add(&mut self, bytes: &[u8], is_plain: bool)
        requires { is_plain ≡ are_plain bytes.now }
        ensures { self.new ≡ kept_with self.old bytes.now }
    {
        match self.passed {
            Some(look) => self.passed = Some(go_on(look, bytes)),
            None if bytes.len() <= MOST_KEPT - self.bytes.len() => {
                let _ = self.bytes.extend_from_slice(bytes);
                self.is_plain = self.is_plain && is_plain;
            }
            None => self.passed = Some(look_at(self.bytes.as_slice(), bytes)),
        }
    }

    /// Drops a carriage return at the end of a line.
    fn end_line(&mut self)
        ensures { self.new ≡ kept_ended self.old }
    {
        if let Some(look) = self.passed {
            self.passed = Some(end_look(look));
            return;
        }
        let len = self.bytes.len();
        if len > 0 && self.bytes[len - 1] == b'\r' {
            self.bytes.truncate(len - 1);
            self.is_plain = all_plain(self.bytes.as_slice());
        }
    }

    /// Returns whether nothing is held. At the end of the input this says that there is no last line without a line
    /// feed.
    pub fn is_empty(&self) -> bool
        ensures kept { result ≡ is_kept_nothing self.now }
        ensures end { (read : List ℕ) → StandsFor self.now read → EndsInput read result self.now }
    {
        match self.passed {
            Some(_) => false,
            None => self.bytes.as_slice().is_empty(),
        }
    }

    /// Returns the line that is held.
    pub fn line(&self) -> Line<'_>
        ensures { (line : List ℕ) → IsHeld self.now line → IsLine result line }
    {
        if let Some(look) = self.passed {
            return if is_passed_over(look) {
                Line::Quiet
            } else {
                Line::Misspelled
            };
        }
        line_of(self.bytes.as_slice(), self.is_plain)
    }

    /// Makes room for the next line.
    pub fn clear(&mut self)
        ensures { (read : List ℕ) → unfinished read ≡ [] → StandsFor self.new read }
    {
        self.bytes.clear();
        self.is_plain = true;
        self.passed = None;
    }
}
