//! The text of a receipt printer: the pieces that its bytes are read as.
ghost use Rattle.std.specs.Prelude.{◌≡◌, ◌++◌, ◌∷◌, ◌<◌, ◌≤◌, IfSome, length, bytes_eq};
ghost use Rattle.std.specs.List.{list_all};
ghost use Rattle.pos_service.specs.Receipts.{is_printable_byte, is_in_range, is_printable_text, pieces, pieces_in, sequence_pieces, cut_pieces, line_end_pieces, numbered_pieces};

mod number;

use self::number::{count_digits, count_inner, is_upper_byte, number_in};

/// Where the characters of a line are (chapter POS Printer, escape sequences cA, rA and N).
#[derive(Clone, Copy, PartialEq, Eq)]
pub enum Alignment {
    /// At the left.
    Left,
    /// In the centre.
    Center,
    /// At the right.
    Right,
}

/// A piece of the data of a request (chapter POS Printer, printNormal and its escape sequences).
#[derive(Clone, Copy, PartialEq, Eq)]
pub enum Piece {
    /// A character.
    Character(u8),
    /// The line ends.
    LineEnd,
    /// A carriage return: the line ends if it has begun.
    Return,
    /// The line ends if it has begun, and the paper is cut by 1 to 100 percent.
    Cut(u8),
    /// Characters are bold from here on.
    Bold,
    /// Lines that end from here on have this alignment.
    Align(Alignment),
    /// From here on characters aren't bold, and lines that end are at the left.
    Normal,
    /// An escape sequence whose number is out of its range: the printer doesn't take the data.
    OutOfRange,
}

/// What is at the front of some bytes.
#[derive(Clone, Copy, PartialEq, Eq)]
pub enum Token {
    /// Bytes that are dropped.
    Nothing,
    /// One piece.
    One(Piece),
    /// So many line ends.
    LineEnds(u8),
}

/// A character as it is printed.
#[derive(Clone, Copy, PartialEq, Eq)]
pub struct PrintedCharacter {
    /// The character, 0x20 to 0x7E.
    pub byte: u8,
    /// Whether it is bold.
    pub is_bold: bool,
}

/// What is on a roll: a line that has ended, or a cut.
#[derive(Clone, Copy, PartialEq, Eq)]
pub enum Mark {
    /// A line with its alignment and the number of its characters.
    Line(Alignment, usize),
    /// A cut of 1 to 100 percent.
    Cut(u8),
}

/// Returns whether a word is this text.
fn is(word: &[u8], text: &str) -> bool
    ensures { result ≡ bytes_eq word.now text.now }
{
    word == text.as_bytes()
}

/// Returns a cut of so many percent. A cut of 0 is none; above 100 the number is out of range (chapter POS Printer).
pub fn cut_of(number: u32) -> Token
    ensures { pieces_in result ≡ cut_pieces number }
{
    if number == 0 {
        return Token::Nothing;
    }
    if number <= 100 {
        return Token::One(Piece::Cut(number as u8));
    }
    Token::One(Piece::OutOfRange)
}

/// Returns so many line ends. Above 255 the number is out of range.
fn line_ends_of(number: u32) -> Token
    ensures { pieces_in result ≡ line_end_pieces number }
{
    if number <= 255 {
        return Token::LineEnds(number as u8);
    }
    Token::One(Piece::OutOfRange)
}

/// Returns what digits and letters after ESC | stand for.
fn numbered_token(digits: &[u8], letters: &[u8]) -> Token
    ensures { pieces_in result ≡ numbered_pieces digits.now letters.now }
{
    if is(letters, "P") {
        return cut_of(number_in(digits, 100));
    }
    if is(letters, "fP") {
        return cut_of(number_in(digits, 100));
    }
    if is(letters, "lF") {
        return line_ends_of(number_in(digits, 1));
    }
    Token::Nothing
}

/// Returns what the bytes after ESC | stand for, up to the upper-case letter.
fn command_token(body: &[u8]) -> Token
    ensures { pieces_in result ≡ sequence_pieces body.now }
{
    if is(body, "bC") {
        return Token::One(Piece::Bold);
    }
    if is(body, "cA") {
        return Token::One(Piece::Align(Alignment::Center));
    }
    if is(body, "rA") {
        return Token::One(Piece::Align(Alignment::Right));
    }
    if is(body, "N") {
        return Token::One(Piece::Normal);
    }
    let (digits, letters) = body.split_at(count_digits(body));
    numbered_token(digits, letters)
}

/// Returns what begins after ESC |, and the bytes after it.
fn sequence_token(bytes: &[u8]) -> (Token, &[u8])
    ensures pieces { pieces (27 ∷ 124 ∷ bytes.now) ≡ pieces_in result.0 ++ pieces result.1.now }
    ensures shorter { length result.1.now ≤ length bytes.now }
{
    let inner = count_inner(bytes);
    if inner >= bytes.len() {
        return (Token::Nothing, bytes);
    }
    if !is_upper_byte(bytes[inner]) {
        return (Token::Nothing, bytes);
    }
    let (body, rest) = bytes.split_at(inner + 1);
    (command_token(body), rest)
}

/// Returns what is at the front of some bytes, of which there is at least one, and the bytes after it (chapter POS
/// Printer).
pub fn next_token(bytes: &[u8]) -> (Token, &[u8])
    requires { 0 < length bytes.now }
    ensures pieces { pieces bytes.now ≡ pieces_in result.0 ++ pieces result.1.now }
    ensures shorter { length result.1.now < length bytes.now }
{
    match bytes {
        [27, 124, rest @ ..] => sequence_token(rest),
        [27, rest @ ..] => (Token::Nothing, rest),
        [10, rest @ ..] => (Token::One(Piece::LineEnd), rest),
        [13, rest @ ..] => match rest {
            [10, ..] => (Token::Nothing, rest),
            _ => (Token::One(Piece::Return), rest),
        },
        [b, rest @ ..] => (Token::One(Piece::Character(*b)), rest),
        [] => (Token::Nothing, bytes),
    }
}

/// Returns whether each byte is a line feed, a carriage return, ESC or 0x20 to 0x7E.
fn all_allowed(bytes: &[u8]) -> bool
    ensures { result ≡ list_all is_printable_byte bytes.now }
{
    bytes.iter().all(|b| (32 <= *b && *b <= 126) || *b == 10 || *b == 13 || *b == 27)
}

/// Returns whether no number in a token is out of its range.
#[tactic(auto, using(crate::proofs::PieceLemmas::all_line_ends))]
fn is_in_range_token(token: Token) -> bool
    ensures { result ≡ list_all is_in_range (pieces_in token) }
{
    match token {
        Token::Nothing => true,
        Token::One(Piece::OutOfRange) => false,
        Token::One(_) => true,
        Token::LineEnds(_) => true,
    }
}

/// Returns the character at the front of some bytes, and the bytes after it, if no look at the others is needed: each
/// byte from 0x20 on is such a character.
pub fn next_character(bytes: &[u8]) -> Option<(u8, &[u8])>
    ensures pieces { IfSome result (λ front. pieces bytes.now ≡ Piece.Character front.0 ∷ pieces front.1.now) }
    ensures shorter { IfSome result (λ front. length front.1.now < length bytes.now) }
{
    match bytes {
        [byte, rest @ ..] if *byte >= 32 => Some((*byte, rest)),
        _ => None,
    }
}

/// Whether no number in the bytes is out of its range.
fn all_in_range(bytes: &[u8]) -> bool
    ensures { result ≡ list_all is_in_range (pieces bytes.now) }
{
    let mut rest = bytes;
    while !rest.is_empty() {
        if let Some((_, next)) = next_character(rest) {
            rest = next;
        } else {
            let (token, next) = next_token(rest);
            if !is_in_range_token(token) {
                return false;
            }
            rest = next;
        }
    }
    true
}

/// Returns whether a printer takes these bytes as the data of a request (chapter POS Printer). They are at most 4,096
/// bytes, each a line feed, a carriage return, ESC or 0x20 to 0x7E, and no number of an escape sequence is out of its
/// range.
pub fn is_printable(bytes: &[u8]) -> bool
    ensures { result ≡ is_printable_text bytes.now }
{
    bytes.len() <= 4096 && all_allowed(bytes) && all_in_range(bytes)
}
