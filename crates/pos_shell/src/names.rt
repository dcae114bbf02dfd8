//! The names of the numbers in an answer.
ghost use Rattle.std.specs.Prelude.{◌≡◌, ◌++◌, ◌∷◌, OnOk, flat_map};
ghost use Rattle.pos_script.specs.Lines.{pieces, words_of};
ghost use Rattle.pos_shell.specs.Names.{error_kind, first_kind, is_meant, kind_at, name_of, named, numbers_of, refusal_kind};
ghost use Rattle.pos_shell.specs.Names.{value_numbers};

use itoa::Buffer;
use pos_report::Code;
use pos_script::{cut, next_word};
use pos_service::words::is;
use std::alloc::AllocError;

// What the numbers in an answer are.
#[derive(Clone, Copy)]
pub(crate) enum Numbers {
    // Not codes.
    Other,
    // A result code and an extended one.
    Refusal,
    // The status of an event.
    Status,
    // The two codes of an event, and its locus.
    Error,
    // A state.
    State,
    // A state of power.
    Power,
}

// The kind of a word of a refusal, by its place.
fn refusal_kind(place: usize) -> &'static str
    ensures { result.now ≡ refusal_kind place }
{
    if place == 1 {
        return "result code";
    }
    if place == 2 {
        return "extended code";
    }
    ""
}

// The kind of a word of an ErrorEvent, by its place.
fn error_kind(place: usize) -> &'static str
    ensures { result.now ≡ error_kind place }
{
    if place == 2 {
        return "result code";
    }
    if place == 3 {
        return "extended code";
    }
    if place == 4 {
        return "locus of an ErrorEvent";
    }
    ""
}

// The kind of the word at one place, at which another word is or not.
fn one_kind(wanted: usize, kind: &'static str, place: usize) -> &'static str
    ensures { result.now ≡ first_kind wanted kind.entry.now place }
{
    if place == wanted {
        return kind;
    }
    ""
}

// The kind of code that a word of an answer is, by its place.
fn kind_at(numbers: Numbers, place: usize) -> &'static str
    ensures { result.now ≡ kind_at numbers place }
{
    match numbers {
        Numbers::Other => "",
        Numbers::Refusal => refusal_kind(place),
        Numbers::Status => one_kind(2, "status of a StatusUpdateEvent", place),
        Numbers::Error => error_kind(place),
        Numbers::State => one_kind(1, "value of State", place),
        Numbers::Power => one_kind(1, "value of PowerState", place),
    }
}

// What the number of the property is that a line asks for.
fn value_numbers(line: &[u8]) -> Numbers
    ensures { result ≡ value_numbers (words_of line.now) }
{
    let Some((verb, rest)) = next_word(line) else {
        return Numbers::Other;
    };
    let Some((_, rest)) = next_word(rest) else {
        return Numbers::Other;
    };
    let Some((property, _)) = next_word(rest) else {
        return Numbers::Other;
    };
    if !is(verb, "get") {
        return Numbers::Other;
    }
    if is(property, "State") {
        return Numbers::State;
    }
    if is(property, "PowerState") {
        return Numbers::Power;
    }
    Numbers::Other
}

// What the numbers in the answer to a line are.
pub(crate) fn numbers_of(line: &[u8], answer: &[u8]) -> Numbers
    ensures { result ≡ numbers_of line.now answer.now }
{
    if answer.starts_with(b"err ") || answer.starts_with(b"failed ") {
        return Numbers::Refusal;
    }
    if answer.starts_with(b"event StatusUpdateEvent ") {
        return Numbers::Status;
    }
    if answer.starts_with(b"event ErrorEvent ") {
        return Numbers::Error;
    }
    if answer.starts_with(b"ok ") {
        return value_numbers(line);
    }
    Numbers::Other
}

// Whether a word is the number of a code of this kind.
fn is_meant(code: &Code<'_>, kind: &str, word: &[u8]) -> bool
    ensures { result ≡ is_meant kind.now word.now code.now }
{
    let mut buffer = Buffer::new();
    if kind != code.kind {
        return false;
    }
    is(word, buffer.format(code.number))
}

// Puts the names of a number of this kind at the end of a text, each after a space.
fn put_names(
    text: &mut Vec<u8>,
    codes: &[Code<'_>],
    kind: &str,
    word: &[u8],
) -> Result<(), AllocError>
    ensures { OnOk result (text.new.items ≡ text.old.items ++ flat_map (name_of kind.now word.now) codes.now) }
{
    for code in codes {
        if is_meant(code, kind, word) {
            text.push(b' ')?;
            text.extend_from_slice(code.name.as_bytes())?;
        }
    }
    Ok(())
}

// Puts a word at the end of a text, after a space, and then its names.
fn put_word(
    text: &mut Vec<u8>,
    codes: &[Code<'_>],
    kind: &str,
    word: &[u8],
) -> Result<(), AllocError>
    ensures { OnOk result (text.new.items
        ≡ text.old.items ++ (32 ∷ word.now ++ flat_map (name_of kind.now word.now) codes.now)) }
{
    text.push(b' ')?;
    text.extend_from_slice(word)?;
    put_names(text, codes, kind, word)
}

/// Puts the words of an answer at the end of a text, each after a space. The names of a code are put after its number.
///
/// # Errors
///
/// [`AllocError`] if memory ran out.
pub(crate) fn put_named(
    text: &mut Vec<u8>,
    codes: &[Code<'_>],
    numbers: Numbers,
    answer: &[u8],
) -> Result<(), AllocError>
    ensures { OnOk result (text.new.items ≡ text.old.items ++ named codes.now numbers 0 (pieces 32 answer.now)) }
{
    let mut left = answer;
    let mut place = 0;
    loop {
        let (word, rest) = cut(left, b' ');
        put_word(text, codes, kind_at(numbers, place), word)?;
        let Some(rest) = rest else {
            return Ok(());
        };
        left = rest;
        place += 1;
    }
}
