//! The report of trials in JUnit's form of XML.
ghost use Rattle.std.specs.Prelude.{◌≡◌, ◌<◌, ◌++◌, IfOk, OnOk, flat_map, true};
ghost use Rattle.std.specs.List.{list_all};
ghost use Rattle.pos_shell.specs.Xml.{are_four, are_three, are_two, byte_at, case_text, counts_text, escaped};
ghost use Rattle.pos_shell.specs.Xml.{failed_text, failure_text, head_text, hex_byte, hex_digit, is_excluded, is_harmless, is_next};
ghost use Rattle.pos_shell.specs.Xml.{is_second, is_within, junit, known_at, piece, pieces_from, spelled};

use crate::differences::put_parts;
use crate::trials::{Trial, failures};
use itoa::Buffer;
use std::alloc::{AllocError, Global};

// Whether a byte lies in a range.
fn is_within(low: u8, high: u8, byte: u8) -> bool
    ensures { result ≡ is_within low high byte }
{
    byte >= low && byte <= high
}

// The byte at a place, 0 behind the last.
fn byte_at(bytes: &[u8], place: usize) -> u8
    ensures { result ≡ byte_at bytes.now place }
{
    match bytes.get(place) {
        Some(byte) => *byte,
        None => 0,
    }
}

// Whether a byte of UTF-8 isn't the first one of its character.
fn is_next(byte: u8) -> bool
    ensures { result ≡ is_next byte }
{
    is_within(128, 191, byte)
}

// Whether a byte may be the second one of a character with this first one.
fn is_second(first: u8, byte: u8) -> bool
    ensures { result ≡ is_second first byte }
{
    let low = match first {
        224 => 160,
        240 => 144,
        _ => 128,
    };
    let high = match first {
        237 => 159,
        244 => 143,
        _ => 191,
    };
    is_within(low, high, byte)
}

// Whether three bytes are a character that XML excludes.
fn is_excluded(first: u8, second: u8, third: u8) -> bool
    ensures { result ≡ is_excluded first second third }
{
    first == 239 && second == 191 && is_within(190, 191, third)
}

// Whether two bytes spell a character.
fn are_two(first: u8, rest: &[u8]) -> bool
    ensures { result ≡ are_two first rest.now }
{
    is_within(194, 223, first) && is_next(byte_at(rest, 0))
}

// Whether three bytes spell a character that XML may have.
fn are_three(first: u8, rest: &[u8]) -> bool
    ensures { result ≡ are_three first rest.now }
{
    let second = byte_at(rest, 0);
    let third = byte_at(rest, 1);
    is_within(224, 239, first)
        && is_second(first, second)
        && is_next(third)
        && !is_excluded(first, second, third)
}

// Whether four bytes spell a character.
fn are_four(first: u8, rest: &[u8]) -> bool
    ensures { result ≡ are_four first rest.now }
{
    is_within(240, 244, first)
        && is_second(first, byte_at(rest, 0))
        && is_next(byte_at(rest, 1))
        && is_next(byte_at(rest, 2))
}

// How many bytes spell a character from here on, if it isn't ASCII and XML may have it.
fn spelled(first: u8, rest: &[u8]) -> u8
    ensures { result ≡ spelled first rest.now }
{
    if are_two(first, rest) {
        return 2;
    }
    if are_three(first, rest) {
        return 3;
    }
    if are_four(first, rest) {
        return 4;
    }
    0
}

// How many bytes from here on are of such a character, by how many were known to be.
fn known_at(known: u8, first: u8, rest: &[u8]) -> u8
    ensures { result ≡ known_at known first rest.now }
{
    if known == 0 {
        return spelled(first, rest);
    }
    known
}

// A digit of a byte in hex.
fn hex_digit(value: u8) -> u8
    requires { value < 16 }
    ensures { result ≡ hex_digit value }
{
    if value < 10 {
        return 48 + value;
    }
    87 + value
}

// Puts a byte that XML can't have at the end of a text.
fn put_hex(text: &mut Vec<u8>, byte: u8) -> Result<(), AllocError>
    ensures { OnOk result (text.new.items ≡ text.old.items ++ hex_byte byte) }
{
    text.extend_from_slice(&[92, 120, hex_digit(byte / 16), hex_digit(byte % 16)])
}

// Puts a byte, which may be of a character that XML may have, at the end of a text.
fn put_piece(text: &mut Vec<u8>, is_known: bool, byte: u8) -> Result<(), AllocError>
    ensures { OnOk result (text.new.items ≡ text.old.items ++ piece is_known byte) }
{
    match byte {
        38 => text.extend_from_slice(b"&amp;"),
        60 => text.extend_from_slice(b"&lt;"),
        62 => text.extend_from_slice(b"&gt;"),
        34 => text.extend_from_slice(b"&quot;"),
        9 => text.extend_from_slice(b"&#9;"),
        10 => text.extend_from_slice(b"&#10;"),
        13 => text.extend_from_slice(b"&#13;"),
        _ if byte < 32 => put_hex(text, byte),
        _ if byte < 128 || is_known => text.extend_from_slice(&[byte]),
        _ => put_hex(text, byte),
    }
}

// Puts bytes at the end of a text of XML.
fn put_escaped(text: &mut Vec<u8>, bytes: &[u8]) -> Result<(), AllocError>
    ensures { OnOk result (text.new.items ≡ text.old.items ++ escaped bytes.now) }
{
    let mut left = bytes;
    let mut known = 0;
    while let Some((byte, rest)) = left.split_first() {
        let now = known_at(known, *byte, rest);
        put_piece(text, now > 0, *byte)?;
        known = now.saturating_sub(1);
        left = rest;
    }
    Ok(())
}

// Three parts, one after another.
fn joined(alloc: Global, first: &[u8], second: &[u8], third: &[u8]) -> Result<Vec<u8>, AllocError>
    ensures { IfOk result (λ text. text.items ≡ first.now ++ second.now ++ third.now) }
{
    let mut text = Vec::new(alloc);
    put_parts(&mut text, first, second, third)?;
    Ok(text)
}

// Bytes as the text of an element or of an attribute.
fn escaped(alloc: Global, bytes: &[u8]) -> Result<Vec<u8>, AllocError>
    ensures { IfOk result (λ text. text.items ≡ escaped bytes.now) }
{
    let mut text = Vec::new(alloc);
    put_escaped(&mut text, bytes)?;
    Ok(text)
}

// The failure of a script whose answers differ.
fn failed_text(alloc: Global, differences: &[u8]) -> Result<Vec<u8>, AllocError>
    ensures { IfOk result (λ text. text.items ≡ failed_text differences.now) }
{
    let text = escaped(alloc, differences)?;
    joined(
        alloc,
        b"\"><failure message=\"answers differ\">",
        &text,
        b"</failure></testcase>\n",
    )
}

// The rest of the element of a script that was tried: its failure, if its answers differ.
fn failure_text(alloc: Global, differences: &[u8]) -> Result<Vec<u8>, AllocError>
    ensures { IfOk result (λ text. text.items ≡ failure_text differences.now) }
{
    if differences.is_empty() {
        return Vec::from_slice(alloc, b"\"/>\n");
    }
    failed_text(alloc, differences)
}

// The element of a script that was tried.
fn case_text(alloc: Global, trial: &Trial<'_>) -> Result<Vec<u8>, AllocError>
    ensures { IfOk result (λ text. text.items ≡ case_text trial.now) }
{
    let path = escaped(alloc, trial.path.as_bytes())?;
    let failure = failure_text(alloc, &trial.differences)?;
    joined(
        alloc,
        b"<testcase classname=\"kijolvar\" name=\"",
        &path,
        &failure,
    )
}

// The elements of scripts that were tried.
fn cases_text(alloc: Global, trials: &[Trial<'_>]) -> Result<Vec<u8>, AllocError>
    ensures { IfOk result (λ text. text.items ≡ flat_map case_text trials.now) }
{
    let mut text = Vec::new(alloc);
    for trial in trials {
        text.extend_from_slice(&case_text(alloc, trial)?)?;
    }
    Ok(text)
}

// How many tests there are, and how many failed.
fn counts_text(alloc: Global, trials: &[Trial<'_>]) -> Result<Vec<u8>, AllocError>
    ensures { IfOk result (λ text. text.items ≡ counts_text trials.now) }
{
    let mut tests = Buffer::new();
    let mut failed = Buffer::new();
    joined(
        alloc,
        tests.format(trials.len() as u64).as_bytes(),
        b"\" failures=\"",
        failed.format(failures(trials) as u64).as_bytes(),
    )
}

// What is before the elements of the scripts.
fn head_text(alloc: Global, trials: &[Trial<'_>]) -> Result<Vec<u8>, AllocError>
    ensures { IfOk result (λ text. text.items ≡ head_text trials.now) }
{
    let counts = counts_text(alloc, trials)?;
    joined(
        alloc,
        b"<?xml version=\"1.0\" encoding=\"UTF-8\"?>\n<testsuite name=\"kijolvar\" tests=\"",
        &counts,
        b"\">\n",
    )
}

/// Returns the report of scripts that were tried, in JUnit's form of XML: a test suite with a test case for each, which
/// has a failure if the script doesn't print what is wanted.
///
/// # Errors
///
/// [`AllocError`] if memory ran out.
pub fn junit(alloc: Global, trials: &[Trial<'_>]) -> Result<Vec<u8>, AllocError>
    ensures { IfOk result (λ text. text.items ≡ junit trials.now) }
{
    let head = head_text(alloc, trials)?;
    let cases = cases_text(alloc, trials)?;
    joined(alloc, &head, &cases, b"</testsuite>\n")
}

/// States that escaped bytes are escapes, and bytes that XML doesn't read as markup: no `<`, `&` or `"` is in them but
/// in an escape.
pub fn escapes_markup(bytes: &[u8])
    ensures { list_all is_harmless (pieces_from 0 bytes.now) ≡ true }
{}
