//! How the answers of a script differ from those that are wanted.
ghost use Rattle.std.specs.Prelude.{◌≡◌, ◌++◌, IfOk, OnOk, bytes_eq, codes};
ghost use Rattle.pos_script.specs.Lines.{lines_of};
ghost use Rattle.pos_shell.specs.Differences.{both_answers, difference, differences, left_over, placed_line};

use crate::answer_texts::next_answer;
use itoa::Buffer;
use pos_script::{is_quiet_line, next_line};
use std::alloc::{AllocError, Global};

/// Puts parts at the end of a text, one after another.
///
/// # Errors
///
/// [`AllocError`] if memory ran out.
pub(crate) fn put_parts(
    text: &mut Vec<u8>,
    first: &[u8],
    second: &[u8],
    third: &[u8],
) -> Result<(), AllocError>
    ensures { OnOk result (text.new.items ≡ text.old.items ++ first.now ++ second.now ++ third.now) }
{
    text.extend_from_slice(first)?;
    text.extend_from_slice(second)?;
    text.extend_from_slice(third)
}

// Puts a line of a script with its place at the end of a text.
fn put_line(text: &mut Vec<u8>, name: &str, number: u64, line: &[u8]) -> Result<(), AllocError>
    ensures { OnOk result (text.new.items ≡ text.old.items ++ placed_line name.now number line.now) }
{
    let mut buffer = Buffer::new();
    put_parts(
        text,
        name.as_bytes(),
        b":",
        buffer.format(number).as_bytes(),
    )?;
    put_parts(text, b": ", line, b"\n")
}

// Puts an answer with a word before it at the end of a text.
fn put_answer(text: &mut Vec<u8>, word: &str, answer: &[u8]) -> Result<(), AllocError>
    ensures { OnOk result (text.new.items ≡ text.old.items ++ word.now ++ answer.now ++ codes "\n") }
{
    put_parts(text, word.as_bytes(), answer, b"\n")
}

// Puts two answers at the end of a text.
fn put_answers(text: &mut Vec<u8>, wanted: &[u8], found: &[u8]) -> Result<(), AllocError>
    ensures { OnOk result (text.new.items ≡ text.old.items ++ both_answers wanted.now found.now) }
{
    put_answer(text, "  wanted: ", wanted)?;
    put_answer(text, "  found:  ", found)
}

// Whether two answers are the same.
fn is_same(wanted: &[u8], found: &[u8]) -> bool
    ensures { result ≡ bytes_eq wanted.now found.now }
{
    wanted == found
}

// Puts how two answers to a line differ at the end of a text, if they do.
fn put_difference(
    text: &mut Vec<u8>,
    name: &str,
    number: u64,
    line: &[u8],
    wanted: &[u8],
    found: &[u8],
) -> Result<(), AllocError>
    ensures { OnOk result (text.new.items
        ≡ text.old.items ++ difference name.now number line.now wanted.now found.now) }
{
    if is_same(wanted, found) {
        return Ok(());
    }
    put_line(text, name, number, line)?;
    put_answers(text, wanted, found)
}

// Puts answers that no line is left for at the end of a text.
fn put_left_over(text: &mut Vec<u8>, name: &str, wanted: &[u8]) -> Result<(), AllocError>
    ensures { OnOk result (text.new.items ≡ text.old.items ++ left_over name.now (lines_of wanted.now)) }
{
    let mut left = wanted;
    while let Some((answer, rest)) = next_line(left) {
        put_parts(text, name.as_bytes(), b": no line is left for: ", answer)?;
        text.extend_from_slice(b"\n")?;
        left = rest;
    }
    Ok(())
}

/// Returns how the answers of a script differ from those that are wanted: the lines at which they do, with their
/// numbers. It is empty if they don't.
///
/// # Errors
///
/// [`AllocError`] if memory ran out.
pub(crate) fn differences(
    alloc: Global,
    name: &str,
    script: &[u8],
    wanted: &[u8],
    found: &[u8],
) -> Result<Vec<u8>, AllocError>
    ensures { IfOk result (λ text. text.items
        ≡ differences name.now 1 (lines_of script.now) (lines_of wanted.now) (lines_of found.now)) }
{
    let mut text = Vec::new(alloc);
    let mut left = script;
    let mut wanted = wanted;
    let mut found = found;
    let mut number = 1;
    while let Some((line, rest)) = next_line(left) {
        if !is_quiet_line(line) {
            let (one, more) = next_answer(wanted);
            let (other, others) = next_answer(found);
            put_difference(&mut text, name, number, line, one, other)?;
            wanted = more;
            found = others;
        }
        left = rest;
        number += 1;
    }
    put_left_over(&mut text, name, wanted)?;
    Ok(text)
}
