//! What is told of a script's lines and their answers.
ghost use Rattle.std.specs.Prelude.{◌≡◌, ◌++◌, IfOk, MatchOption, OnOk, false, true, MatchResult};
ghost use Rattle.std.specs.Str.{is_utf8};
ghost use Rattle.serde_json.specs.View.{view};
ghost use Rattle.pos_script.specs.Lines.{lines_of, words_of};
ghost use Rattle.pos_shell.specs.AnswerTexts.{first, is_command, others, prefix, reason_data, reason_text, text_data, told, told_data, told_json};
ghost use Rattle.pos_shell.specs.AnswerTexts.{told_line, told_plain};
ghost use Rattle.pos_shell.specs.Outputs.{IsCutOff, IsWritten, output_of};

use crate::names::{numbers_of, put_named};
use crate::reasons::reason;
use itoa::Buffer;
use pos_report::Code;
use pos_script::{is_quiet_line, next_line, next_word, write_bytes};
use pos_service::words::is;
use pos_streams::{Sink, WriteFault};
use serde_json::{Value, json};
use std::alloc::{AllocError, Global};
use std::str;

/// The format in which an answer is printed.
#[derive(Clone, Copy, PartialEq, Eq)]
pub enum AnswerFormat {
    /// As a person sees it who has just typed the line.
    Typed,
    /// After the name of the script and the number of the line.
    Numbered,
    /// As a line of JSON.
    Json,
}

/// How answers are told.
#[derive(Clone, Copy)]
pub struct AnswerStyle<'a> {
    /// The codes whose names are told with their numbers.
    pub codes: &'a [Code<'a>],
    /// What is told of the line `help`, if it was just typed.
    pub help: &'a str,
    /// The format.
    pub form: AnswerFormat,
}

// Bytes as a text, if they are UTF-8.
fn as_text(bytes: &[u8]) -> Option<&str>
    ensures { MatchOption result (is_utf8 bytes.now ≡ false)
        (λ text. (is_utf8 bytes.now ≡ true) × (text.now ≡ bytes.now)) }
{
    match str::from_utf8(bytes) {
        Ok(text) => Some(text),
        Err(_) => None,
    }
}

// Bytes as JSON, if they are UTF-8.
fn text_value(alloc: Global, bytes: &[u8]) -> Result<Value, AllocError>
    ensures { IfOk result (λ value. view value ≡ text_data bytes.now) }
{
    match as_text(bytes) {
        Some(text) => Ok(Value::String(String::from_str(alloc, text)?)),
        None => Ok(Value::Null),
    }
}

/// Returns whether a line has one word, which is this one.
pub(crate) fn is_command(line: &[u8], word: &str) -> bool
    ensures { result ≡ is_command word.now (words_of line.now) }
{
    match next_word(line) {
        Some((only, rest)) => next_word(rest).is_none() && is(only, word),
        None => false,
    }
}

// Why a line is `bad line`, as JSON, if that is its answer.
fn reason_value(alloc: Global, line: &[u8], answer: &[u8]) -> Result<Value, AllocError>
    ensures { IfOk result (λ value. view value ≡ reason_data line.now answer.now) }
{
    if is(answer, "bad line") {
        return Ok(Value::String(String::from_str(alloc, reason(line))?));
    }
    Ok(Value::Null)
}

// A line and its answer as JSON.
fn told_value(
    alloc: Global,
    name: &str,
    number: u64,
    line: &[u8],
    answer: &[u8],
) -> Result<Value, AllocError>
    ensures { IfOk result (λ value. view value ≡ told_data name.now number line.now answer.now) }
{
    let said = text_value(alloc, answer)?;
    let reason = reason_value(alloc, line, answer)?;
    let script = String::from_str(alloc, name)?;
    let text = text_value(alloc, line)?;
    json!(in alloc; {
        "answer": said, "line": number, "reason": reason, "script": script, "text": text
    })
}

// Puts a line and its answer at the end of a text, as a line of JSON.
fn put_json(
    alloc: Global,
    text: &mut Vec<u8>,
    name: &str,
    number: u64,
    line: &[u8],
    answer: &[u8],
) -> Result<(), AllocError>
    ensures { OnOk result (text.new.items ≡ text.old.items ++ told_json name.now number line.now answer.now) }
{
    let json = told_value(alloc, name, number, line, answer)?.to_string(alloc)?;
    text.extend_from_slice(json.as_bytes())?;
    text.extend_from_slice(b"\n")
}

// Puts what is before an answer at the end of a text.
fn put_prefix(
    text: &mut Vec<u8>,
    form: AnswerFormat,
    name: &str,
    number: u64,
) -> Result<(), AllocError>
    ensures { OnOk result (text.new.items ≡ text.old.items ++ prefix form name.now number) }
{
    if form == AnswerFormat::Typed {
        return text.extend_from_slice(b"=>");
    }
    let mut buffer = Buffer::new();
    text.extend_from_slice(name.as_bytes())?;
    text.push(b':')?;
    text.extend_from_slice(buffer.format(number).as_bytes())?;
    text.extend_from_slice(b":")
}

// Puts why a line is `bad line` at the end of a text, if that is its answer.
fn put_reason(text: &mut Vec<u8>, line: &[u8], answer: &[u8]) -> Result<(), AllocError>
    ensures { OnOk result (text.new.items ≡ text.old.items ++ reason_text line.now answer.now) }
{
    if !is(answer, "bad line") {
        return Ok(());
    }
    text.extend_from_slice(b": ")?;
    text.extend_from_slice(reason(line).as_bytes())
}

// Puts the answer to a line at the end of a text, as a person reads it.
fn put_plain(
    text: &mut Vec<u8>,
    style: &AnswerStyle<'_>,
    name: &str,
    number: u64,
    line: &[u8],
    answer: &[u8],
) -> Result<(), AllocError>
    ensures { OnOk result (text.new.items
        ≡ text.old.items ++ told_plain style.now name.now number line.now answer.now) }
{
    put_prefix(text, style.form, name, number)?;
    put_named(text, style.codes, numbers_of(line, answer), answer)?;
    put_reason(text, line, answer)?;
    text.extend_from_slice(b"\n")
}

// Puts the answer to a line at the end of a text.
fn put_told(
    alloc: Global,
    text: &mut Vec<u8>,
    style: &AnswerStyle<'_>,
    name: &str,
    number: u64,
    line: &[u8],
    answer: &[u8],
) -> Result<(), AllocError>
    ensures { OnOk result (text.new.items
        ≡ text.old.items ++ told_line style.now name.now number line.now answer.now) }
{
    if style.form == AnswerFormat::Json {
        return put_json(alloc, text, name, number, line, answer);
    }
    if style.form == AnswerFormat::Typed && is_command(line, "help") {
        return text.extend_from_slice(style.help.as_bytes());
    }
    put_plain(text, style, name, number, line, answer)
}

// The first of some answers, and the others.
pub(crate) fn next_answer(answers: &[u8]) -> (&[u8], &[u8])
    ensures first { result.0.now ≡ first (lines_of answers.now) }
    ensures others { lines_of result.1.now ≡ others (lines_of answers.now) }
{
    match next_line(answers) {
        Some(found) => found,
        None => (b"", b""),
    }
}

/// Returns what is told of the lines of a script, by the text of their answers: a line for each that isn't quiet.
///
/// # Errors
///
/// [`AllocError`] if memory ran out.
pub(crate) fn told(
    alloc: Global,
    style: &AnswerStyle<'_>,
    name: &str,
    script: &[u8],
    answers: &[u8],
) -> Result<Vec<u8>, AllocError>
    ensures { IfOk result (λ text. text.items
        ≡ told style.now name.now 1 (lines_of script.now) (lines_of answers.now)) }
{
    let mut text = Vec::new(alloc);
    let mut left = script;
    let mut said = answers;
    let mut number = 1;
    while let Some((line, rest)) = next_line(left) {
        if !is_quiet_line(line) {
            let (answer, more) = next_answer(said);
            put_told(alloc, &mut text, style, name, number, line, answer)?;
            said = more;
        }
        left = rest;
        number += 1;
    }
    Ok(text)
}

/// Writes a text to its end, and flushes it.
///
/// # Errors
///
/// [`WriteFault`] at the first write that fails, or if the flush does.
pub fn write_text<W: Sink>(writer: &mut W, text: &[u8]) -> Result<(), WriteFault>
    ensures { MatchResult result
        (λ _. IsWritten (output_of W.Sink writer.old) (output_of W.Sink writer.new) text.now)
        (λ _. IsCutOff (output_of W.Sink writer.old) (output_of W.Sink writer.new) text.now) }
{
    write_bytes(writer, text)?;
    writer.flush()
}
