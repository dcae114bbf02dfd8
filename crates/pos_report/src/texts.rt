//! What a check and an explanation print.
ghost use Rattle.std.specs.Prelude.{◌≡◌, ◌≢◌, ◌++◌, IfOk, OnOk, decimal, flat_map};
ghost use Rattle.pos_survey.specs.declared.fault.SurveyFault.TheVariants.{NoMemory};
ghost use Rattle.pos_report.specs.Texts.{are_zero, broken_text, code_text, damage_text, explained, explained_as, is_meant};
ghost use Rattle.pos_report.specs.Texts.{is_meant_as, layout_number, short_text, sound_text, unformatted_text};

use crate::codes::Code;
use itoa::Buffer;
use pos_image::Layout;
use pos_survey::{Rule, Survey, SurveyFault, words_of};
use std::alloc::{AllocError, Global};

/// Puts parts at the end of a text, one after another.
pub(crate) fn put_all(text: &mut Vec<u8>, parts: &[&str]) -> Result<(), AllocError>
    ensures { OnOk result (text.new.items ≡ text.old.items ++ flat_map (λ part. part.now) parts.now) }
{
    for part in parts {
        text.extend_from_slice(part.as_bytes())?;
    }
    Ok(())
}

/// Returns the number of a layout.
pub(crate) fn layout_number(layout: Layout) -> u64
    ensures { result ≡ layout_number layout }
{
    match layout {
        Layout::Layout1 => 1,
        Layout::Layout2 => 2,
    }
}

/// Returns what a check prints of totals that are sound.
///
/// # Errors
///
/// [`AllocError`] if memory ran out.
pub(crate) fn sound_text(alloc: Global, survey: &Survey) -> Result<Vec<u8>, AllocError>
    ensures { IfOk result (λ text. text.items ≡ sound_text survey.now) }
{
    let mut layout = Buffer::new();
    let mut sequence = Buffer::new();
    let mut records = Buffer::new();
    let mut files = Buffer::new();
    let mut text = Vec::new(alloc);
    put_all(
        &mut text,
        &[
            "sound: layout ",
            layout.format(layout_number(survey.slot.layout())),
            ", sequence ",
            sequence.format(survey.sequence),
            ", records ",
            records.format(survey.records as u64),
            ", files ",
            files.format(survey.directory.len() as u64),
            "\n",
        ],
    )?;
    Ok(text)
}

// What a check prints of damaged totals.
fn damage_text(alloc: Global, at: u64, rule: Rule) -> Result<Vec<u8>, AllocError>
    ensures { IfOk result (λ text. text.items ≡ damage_text at rule) }
{
    let mut place = Buffer::new();
    let mut text = Vec::new(alloc);
    put_all(
        &mut text,
        &["damaged at byte ", place.format(at), ": ", words_of(rule)],
    )?;
    text.extend_from_slice(
        b"\nto do: copy the file first, and let no till open it; then restore a copy, else `kijolvar salvage` it\n",
    )?;
    Ok(text)
}

/// Returns whether bytes are all 0. Only a file with such bytes is made into totals in place.
pub fn are_zero(bytes: &[u8]) -> bool
    ensures { result ≡ are_zero bytes.now }
{
    bytes.iter().all(|byte| *byte == 0)
}

// What a check prints of fewer bytes than totals have.
fn short_text(bytes: &[u8]) -> &'static str
    ensures { result.now ≡ short_text (are_zero bytes.now) }
{
    if are_zero(bytes) {
        return "no totals: shorter than a totals file, which has 327680 bytes\n\
             to do: is it the right file? Restore a copy if it had totals; `kijolvar create FILE` makes new ones\n";
    }
    "no totals: shorter than a totals file, which has 327680 bytes\n\
     to do: is it the right file? If it was cut off, restore a copy, else `kijolvar salvage` it; \
     for new totals move it away, then `kijolvar create FILE`\n"
}

// What a check prints of bytes without totals.
fn unformatted_text(bytes: &[u8]) -> &'static str
    ensures { result.now ≡ unformatted_text (are_zero bytes.now) }
{
    if are_zero(bytes) {
        return "no totals: not formatted\n\
             to do: is it the right file? Restore a copy if it had totals; `kijolvar create FILE` makes new ones\n";
    }
    "no totals: not formatted, but its bytes aren't all 0\n\
     to do: is it the right file? Restore a copy if it had totals; \
     for new totals move it away, then `kijolvar create FILE`\n"
}

/// Returns what a check prints of bytes that are no totals, or damaged ones.
///
/// # Errors
///
/// [`AllocError`] if memory ran out.
pub(crate) fn broken_text(
    alloc: Global,
    fault: SurveyFault,
    bytes: &[u8],
) -> Result<Vec<u8>, AllocError>
    requires { fault ≢ NoMemory }
    ensures { IfOk result (λ text. text.items ≡ broken_text fault bytes.now) }
{
    let words = match fault {
        SurveyFault::Damaged(at, rule) => return damage_text(alloc, at, rule),
        SurveyFault::TooSmall => short_text(bytes),
        _ => unformatted_text(bytes),
    };
    Vec::from_slice(alloc, words.as_bytes())
}

// Whether a word is the number or the name of a code.
fn is_meant(code: &Code<'_>, word: &str) -> bool
    ensures { result ≡ is_meant word.now code.now }
{
    let mut buffer = Buffer::new();
    if word == code.name {
        return true;
    }
    word == buffer.format(code.number)
}

// Whether a word is the number or the name of a code of a kind.
fn is_meant_as(code: &Code<'_>, kind: &str, word: &str) -> bool
    ensures { result ≡ is_meant_as kind.now word.now code.now }
{
    if kind != code.kind {
        return false;
    }
    is_meant(code, word)
}

// Puts what a code means at the end of a text.
fn put_code(text: &mut Vec<u8>, code: &Code<'_>) -> Result<(), AllocError>
    ensures { OnOk result (text.new.items ≡ text.old.items ++ code_text code.now) }
{
    let mut number = Buffer::new();
    put_all(
        text,
        &[
            code.name,
            " ",
            number.format(code.number),
            ", ",
            code.kind,
            ": ",
            code.meaning,
            "\nto do: ",
            code.action,
            "\n",
        ],
    )
}

/// Returns what all codes mean that have a number or a name.
///
/// # Errors
///
/// [`AllocError`] if memory ran out.
pub fn explained(alloc: Global, codes: &[Code<'_>], word: &str) -> Result<Vec<u8>, AllocError>
    ensures { IfOk result (λ text. text.items ≡ flat_map (explained word.now) codes.now) }
{
    let mut text = Vec::new(alloc);
    for code in codes {
        if is_meant(code, word) {
            put_code(&mut text, code)?;
        }
    }
    Ok(text)
}

/// Returns what all codes of a kind mean that have a number or a name.
///
/// # Errors
///
/// [`AllocError`] if memory ran out.
pub fn explained_as(
    alloc: Global,
    codes: &[Code<'_>],
    kind: &str,
    word: &str,
) -> Result<Vec<u8>, AllocError>
    ensures { IfOk result (λ text. text.items ≡ flat_map (explained_as kind.now word.now) codes.now) }
{
    let mut text = Vec::new(alloc);
    for code in codes {
        if is_meant_as(code, kind, word) {
            put_code(&mut text, code)?;
        }
    }
    Ok(text)
}
