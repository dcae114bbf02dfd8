//! The files of totals as text, and how two totals differ.
ghost use Rattle.std.specs.Prelude.{◌≡◌, ◌++◌, IfOk, OnOk};
ghost use Rattle.pos_report.specs.Dump.{all_alone, alone, difference, difference_text, differences, dump_line, dump_lines};
ghost use Rattle.pos_report.specs.Dump.{dump_text, named};

use crate::answers::bytes_of;
use crate::texts::{layout_number, put_all};
use itoa::Buffer;
use pos_dir::Directory;
use pos_survey::Survey;
use std::alloc::{AllocError, Global};

// Puts the line of a file at the end of a text: its name and its bytes, in hex.
fn put_file(alloc: Global, text: &mut Vec<u8>, name: &[u8], bytes: &[u8]) -> Result<(), AllocError>
    ensures { OnOk result (text.new.items ≡ text.old.items ++ dump_line name.now bytes.now) }
{
    let name = hex::encode(alloc, name)?;
    let bytes = hex::encode(alloc, bytes)?;
    put_all(text, &[name.as_str(), "=", bytes.as_str(), "\n"])
}

/// Returns the layout and the files of totals, as lines of text that `load` reads again.
///
/// # Errors
///
/// [`AllocError`] if memory ran out.
pub(crate) fn dump_text(alloc: Global, survey: &Survey) -> Result<Vec<u8>, AllocError>
    ensures { IfOk result (λ text. text.items ≡ dump_text survey.now) }
{
    let mut layout = Buffer::new();
    let mut text = Vec::new(alloc);
    put_all(
        &mut text,
        &[
            "layout ",
            layout.format(layout_number(survey.slot.layout())),
            "\n",
        ],
    )?;
    put_files(alloc, &mut text, &survey.directory)?;
    Ok(text)
}

// Puts the lines of all files at the end of a text.
fn put_files(alloc: Global, text: &mut Vec<u8>, directory: &Directory) -> Result<(), AllocError>
    ensures { OnOk result (text.new.items ≡ text.old.items ++ dump_lines directory.now.files) }
{
    for index in 0..directory.len() {
        let (Some(name), Some(bytes)) = (directory.name(index), directory.bytes(index)) else {
            unreachable!();
        };
        put_file(alloc, text, name, bytes)?;
    }
    Ok(())
}

// Puts a word and a name at the end of a text, as a line.
fn put_named(text: &mut Vec<u8>, word: &str, name: &[u8]) -> Result<(), AllocError>
    ensures { OnOk result (text.new.items ≡ text.old.items ++ named word.now name.now) }
{
    text.extend_from_slice(word.as_bytes())?;
    text.extend_from_slice(name)?;
    text.extend_from_slice(b"\n")
}

// Puts how a file differs from that of the same name in other totals at the end of a text, if it does.
fn put_difference(
    text: &mut Vec<u8>,
    other: &Directory,
    name: &[u8],
    bytes: &[u8],
) -> Result<(), AllocError>
    ensures { OnOk result (text.new.items ≡ text.old.items ++ difference other.now.files name.now bytes.now) }
{
    match bytes_of(other, name) {
        None => put_named(text, "only in the first: ", name),
        Some(found) => {
            if found == bytes {
                return Ok(());
            }
            put_named(text, "differs: ", name)
        }
    }
}

// Puts how the files of totals differ from those of other totals at the end of a text.
fn put_differences(
    text: &mut Vec<u8>,
    first: &Directory,
    other: &Directory,
) -> Result<(), AllocError>
    ensures { OnOk result (text.new.items ≡ text.old.items ++ differences first.now.files other.now.files) }
{
    for index in 0..first.len() {
        let (Some(name), Some(bytes)) = (first.name(index), first.bytes(index)) else {
            unreachable!();
        };
        put_difference(text, other, name, bytes)?;
    }
    Ok(())
}

// Puts that a file isn't in other totals at the end of a text, if it isn't.
fn put_alone(text: &mut Vec<u8>, other: &Directory, name: &[u8]) -> Result<(), AllocError>
    ensures { OnOk result (text.new.items ≡ text.old.items ++ alone other.now.files name.now) }
{
    match bytes_of(other, name) {
        None => put_named(text, "only in the second: ", name),
        Some(_) => Ok(()),
    }
}

// Puts which files of totals aren't in other totals at the end of a text.
fn put_all_alone(
    text: &mut Vec<u8>,
    second: &Directory,
    other: &Directory,
) -> Result<(), AllocError>
    ensures { OnOk result (text.new.items ≡ text.old.items ++ all_alone second.now.files other.now.files) }
{
    for index in 0..second.len() {
        let Some(name) = second.name(index) else {
            unreachable!();
        };
        put_alone(text, other, name)?;
    }
    Ok(())
}

/// Returns how the files of two totals differ, as lines of text: nothing if they are the same, but for their order.
///
/// # Errors
///
/// [`AllocError`] if memory ran out.
pub fn difference_text(
    alloc: Global,
    first: &Survey,
    second: &Survey,
) -> Result<Vec<u8>, AllocError>
    ensures { IfOk result (λ text. text.items ≡ difference_text first.now.directory.files second.now.directory.files) }
{
    let mut text = Vec::new(alloc);
    put_differences(&mut text, &first.directory, &second.directory)?;
    put_all_alone(&mut text, &second.directory, &first.directory)?;
    Ok(text)
}
