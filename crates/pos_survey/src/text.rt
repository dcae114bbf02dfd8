//! A survey as lines of text.
ghost use Rattle.std.specs.Prelude.{◌≡◌, ◌++◌, map, decimal, IfOk, OnOk};
ghost use Rattle.pos_survey.specs.Texts.{line, hex_text, shown, shown_byte, number_of, room_text, file_text, files_text, facts_text, survey_text};

use crate::survey::Survey;
use itoa::Buffer;
use pos_dir::Directory;
use pos_image::Layout;
use std::alloc::{AllocError, Global};

// Returns what is shown for a byte: itself, or a full stop if it has no character of its own.
fn shown_byte(byte: u8) -> u8
    ensures { result ≡ shown_byte byte }
{
    if byte < 0x20 {
        return b'.';
    }
    if byte > 0x7e {
        return b'.';
    }
    byte
}

// Returns what is shown for bytes.
fn show(alloc: Global, bytes: &[u8]) -> Result<Vec<u8>, AllocError>
    ensures { IfOk result (λ text. text.items ≡ shown bytes.now) }
{
    let mut text = Vec::new(alloc);
    for byte in bytes {
        text.extend_from_slice(&[shown_byte(*byte)])?;
    }
    Ok(text)
}

// Returns bytes in hex, and a hyphen for none.
fn hex_of(alloc: Global, bytes: &[u8]) -> Result<Vec<u8>, AllocError>
    ensures { IfOk result (λ text. text.items ≡ hex_text bytes.now) }
{
    if bytes.is_empty() {
        return Vec::from_slice(alloc, b"-");
    }
    let text = hex::encode(alloc, bytes)?;
    Vec::from_slice(alloc, text.as_bytes())
}

// Puts a line at the end of the text: a word, and its value.
fn put_line(text: &mut Vec<u8>, word: &str, value: &[u8]) -> Result<(), AllocError>
    ensures { OnOk result (text.new.items ≡ text.old.items ++ line word.now value.now) }
{
    text.extend_from_slice(word.as_bytes())?;
    text.extend_from_slice(b" ")?;
    text.extend_from_slice(value)?;
    text.extend_from_slice(b"\n")
}

// Puts a line with a number at the end of the text.
fn put_number(text: &mut Vec<u8>, word: &str, number: u64) -> Result<(), AllocError>
    ensures { OnOk result (text.new.items ≡ text.old.items ++ line word.now (decimal number)) }
{
    let mut buffer = Buffer::new();
    put_line(text, word, buffer.format(number).as_bytes())
}

// Puts the lines of a file at the end of the text.
fn put_file(alloc: Global, text: &mut Vec<u8>, name: &[u8], bytes: &[u8]) -> Result<(), AllocError>
    ensures { OnOk result (text.new.items ≡ text.old.items ++ file_text name.now bytes.now) }
{
    let hex_name = hex_of(alloc, name)?;
    let shown_name = show(alloc, name)?;
    let hex = hex_of(alloc, bytes)?;
    let shown = show(alloc, bytes)?;
    put_line(text, "file", &hex_name)?;
    put_line(text, "name", &shown_name)?;
    put_number(text, "size", bytes.len() as u64)?;
    put_line(text, "hex", &hex)?;
    put_line(text, "text", &shown)
}

// Puts the lines of all files at the end of the text.
fn put_files(alloc: Global, text: &mut Vec<u8>, directory: &Directory) -> Result<(), AllocError>
    ensures { OnOk result (text.new.items ≡ text.old.items ++ files_text directory.now.files) }
{
    for index in 0..directory.len() {
        let (Some(name), Some(bytes)) = (directory.name(index), directory.bytes(index)) else {
            unreachable!();
        };
        put_file(alloc, text, name, bytes)?;
    }
    Ok(())
}

// Returns the number of a layout.
fn number_of(layout: Layout) -> u64
    ensures { result ≡ number_of layout }
{
    match layout {
        Layout::Layout1 => 1,
        Layout::Layout2 => 2,
    }
}

// Puts the line of the room in the log at the end of the text.
fn put_room(text: &mut Vec<u8>, room: Option<u64>) -> Result<(), AllocError>
    ensures { OnOk result (text.new.items ≡ text.old.items ++ room_text room) }
{
    match room {
        Some(room) => put_number(text, "room", room),
        None => put_line(text, "room", b"none"),
    }
}

// Puts the lines of all but the files at the end of the text.
fn put_facts(text: &mut Vec<u8>, survey: &Survey) -> Result<(), AllocError>
    ensures { OnOk result (text.new.items ≡ text.old.items ++ facts_text survey.now) }
{
    put_number(text, "layout", number_of(survey.slot.layout()))?;
    put_number(text, "slot", survey.slot.start())?;
    put_number(text, "sequence", survey.sequence)?;
    put_number(text, "records", survey.records as u64)?;
    put_room(text, survey.room)?;
    put_number(text, "files", survey.directory.len() as u64)
}

impl Survey {
    /// Returns the survey as lines of text: one fact a line. docs/reference/console.md, "What a totals file holds".
    ///
    /// # Errors
    ///
    /// [`AllocError`] if memory ran out.
    pub fn to_text(&self, alloc: Global) -> Result<Vec<u8>, AllocError>
        ensures { IfOk result (λ text. text.items ≡ survey_text self.now) }
    {
        let mut text = Vec::new(alloc);
        put_facts(&mut text, self)?;
        put_files(alloc, &mut text, &self.directory)?;
        Ok(text)
    }
}
