//! The devices of a profile, as lines of text.
ghost use Rattle.std.specs.Prelude.{◌≡◌, ◌++◌, IfOk, OnOk, decimal};
ghost use Rattle.kijolvar.specs.DeviceTexts.{device_text, devices_text, kind_text};

use itoa::Buffer;
use pos_profile::Entry;
use pos_service::Kind;
use std::alloc::{AllocError, Global};

// Adds a word and a number to a text.
fn add_number(text: &mut Vec<u8>, word: &str, number: u32) -> Result<(), AllocError>
    ensures { OnOk result (text.new.items ≡ text.old.items ++ word.now ++ decimal number) }
{
    let mut buffer = Buffer::new();
    text.extend_from_slice(word.as_bytes())?;
    text.extend_from_slice(buffer.format(number).as_bytes())
}

// Adds the numbers of a kind to a text.
fn add_kind(text: &mut Vec<u8>, kind: Option<Kind>) -> Result<(), AllocError>
    ensures { OnOk result (text.new.items ≡ text.old.items ++ kind_text kind) }
{
    match kind {
        Some(Kind::Display { rows, columns }) => {
            add_number(text, " rows ", rows)?;
            add_number(text, " columns ", columns)
        }
        Some(Kind::Printer { chars, near }) => {
            add_number(text, " chars ", chars)?;
            add_number(text, " near ", near)
        }
        _ => Ok(()),
    }
}

// Adds the line of a device to a text.
fn add_device(text: &mut Vec<u8>, entry: &Entry) -> Result<(), AllocError>
    ensures { OnOk result (text.new.items ≡ text.old.items ++ device_text entry.now) }
{
    text.extend_from_slice(entry.name.as_bytes())?;
    text.extend_from_slice(b" ")?;
    text.extend_from_slice(entry.category.name().as_bytes())?;
    add_kind(text, entry.kind())?;
    text.extend_from_slice(b"\n")
}

/// Returns the lines of the devices, in order: each has the name, the category and the numbers of the kind.
///
/// # Errors
///
/// [`AllocError`] if memory ran out.
pub(crate) fn devices_text(alloc: Global, entries: &[Entry]) -> Result<Vec<u8>, AllocError>
    ensures { IfOk result (λ text. text.items ≡ devices_text entries.now) }
{
    let mut text = Vec::new(alloc);
    for entry in entries {
        add_device(&mut text, entry)?;
    }
    Ok(text)
}
