//! What a totals file holds, as JSON.
ghost use Rattle.std.specs.Prelude.{◌≡◌, IfOk};
ghost use Rattle.serde_json.specs.View.{view};
ghost use Rattle.pos_report.specs.Json.{IsJsonOf, file_data, files_data, room_data, survey_data};

use crate::texts::layout_number;
use pos_dir::Directory;
use pos_survey::Survey;
use serde_json::{Value, json};
use std::alloc::{AllocError, Global};

// A file: its name, its size, and its bytes in hex.
fn file_value(alloc: Global, name: &[u8], bytes: &[u8]) -> Result<Value, AllocError>
    ensures { IfOk result (λ value. view value ≡ file_data name.now bytes.now) }
{
    let name = hex::encode(alloc, name)?;
    let hex = hex::encode(alloc, bytes)?;
    let size = bytes.len() as u64;
    json!(in alloc; {"hex": hex, "name": name, "size": size})
}

// The files in index order.
fn files_value(alloc: Global, directory: &Directory) -> Result<Value, AllocError>
    ensures { IfOk result (λ value. view value ≡ files_data directory.now.files) }
{
    let mut files = Vec::new(alloc);
    for index in 0..directory.len() {
        let (Some(name), Some(bytes)) = (directory.name(index), directory.bytes(index)) else {
            unreachable!();
        };
        files.push(file_value(alloc, name, bytes)?)?;
    }
    Ok(Value::Array(files))
}

// The room after the records, if there is any.
fn room_value(room: Option<u64>) -> Value
    ensures { view result ≡ room_data room }
{
    match room {
        Some(room) => Value::from(room),
        None => Value::Null,
    }
}

// All that a survey has.
fn survey_value(alloc: Global, survey: &Survey) -> Result<Value, AllocError>
    ensures { IfOk result (λ value. view value ≡ survey_data survey.now) }
{
    let files = files_value(alloc, &survey.directory)?;
    let layout = layout_number(survey.slot.layout());
    let records = survey.records as u64;
    let room = room_value(survey.room);
    let slot = survey.slot.start();
    let sequence = survey.sequence;
    json!(in alloc; {
        "files": files, "layout": layout, "records": records,
        "room": room, "sequence": sequence, "slot": slot
    })
}

/// Returns a survey as one line of JSON. It reads back as what the survey has.
///
/// # Errors
///
/// [`AllocError`] if memory ran out.
pub(crate) fn survey_json(alloc: Global, survey: &Survey) -> Result<Vec<u8>, AllocError>
    ensures { IfOk result (λ text. IsJsonOf survey.now text.items) }
{
    let json = survey_value(alloc, survey)?.to_string(alloc)?;
    let mut text = Vec::from_slice(alloc, json.as_bytes())?;
    text.extend_from_slice(b"\n")?;
    Ok(text)
}
