//! A printer's reply as lines.
ghost use Rattle.std.specs.Prelude.{◌≡◌, ◌<◌, ◌≤◌, ◌++◌, ℕ, true, false, IfOk, OnOk, IsErrOf};
ghost use Rattle.pos_service.specs.declared.kind.Kind.TheVariants as kind;
ghost use Rattle.pos_wire.specs.declared.wire_fault.WireFault.TheVariants as fault;
ghost use Rattle.pos_wire.specs.ReplyLines.{ReplyHasText, drawer_lines, has_replies, input_line, input_lines, job_line, number_word, paper_word, printer_lines, status_line, word_if};
ghost use Rattle.pos_wire.specs.Settings.{settings_fit};

use crate::settings::WireSettings;
use crate::wire_fault::WireFault;
use itoa::Buffer;
use pos_escpos::{PrinterReply, SensorSettings, Status, drawer_inputs, printer_inputs};
use pos_service::{Input, Kind, PaperLevel, Signs};
use std::alloc::{AllocError, Global};

/// Adds a text.
fn push_text(out: &mut Vec<u8>, text: &str) -> Result<(), AllocError>
    ensures { OnOk result (out.new.items ≡ out.old.items ++ text.now) }
{
    out.extend_from_slice(text.as_bytes())
}

/// Adds a number behind words, if there is one.
fn push_number(out: &mut Vec<u8>, number: Option<u32>) -> Result<(), AllocError>
    ensures { OnOk result (out.new.items ≡ out.old.items ++ number_word number) }
{
    let Some(number) = number else {
        return Ok(());
    };
    let mut buffer = Buffer::new();
    push_text(out, " ")?;
    push_text(out, buffer.format(number))
}

/// Adds the line of an input, if there is one.
fn push_input(out: &mut Vec<u8>, name: &[u8], input: &Option<Input>) -> Result<(), AllocError>
    ensures { OnOk result (out.new.items ≡ out.old.items ++ input_line name.now input.now) }
{
    let Some(input) = input else {
        return Ok(());
    };
    push_text(out, "input ")?;
    out.extend_from_slice(name)?;
    push_text(out, " ")?;
    push_text(out, input.words())?;
    push_number(out, input.number())?;
    push_text(out, "\n")
}

/// Adds the lines of inputs.
fn push_inputs(out: &mut Vec<u8>, name: &[u8], inputs: &[Option<Input>]) -> Result<(), AllocError>
    ensures { OnOk result (out.new.items ≡ out.old.items ++ input_lines name.now inputs.now) }
{
    for input in inputs {
        push_input(out, name, input)?;
    }
    Ok(())
}

/// Adds one of two texts, if a status tells which.
fn push_choice(
    out: &mut Vec<u8>,
    told: Option<bool>,
    one: &str,
    other: &str,
) -> Result<(), AllocError>
    ensures { OnOk result (out.new.items ≡ out.old.items ++ word_if one.now other.now told) }
{
    match told {
        Some(true) => push_text(out, one),
        Some(false) => push_text(out, other),
        None => Ok(()),
    }
}

/// Adds how much paper there is, if a status tells it.
fn push_paper(out: &mut Vec<u8>, told: Option<PaperLevel>) -> Result<(), AllocError>
    ensures { OnOk result (out.new.items ≡ out.old.items ++ paper_word told) }
{
    match told {
        Some(PaperLevel::Good) => push_text(out, " paper good"),
        Some(PaperLevel::NearEnd) => push_text(out, " paper near"),
        Some(PaperLevel::Empty) => push_text(out, " paper empty"),
        None => Ok(()),
    }
}

/// Adds the line of a status: what it tells, and nothing else.
fn push_status(out: &mut Vec<u8>, status: Status) -> Result<(), AllocError>
    ensures { OnOk result (out.new.items ≡ out.old.items ++ status_line status) }
{
    push_text(out, "status")?;
    push_choice(out, status.is_pin_high, " pin high", " pin low")?;
    push_choice(out, status.is_offline, " offline yes", " offline no")?;
    push_choice(out, status.is_cover_open, " cover open", " cover closed")?;
    push_paper(out, status.paper)?;
    push_choice(out, status.has_fault, " fault yes", " fault no")?;
    push_text(out, "\n")
}

/// Adds the line of an acknowledgement.
fn push_job(out: &mut Vec<u8>, number: u16) -> Result<(), AllocError>
    ensures { OnOk result (out.new.items ≡ out.old.items ++ job_line number) }
{
    let mut buffer = Buffer::new();
    push_text(out, "job ")?;
    push_text(out, buffer.format(number))?;
    push_text(out, "\n")
}

/// Adds the lines of a reply for a drawer's device.
fn push_drawer_reply(
    out: &mut Vec<u8>,
    sensors: SensorSettings,
    name: &[u8],
    signs: Signs,
    reply: PrinterReply,
) -> Result<(), AllocError>
    ensures { OnOk result (out.new.items ≡ out.old.items ++ drawer_lines sensors name.now signs reply) }
{
    match reply {
        PrinterReply::JobDone(number) => push_job(out, number),
        PrinterReply::Automatic(status)
        | PrinterReply::Now(_, status)
        | PrinterReply::InOrder(_, status) => {
            push_inputs(out, name, &drawer_inputs(sensors, signs, status))?;
            push_status(out, status)
        }
    }
}

/// Adds the lines of a reply for a printer's device.
fn push_printer_reply(
    out: &mut Vec<u8>,
    sensors: SensorSettings,
    name: &[u8],
    signs: Signs,
    reply: PrinterReply,
) -> Result<(), AllocError>
    ensures { OnOk result (out.new.items ≡ out.old.items ++ printer_lines sensors name.now signs reply) }
{
    match reply {
        PrinterReply::JobDone(number) => push_job(out, number),
        PrinterReply::Automatic(status)
        | PrinterReply::Now(_, status)
        | PrinterReply::InOrder(_, status) => {
            push_inputs(out, name, &printer_inputs(sensors, signs, status))?;
            push_status(out, status)
        }
    }
}

/// Returns the lines of a reply for a drawer's device.
fn drawer_text(
    alloc: Global,
    settings: &WireSettings,
    name: &[u8],
    signs: Signs,
    reply: PrinterReply,
) -> Result<Vec<u8>, WireFault>
    ensures text { IfOk result (λ text. ReplyHasText settings.now name.now kind.Drawer signs reply text.items) }
    ensures no_bytes { IsErrOf result fault.NoBytes → ⊥ }
    ensures settings { IsErrOf result fault.BadSettings → ⊥ }
{
    let sensors = settings.sensors(0, 1);
    let mut text = Vec::new(alloc);
    push_drawer_reply(&mut text, sensors, name, signs, reply)?;
    Ok(text)
}

/// Returns the lines of a reply for a printer's device whose paper is near its end at so many lines.
fn printer_text(
    alloc: Global,
    settings: &WireSettings,
    near: u32,
    name: &[u8],
    signs: Signs,
    reply: PrinterReply,
) -> Result<Vec<u8>, WireFault>
    requires more { near < settings.now.lines }
    requires most { settings.now.lines ≤ 100000 }
    ensures text { IfOk result (λ text. (chars : ℕ) →
        ReplyHasText settings.now name.now (kind.Printer chars near) signs reply text.items) }
    ensures no_bytes { IsErrOf result fault.NoBytes → ⊥ }
    ensures settings { IsErrOf result fault.BadSettings → ⊥ }
{
    let sensors = settings.sensors(near, settings.lines);
    let mut text = Vec::new(alloc);
    push_printer_reply(&mut text, sensors, name, signs, reply)?;
    Ok(text)
}

/// Returns a printer's reply as lines, each of which ends with a line feed.
///
/// An acknowledgement is `job` and its number. A status is the inputs by which the device of this name, which shows
/// these signs, comes to show it, as lines of a script, and then `status` with what it tells.
///
/// # Errors
///
/// [`WireFault::BadSettings`] if a setting of the device's kind is out of its range. [`WireFault::NoBytes`] if the
/// device is no printer and no drawer. [`WireFault::NoMemory`] if memory ran out.
pub fn reply_text(
    alloc: Global,
    settings: &WireSettings,
    name: &[u8],
    kind: Kind,
    signs: Signs,
    reply: PrinterReply,
) -> Result<Vec<u8>, WireFault>
    ensures text { IfOk result (λ text. ReplyHasText settings.now name.now kind signs reply text.items) }
    ensures no_bytes { IsErrOf result fault.NoBytes → has_replies kind ≡ false }
    ensures bad_settings { IsErrOf result fault.BadSettings → settings_fit kind settings.now ≡ false }
    ensures good_settings { OnOk result (settings_fit kind settings.now ≡ true) }
{
    if !settings.fit(kind) {
        return Err(WireFault::BadSettings);
    }
    match kind {
        Kind::Drawer => drawer_text(alloc, settings, name, signs, reply),
        Kind::Printer { chars: _, near } => {
            printer_text(alloc, settings, near, name, signs, reply)
        }
        _ => Err(WireFault::NoBytes),
    }
}
