//! The bytes of driven devices' orders, and what printers reply.
ghost use Rattle.std.specs.Prelude.{◌≡◌, IfOk, IsErrOf, false};
ghost use Rattle.pos_service.specs.Peripherals.{signs_of};
ghost use Rattle.pos_wire.specs.ReplyLines.{ReplyHasText, has_replies};
ghost use Rattle.pos_wire.specs.Settings.{settings_fit};
ghost use Rattle.pos_wire.specs.declared.wire_fault.WireFault.TheVariants as fault;
ghost use Rattle.kijolvar.specs.HeldLines.{IsTillSound};
ghost use Rattle.kijolvar.specs.WireCalls.{AnswersOrderBytes, AnswersReplies, IsText, WritesWhole, asked_numbered, end_numbered};

use crate::codes::{BAD_SETTINGS, NO_DEVICE, NO_MEMORY, NO_ORDER, OK, SHORT};
use crate::device::Device;
use crate::till_state::TillState;
use pos_drive::Awaits;
use pos_escpos::{NowStatus, OrderStatus, PrinterReply};
use pos_service::{Kind, Peripheral};
use pos_wire::{
    AwaitedReply, JobEnd, WireFault, WireSettings, order_bytes, read_reply, reply_text,
};
use std::alloc::Global;

/// Returns what is asked behind an order's bytes, by its number: 0 to 65,535 the end of a job of this number, 65,536
/// the paper and 65,537 the drawer in order. Others ask nothing.
fn end_numbered(number: u32) -> JobEnd
    ensures { result ≡ end_numbered number }
{
    if number <= 65_535 {
        return JobEnd::Job(number as u16);
    }
    match number {
        65_536 => JobEnd::Status(OrderStatus::Paper),
        65_537 => JobEnd::Status(OrderStatus::Drawer),
        _ => JobEnd::Nothing,
    }
}

/// Returns what was asked of a printer, by its number: 1 to 4 a status at once, 5 the paper and 6 the drawer in order.
/// Others ask nothing.
fn asked_numbered(number: u32) -> AwaitedReply
    ensures { result ≡ asked_numbered number }
{
    match number {
        1 => AwaitedReply::Now(NowStatus::Printer),
        2 => AwaitedReply::Now(NowStatus::OfflineCause),
        3 => AwaitedReply::Now(NowStatus::Fault),
        4 => AwaitedReply::Now(NowStatus::Paper),
        5 => AwaitedReply::InOrder(OrderStatus::Paper),
        6 => AwaitedReply::InOrder(OrderStatus::Drawer),
        _ => AwaitedReply::Nothing,
    }
}

/// Writes all of these bytes if there is room for them, and to `needed` how many they are. Returns OK, or SHORT if
/// there is less room.
fn write_whole(told: &[u8], out: &mut [u8], needed: &mut usize) -> u32
    ensures { WritesWhole told.now out.old out.new needed.new result }
{
    let count = told.len();
    *needed = count;
    if count > out.len() {
        return SHORT;
    }
    out[..count].copy_from_slice(told);
    OK
}

/// Writes the bytes of the order that waits or that the host has, and to `needed` how many they are. Returns OK.
/// `is_new` is 0 unless the connection is new, and `end` what is asked behind the bytes (`end_numbered`).
///
/// # Errors
///
/// - SHORT if `out` has less room. Then only `needed` is written.
/// - NO_ORDER if there is no such order, or it has no bytes.
/// - BAD_SETTINGS if the settings of the device's kind are out of range.
/// - NO_MEMORY if memory ran out.
pub(crate) fn write_order_bytes(
    till_state: &TillState,
    alloc: Global,
    settings: &WireSettings,
    is_new: u32,
    end: u32,
    out: &mut [u8],
    needed: &mut usize,
) -> u32
    ensures { AnswersOrderBytes ⟦<Device as Awaits>⟧.course till_state.now settings.now is_new end out.old out.new
        needed.old needed.new result }
{
    let Some((_, device)) = till_state.counter.pending() else {
        return NO_ORDER;
    };
    let Some(order) = device.waiting() else {
        return NO_ORDER;
    };
    match order_bytes(
        alloc,
        settings,
        is_new != 0,
        end_numbered(end),
        device.twin(),
        order,
    ) {
        Ok(told) => write_whole(&told, out, needed),
        Err(WireFault::NoMemory) => NO_MEMORY,
        Err(WireFault::BadSettings) => BAD_SETTINGS,
        Err(WireFault::NoBytes) => NO_ORDER,
    }
}

/// Returns whether a device of this kind has replies: it is a printer or a drawer.
fn has_replies(kind: Kind) -> bool
    ensures { result ≡ has_replies kind }
{
    matches!(kind, Kind::Printer { .. } | Kind::Drawer)
}

/// Returns the lines of a reply for a device, or no bytes if there is no reply.
///
/// # Errors
///
/// [`WireFault`] if memory ran out, or the settings of the device's kind are out of range.
fn text_read(
    alloc: Global,
    settings: &WireSettings,
    name: &[u8],
    device: &Device,
    reply: Option<PrinterReply>,
) -> Result<Vec<u8>, WireFault>
    ensures text { let state = ⟦<Device as Peripheral>⟧.state device.now in
        IfOk result (λ text. IsText reply
        (ReplyHasText settings.now name.now state.kind (signs_of state.kind state.plant)) text.items) }
    ensures bad_settings { let state = ⟦<Device as Peripheral>⟧.state device.now in
        IsErrOf result fault.BadSettings → settings_fit state.kind settings.now ≡ false }
    ensures no_bytes { let state = ⟦<Device as Peripheral>⟧.state device.now in
        IsErrOf result fault.NoBytes → has_replies state.kind ≡ false }
{
    match reply {
        Some(reply) => reply_text(alloc, settings, name, device.kind(), device.signs(), reply),
        None => Ok(Vec::new(alloc)),
    }
}

/// Reads what a printer sent up to the end of the first reply. Writes the reply's lines for the device of this name to
/// `text`, and to `needed` how many bytes they have, 0 if no reply ends in these bytes. Returns OK. `used` says how
/// many bytes were read, and `skipped` how many of them are no reply. `asked` is what was asked (`asked_numbered`).
///
/// # Errors
///
/// - SHORT if `text` has less room. Then only `needed` is written.
/// - NO_DEVICE if nothing serves the device of this name, or it is no printer and no drawer.
/// - BAD_SETTINGS if the settings of the device's kind are out of range.
/// - NO_MEMORY if memory ran out.
pub(crate) fn write_reply(
    till_state: &TillState,
    alloc: Global,
    name: &[u8],
    settings: &WireSettings,
    asked: u32,
    bytes: &[u8],
    used: &mut usize,
    skipped: &mut usize,
    text: &mut [u8],
    needed: &mut usize,
) -> u32
    requires { IsTillSound ⟦<Device as Peripheral>⟧ till_state.now }
    ensures { AnswersReplies ⟦<Device as Peripheral>⟧ till_state.now settings.now name.now asked bytes.now used.old
        used.new skipped.old skipped.new text.old text.new needed.old needed.new result }
{
    let Some(device) = till_state.counter.served(name) else {
        return NO_DEVICE;
    };
    if !has_replies(device.kind()) {
        return NO_DEVICE;
    }
    if !settings.fit(device.kind()) {
        return BAD_SETTINGS;
    }
    let read = read_reply(asked_numbered(asked), bytes);
    let told = match text_read(alloc, settings, name, device, read.reply) {
        Ok(told) => told,
        Err(WireFault::NoMemory) => return NO_MEMORY,
        Err(_) => return BAD_SETTINGS,
    };
    let code = write_whole(&told, text, needed);
    if code == OK {
        *used = read.used;
        *skipped = read.skipped;
    }
    code
}
