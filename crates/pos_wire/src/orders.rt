//! The bytes of an order for the device that carries it out.
ghost use Rattle.std.specs.Prelude.{◌≡◌, ◌≤◌, ℕ, [], true, false, IfOk, OnOk, IsErrOf};
ghost use Rattle.pos_service.specs.declared.kind.Kind.TheVariants as kind;
ghost use Rattle.pos_service.specs.Kinds.{is_display};
ghost use Rattle.pos_service.specs.Peripherals.{IsPlantOf, order_fits};
ghost use Rattle.pos_escpos.specs.PrinterBytes.{all_fit, all_on_paper, items_bytes};
ghost use Rattle.pos_wire.specs.declared.frames.JobEnd.{JobEnd};
ghost use Rattle.pos_wire.specs.declared.wire_fault.WireFault.TheVariants as fault;
ghost use Rattle.pos_wire.specs.Frames.{AllDo};
ghost use Rattle.pos_wire.specs.Orders.{HasNoBytes, SendsOrder};
ghost use Rattle.pos_wire.specs.Settings.{cut_of, drawer_fits, settings_fit};

use crate::frames::{JobEnd, framed};
use crate::rows::{row_bytes, shown_after};
use crate::settings::WireSettings;
use crate::wire_fault::WireFault;
use pos_escpos::{BytesFault, receipt_bytes};
use pos_service::{Kind, Mechanism, Order, Snapshot};
use pos_sims::{PrintPreview, Roll};
use std::alloc::Global;

/// Returns the bytes that open a drawer.
fn drawer_bytes<P: PrintPreview>(
    alloc: Global,
    settings: &WireSettings,
    is_new: bool,
    end: JobEnd,
    twin: &P,
    order: &Order,
) -> Result<Vec<u8>, WireFault>
    requires plant { IsPlantOf kind.Drawer (P.Peripheral.state twin.now).plant }
    requires fits { order_fits kind.Drawer order.now ≡ true }
    requires settings { drawer_fits settings.now ≡ true }
    ensures sends { let state = P.Peripheral.state twin.now in
        IfOk result (λ bytes. SendsOrder settings.now is_new end state order.now bytes.items) }
    ensures no_bytes { IsErrOf result fault.NoBytes → HasNoBytes is_new (P.Peripheral.state twin.now) order.now }
    ensures settings { IsErrOf result fault.BadSettings → ⊥ }
{
    let Snapshot(plant) = twin.snapshot()?;
    if !plant.powered {
        return Err(WireFault::NoBytes);
    }
    let pulse = settings.kick().bytes();
    Ok(framed(alloc, is_new, &pulse, end)?)
}

/// Returns the bytes of what is printed on a roll, for a device of so many characters a line.
fn roll_bytes(
    alloc: Global,
    settings: &WireSettings,
    chars: u32,
    roll: &Roll,
) -> Result<Vec<u8>, WireFault>
    requires width { chars ≤ settings.now.width }
    requires feed { settings.now.feed ≤ 255 }
    ensures bytes { IfOk result (λ bytes. bytes.items ≡ items_bytes (cut_of settings.now) roll.now.items) }
    ensures prints { let settings = settings.now in IfOk result (λ bytes.
        AllDo false settings.width (all_on_paper (cut_of settings) roll.now.items) [] [] bytes.items) }
    ensures no_bytes { IsErrOf result fault.NoBytes → all_fit chars roll.now.items ≡ false }
    ensures settings { IsErrOf result fault.BadSettings → ⊥ }
{
    let (line, cut) = (settings.line(chars), settings.cut());
    let (marks, characters) = roll.printed();
    match receipt_bytes(alloc, line, cut, marks, characters) {
        Ok(sent) => Ok(sent),
        Err(BytesFault::Misfit) => Err(WireFault::NoBytes),
        Err(BytesFault::NoMemory) => Err(WireFault::NoMemory),
    }
}

/// Returns the bytes of what an order adds to a printer's receipt.
fn printer_bytes<P: PrintPreview>(
    alloc: Global,
    settings: &WireSettings,
    chars: u32,
    is_new: bool,
    end: JobEnd,
    twin: &P,
    order: &Order,
) -> Result<Vec<u8>, WireFault>
    requires plant { (near : ℕ) → IsPlantOf (kind.Printer chars near) (P.Peripheral.state twin.now).plant }
    requires fits { order_fits (P.Peripheral.state twin.now).kind order.now ≡ true }
    requires width { chars ≤ settings.now.width }
    requires feed { settings.now.feed ≤ 255 }
    ensures sends { let state = P.Peripheral.state twin.now in
        IfOk result (λ bytes. SendsOrder settings.now is_new end state order.now bytes.items) }
    ensures no_bytes { IsErrOf result fault.NoBytes → HasNoBytes is_new (P.Peripheral.state twin.now) order.now }
    ensures settings { IsErrOf result fault.BadSettings → ⊥ }
{
    let added = twin.would_add(alloc, order)?;
    match added {
        None => Err(WireFault::NoBytes),
        Some(roll) => match roll_bytes(alloc, settings, chars, &roll) {
            Ok(sent) => Ok(framed(alloc, is_new, sent.as_slice(), end)?),
            Err(fault) => Err(fault),
        },
    }
}

/// Returns the bytes of the rows that an order changes on a display.
fn display_bytes<P: PrintPreview>(
    alloc: Global,
    settings: &WireSettings,
    is_new: bool,
    twin: &P,
    order: &Order,
) -> Result<Vec<u8>, WireFault>
    requires display { is_display (P.Peripheral.state twin.now).kind ≡ true }
    requires fits { order_fits (P.Peripheral.state twin.now).kind order.now ≡ true }
    ensures sends { let state = P.Peripheral.state twin.now in
        IfOk result (λ bytes. (end : JobEnd) → SendsOrder settings.now is_new end state order.now bytes.items) }
    ensures no_bytes { IsErrOf result fault.NoBytes → HasNoBytes is_new (P.Peripheral.state twin.now) order.now }
    ensures settings { IsErrOf result fault.BadSettings → ⊥ }
{
    let _kind = twin.kind();
    let Snapshot(plant) = twin.snapshot()?;
    if !plant.powered {
        return Err(WireFault::NoBytes);
    }
    let Mechanism::Display(before) = plant.mechanism else {
        return Err(WireFault::NoBytes);
    };
    let after = shown_after(alloc, &before, order)?;
    row_bytes(alloc, settings, is_new, &before, &after)
}

/// Returns the bytes of an order for the device that the twin stands for. If the connection is new, they begin with its
/// start. What `end` asks a printer or a drawer's printer for is behind them; a display is asked for nothing.
///
/// # Errors
///
/// [`WireFault::BadSettings`] if a setting of the device's kind is out of its range. [`WireFault::NoBytes`] if the
/// device doesn't do such orders, the twin wouldn't carry it out, or what it leaves has a byte that is no character.
/// [`WireFault::NoMemory`] if memory ran out.
pub fn order_bytes<P: PrintPreview>(
    alloc: Global,
    settings: &WireSettings,
    is_new: bool,
    end: JobEnd,
    twin: &P,
    order: &Order,
) -> Result<Vec<u8>, WireFault>
    // The machine carries the order out, and the device does the same with the bytes, which are exactly the order's.
    ensures sends { let state = P.Peripheral.state twin.now in
        IfOk result (λ bytes. SendsOrder settings.now is_new end state order.now bytes.items) }
    ensures no_bytes { let state = P.Peripheral.state twin.now in
        IsErrOf result fault.NoBytes → order_fits state.kind order.now ≡ true → HasNoBytes is_new state order.now }
    ensures bad_settings { IsErrOf result fault.BadSettings →
        settings_fit (P.Peripheral.state twin.now).kind settings.now ≡ false }
    ensures good_settings { OnOk result (settings_fit (P.Peripheral.state twin.now).kind settings.now ≡ true) }
    ensures settings_first { IsErrOf result fault.NoBytes →
        settings_fit (P.Peripheral.state twin.now).kind settings.now ≡ true }
{
    let kind = twin.kind();
    if !settings.fit(kind) {
        return Err(WireFault::BadSettings);
    }
    if !order.fits(kind) {
        return Err(WireFault::NoBytes);
    }
    match kind {
        Kind::Drawer => drawer_bytes(alloc, settings, is_new, end, twin, order),
        Kind::Scanner => Err(WireFault::NoBytes),
        Kind::Display {
            rows: _,
            columns: _,
        } => display_bytes(alloc, settings, is_new, twin, order),
        Kind::Printer { chars, near: _ } => {
            printer_bytes(alloc, settings, chars, is_new, end, twin, order)
        }
    }
}
