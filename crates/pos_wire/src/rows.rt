//! The bytes of what a display shows after an order.
ghost use Rattle.std.specs.Prelude.{◌≡◌, ◌≤◌, ◌*◌, false, true, IfOk, IsErrOf, length};
ghost use Rattle.pos_service.specs.declared.kind.Kind.TheVariants as kind;
ghost use Rattle.pos_service.specs.declared.order.Reply.TheVariants as reply;
ghost use Rattle.pos_service.specs.Peripherals.{Performs, order_fits};
ghost use Rattle.pos_escpos.specs.DisplayBytes.{can_become, characters_of, make_of, rows_bytes};
ghost use Rattle.pos_escpos.specs.Screens.{IsShowing, Screen, ShowsOnly, screen_after};
ghost use Rattle.pos_wire.specs.declared.wire_fault.WireFault.TheVariants as fault;
ghost use Rattle.pos_wire.specs.Orders.{AllShow, known_before, lit, shown_bytes};

use crate::settings::WireSettings;
use crate::wire_fault::WireFault;
use pos_escpos::{BytesFault, DisplayProtocol, blank_cells, display_start_bytes, rows_bytes};
use pos_service::{DisplayCells, Mechanism, Order, Peripheral, Reply, Snapshot};
use pos_sims::PlainDisplay;
use std::alloc::Global;

/// Returns what a display that is on and shows these cells shows after an order.
pub(crate) fn shown_after(
    alloc: Global,
    before: &DisplayCells,
    order: &Order,
) -> Result<DisplayCells, WireFault>
    requires rows { (1 ≤ before.now.rows) × (before.now.rows ≤ 8) }
    requires columns { (1 ≤ before.now.columns) × (before.now.columns ≤ 80) }
    requires cells { length before.now.cells ≡ before.now.rows * before.now.columns }
    requires fits { order_fits (kind.Display before.now.rows before.now.columns) order.now ≡ true }
    ensures done { IfOk result (λ after. Performs order.now (lit before.now) reply.Done (lit after)) }
    ensures no_bytes { IsErrOf result fault.NoBytes → ⊥ }
    ensures settings { IsErrOf result fault.BadSettings → ⊥ }
{
    let mut display = PlainDisplay::showing(alloc, before)?;
    let reply = display.ask(order)?;
    if reply != Reply::Done {
        unreachable!();
    }
    let Snapshot(plant) = display.snapshot()?;
    match plant.mechanism {
        Mechanism::Display(after) => Ok(after),
        _ => unreachable!(),
    }
}

/// Returns the bytes of the rows that have changed.
fn changed_rows(
    alloc: Global,
    protocol: DisplayProtocol,
    before: &DisplayCells,
    after: &DisplayCells,
) -> Result<Vec<u8>, WireFault>
    ensures bytes { IfOk result (λ bytes. bytes.items
        ≡ rows_bytes protocol after.now.columns 1 after.now.rows before.now.cells after.now.cells) }
    ensures shows { IfOk result (λ bytes. (screen : Screen) → IsShowing (characters_of before.now.cells) screen →
        ShowsOnly screen (characters_of after.now.cells)
        (screen_after (make_of protocol after.now) screen bytes.items)) }
    ensures no_bytes { IsErrOf result fault.NoBytes → can_become before.now after.now ≡ false }
    ensures settings { IsErrOf result fault.BadSettings → ⊥ }
{
    match rows_bytes(alloc, protocol, before, after) {
        Ok(bytes) => Ok(bytes),
        Err(BytesFault::Misfit) => Err(WireFault::NoBytes),
        Err(BytesFault::NoMemory) => Err(WireFault::NoMemory),
    }
}

/// Returns the bytes of what a display shows after an order. If the connection is new, they begin with its start, and
/// have all rows that aren't blank.
pub(crate) fn row_bytes(
    alloc: Global,
    settings: &WireSettings,
    is_new: bool,
    before: &DisplayCells,
    after: &DisplayCells,
) -> Result<Vec<u8>, WireFault>
    ensures bytes { IfOk result (λ bytes. bytes.items ≡ shown_bytes settings.now is_new before.now after.now) }
    ensures shows { IfOk result (λ bytes. AllShow settings.now is_new before.now after.now bytes.items) }
    ensures no_bytes { IsErrOf result fault.NoBytes →
        can_become (known_before is_new before.now after.now) after.now ≡ false }
    ensures settings { IsErrOf result fault.BadSettings → ⊥ }
{
    let protocol = settings.protocol();
    if !is_new {
        return changed_rows(alloc, protocol, before, after);
    }
    let Ok(blank) = blank_cells(alloc, after.rows(), after.columns()) else {
        return Err(WireFault::NoMemory);
    };
    let rows = changed_rows(alloc, protocol, &blank, after)?;
    let mut bytes = Vec::from_slice(alloc, &display_start_bytes())?;
    bytes.extend_from_slice(rows.as_slice())?;
    Ok(bytes)
}
