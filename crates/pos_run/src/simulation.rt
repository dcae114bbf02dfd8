//! What is simulated for the entries of a profile.
ghost use Rattle.std.specs.Prelude.{◌≡◌, ◌≤◌, IfOk, option_map};
ghost use Rattle.pos_run.specs.Simulations.{IsDeviceFor, IsDisplay, IsSimulable, IsSimulatedFor, simulated_for, state_of, wrapped_state};

use crate::wrapped::{Wrapped, wrap};
use pos_drive::{Preview, Tears};
use pos_profile::Entry;
use pos_service::{Input, Kind, NoMemory, Order, Peripheral, Reply, Signs, Snapshot, Taken};
use pos_sims::{
    PlainDisplay, PlainDrawer, PlainScanner, PrintPreview, RingDisplay, Roll, RollPrinter,
};
use std::alloc::Global;

/// A simulated peripheral without a wrapper.
#[derive(Drop)]
pub enum Simulation {
    /// A cash drawer.
    Drawer(PlainDrawer),
    /// A scanner.
    Scanner(PlainScanner),
    /// A line display.
    Display(PlainDisplay),
    /// A line display whose rows are a ring.
    Ring(RingDisplay),
    /// A receipt printer.
    Printer(RollPrinter),
}

impl Peripheral for Simulation {
    ghost state = { λ simulation. state_of simulation };

    fn kind(&self) -> Kind {
        match self {
            Simulation::Drawer(drawer) => drawer.kind(),
            Simulation::Scanner(scanner) => scanner.kind(),
            Simulation::Display(display) => display.kind(),
            Simulation::Ring(ring) => ring.kind(),
            Simulation::Printer(printer) => printer.kind(),
        }
    }

    fn signs(&self) -> Signs {
        match self {
            Simulation::Drawer(drawer) => drawer.signs(),
            Simulation::Scanner(scanner) => scanner.signs(),
            Simulation::Display(display) => display.signs(),
            Simulation::Ring(ring) => ring.signs(),
            Simulation::Printer(printer) => printer.signs(),
        }
    }

    fn ask(&mut self, order: &Order) -> Result<Reply, NoMemory> {
        match self {
            Simulation::Drawer(drawer) => drawer.ask(order),
            Simulation::Scanner(scanner) => scanner.ask(order),
            Simulation::Display(display) => display.ask(order),
            Simulation::Ring(ring) => ring.ask(order),
            Simulation::Printer(printer) => printer.ask(order),
        }
    }

    fn feed(&mut self, input: &Input) -> Result<Taken, NoMemory> {
        match self {
            Simulation::Drawer(drawer) => drawer.feed(input),
            Simulation::Scanner(scanner) => scanner.feed(input),
            Simulation::Display(display) => display.feed(input),
            Simulation::Ring(ring) => ring.feed(input),
            Simulation::Printer(printer) => printer.feed(input),
        }
    }

    fn snapshot(&self) -> Result<Snapshot, NoMemory> {
        match self {
            Simulation::Drawer(drawer) => drawer.snapshot(),
            Simulation::Scanner(scanner) => scanner.snapshot(),
            Simulation::Display(display) => display.snapshot(),
            Simulation::Ring(ring) => ring.snapshot(),
            Simulation::Printer(printer) => printer.snapshot(),
        }
    }

    fn park(&mut self) {
        match self {
            Simulation::Drawer(drawer) => drawer.park(),
            Simulation::Scanner(scanner) => scanner.park(),
            Simulation::Display(display) => display.park(),
            Simulation::Ring(ring) => ring.park(),
            Simulation::Printer(printer) => printer.park(),
        }
    }

    fn is_parked(&self) -> bool {
        match self {
            Simulation::Drawer(drawer) => drawer.is_parked(),
            Simulation::Scanner(scanner) => scanner.is_parked(),
            Simulation::Display(display) => display.is_parked(),
            Simulation::Ring(ring) => ring.is_parked(),
            Simulation::Printer(printer) => printer.is_parked(),
        }
    }
}

impl Preview for Simulation {
    fn would(&self, order: &Order) -> Reply {
        match self {
            Simulation::Drawer(drawer) => drawer.would(order),
            Simulation::Scanner(scanner) => scanner.would(order),
            Simulation::Display(display) => display.would(order),
            Simulation::Ring(ring) => ring.would(order),
            Simulation::Printer(printer) => printer.would(order),
        }
    }
}

impl Tears for Simulation {
    fn tear_off(&mut self) -> Result<(), NoMemory> {
        match self {
            Simulation::Drawer(drawer) => drawer.tear_off(),
            Simulation::Scanner(scanner) => scanner.tear_off(),
            Simulation::Display(display) => display.tear_off(),
            Simulation::Ring(ring) => ring.tear_off(),
            Simulation::Printer(printer) => printer.tear_off(),
        }
    }
}

impl PrintPreview for Simulation {
    fn would_add(&self, alloc: Global, order: &Order) -> Result<Option<Roll>, NoMemory> {
        match self {
            Simulation::Printer(printer) => printer.would_add(alloc, order),
            _ => Ok(None),
        }
    }
}

/// Returns a blank line display in service, whose rows are a ring or not.
///
/// # Errors
///
/// [`NoMemory`] if memory ran out.
fn simulate_display(
    alloc: Global,
    rows: u32,
    columns: u32,
    ring: bool,
) -> Result<Simulation, NoMemory>
    requires rows { (1 ≤ rows) × (rows ≤ 8) }
    requires columns { (1 ≤ columns) × (columns ≤ 80) }
    ensures { IfOk result (IsDisplay rows columns ring) }
{
    if ring {
        Ok(Simulation::Ring(RingDisplay::new(alloc, rows, columns)?))
    } else {
        Ok(Simulation::Display(PlainDisplay::new(alloc, rows, columns)?))
    }
}

/// Returns what is simulated for an entry before it is wrapped, in service, or `None` for Hard Totals:
///
/// - a closed drawer,
/// - a scanner,
/// - a blank display of its rows and columns, whose rows are a ring if the entry says so,
/// - a printer of its characters a line, with its lines of paper.
///
/// # Errors
///
/// [`NoMemory`] if memory ran out.
fn simulate_device(alloc: Global, entry: &Entry) -> Result<Option<Simulation>, NoMemory>
    requires { IsSimulable entry.now }
    ensures { IfOk result (IsDeviceFor entry.now) }
{
    match entry.kind() {
        Some(Kind::Drawer) => Ok(Some(Simulation::Drawer(PlainDrawer::new()))),
        Some(Kind::Scanner) => Ok(Some(Simulation::Scanner(PlainScanner::new()))),
        Some(Kind::Display { rows, columns }) => {
            let display = simulate_display(alloc, rows, columns, entry.ring)?;
            Ok(Some(display))
        }
        Some(Kind::Printer { chars, near }) => {
            let printer = RollPrinter::new(alloc, chars, entry.lines, near);
            Ok(Some(Simulation::Printer(printer)))
        }
        None => Ok(None),
    }
}

/// Returns what is simulated for an entry, or `None` for Hard Totals. If the entry says so, its device is on a line
/// that fails by the entry's numbers, and a recorder is round that.
///
/// # Errors
///
/// [`NoMemory`] if memory ran out.
pub(crate) fn simulate(alloc: Global, entry: &Entry) -> Result<Option<Wrapped>, NoMemory>
    requires { IsSimulable entry.now }
    ensures simulated { IfOk result (λ made. IsSimulatedFor entry.now made) }
    ensures state { IfOk result (λ made. option_map wrapped_state made ≡ simulated_for entry.now) }
{
    let Some(device) = simulate_device(alloc, entry)? else {
        return Ok(None);
    };
    Ok(Some(wrap(device, entry.flaky, entry.recorded)))
}
