//! What a till has for a host with devices of its own.
ghost use Rattle.std.specs.Prelude.{◌≡◌};
ghost use Rattle.pos_counter.specs.Hosts.{served_named};
ghost use Rattle.pos_counter.specs.KeptDevices.{slots_in};
ghost use Rattle.kijolvar.specs.HeldLines.{IsTillSound};
ghost use Rattle.kijolvar.specs.Hosts.{Drives, IsHostCode, is_drivable, is_hostable, may_be_hosted};
ghost use Rattle.kijolvar.specs.NextOrders.{GivesDriven, HandsOut, NextOrder};
ghost use Rattle.kijolvar.specs.Orders.{Refills, order_lines};

use crate::codes::{DISK_FAILED, ERRANDS, NO_DEVICE, NO_MEMORY, OK, ORDER, SHORT};
use crate::device::Device;
use crate::order_queue::OrderQueue;
use crate::orders::{order_line, write_order};
use crate::till_disk::Settlement;
use crate::till_state::TillState;
use pos_drive::{Awaits, Progress};
use pos_profile::{Entry, Profile};
use pos_service::Peripheral;
use std::alloc::Global;
use std::collections::VecDeque;

/// Returns whether an entry has this name, and may have a peripheral.
fn is_hostable(entry: &Entry, name: &[u8]) -> bool
    ensures { result ≡ is_hostable name.now entry.now }
{
    entry.name.as_bytes() == name && entry.kind().is_some()
}

/// Returns whether a device of this name may have a peripheral.
fn may_be_hosted(entries: &[Entry], name: &[u8]) -> bool
    ensures { result ≡ may_be_hosted entries.now name.now }
{
    entries.iter().any(|entry| is_hostable(entry, name))
}

/// Keeps the orders of the device of a name for the host from now on, and returns OK.
///
/// # Errors
///
/// NO_DEVICE if no device of the name may have a peripheral, and NO_MEMORY if memory ran out. Then nothing changes.
pub(crate) fn host_device(profile: &Profile, order_queue: &OrderQueue, name: &[u8]) -> u32
    ensures { IsHostCode profile.now.devices name.now result }
{
    if !may_be_hosted(profile.devices(), name) {
        return NO_DEVICE;
    }
    match order_queue.host(name) {
        Ok(()) => OK,
        Err(_) => NO_MEMORY,
    }
}

/// Returns whether the device of a name is served by a peripheral whose line doesn't fail.
fn is_drivable(till_state: &TillState, name: &[u8]) -> bool
    requires { IsTillSound ⟦<Device as Peripheral>⟧ till_state.now }
    ensures { result ≡ is_drivable (served_named name.now (slots_in till_state.now.counter.devices)) }
{
    match till_state.counter.served(name) {
        Some(device) => device.is_steady(),
        None => false,
    }
}

/// Makes the orders of the device of a name wait for the host from now on, and returns OK.
///
/// # Errors
///
/// NO_DEVICE if there is no device of the name, or it is vacant, or the line of what serves it fails. Then nothing
/// changes.
#[tactic(auto, using(crate::proofs::HostsLemmas::drivable_is_served))]
pub(crate) fn drive_device(till_state: &mut TillState, name: &[u8]) -> u32
    requires { IsTillSound ⟦<Device as Peripheral>⟧ till_state.old }
    ensures drives { Drives ⟦<Device as Awaits>⟧.course ⟦<Device as Peripheral>⟧ till_state.old name.now result
        till_state.new }
    ensures sound { IsTillSound ⟦<Device as Peripheral>⟧ till_state.new }
{
    if !is_drivable(till_state, name) {
        return NO_DEVICE;
    }
    if !till_state.counter.drive(name) {
        return NO_DEVICE;
    }
    till_state.is_driven = true;
    OK
}

/// Takes the orders that devices have kept, if none is left of those that were taken before.
fn refill(orders: &mut VecDeque<Vec<u8>>, order_queue: &OrderQueue)
    ensures { Refills (order_lines orders.old.items) (order_lines orders.new.items) }
{
    if orders.front().is_none() {
        order_queue.exchange(orders);
    }
}

/// Writes the order of a driven device that waits and that the host doesn't have yet, and gives it to the host. It
/// returns ORDER, or OK if there is none. `needed` says how many bytes the line has, 0 if there is none.
///
/// # Errors
///
/// SHORT if `text` has less room, and NO_MEMORY if memory ran out for the line. Then the host doesn't have the order.
fn give_driven(
    till_state: &mut TillState,
    alloc: Global,
    text: &mut [u8],
    needed: &mut usize,
) -> u32
    requires { IsTillSound ⟦<Device as Peripheral>⟧ till_state.old }
    ensures gives { GivesDriven ⟦<Device as Awaits>⟧.course ⟦<Device as Peripheral>⟧ till_state.old text.old text.new
        needed.old needed.new result till_state.new }
    ensures orders { till_state.new.orders ≡ till_state.old.orders }
    ensures sound { IsTillSound ⟦<Device as Peripheral>⟧ till_state.new }
{
    if till_state.counter.progress() != Progress::Waits {
        *needed = 0;
        return OK;
    }
    let Some((device, order)) = till_state.counter.waiting() else {
        *needed = 0;
        return OK;
    };
    let Ok(line) = order_line(alloc, device, order) else {
        return NO_MEMORY;
    };
    let count = line.len();
    *needed = count;
    if count > text.len() {
        return SHORT;
    }
    text[..count].copy_from_slice(&line);
    till_state.counter.hand_out();
    ORDER
}

/// Writes the oldest order that was taken, or if none is left, of those that devices have kept since. If there is none
/// either, it writes the order of a driven device that waits. It returns what `write_order` does.
///
/// # Errors
///
/// NO_MEMORY if memory ran out for the line of a driven device. Then nothing is written.
fn write_next(
    till_state: &mut TillState,
    order_queue: &OrderQueue,
    text: &mut [u8],
    needed: &mut usize,
) -> u32
    requires { IsTillSound ⟦<Device as Peripheral>⟧ till_state.old }
    ensures hands_out { HandsOut ⟦<Device as Awaits>⟧.course ⟦<Device as Peripheral>⟧ till_state.old text.old text.new
        needed.old needed.new result till_state.new }
    ensures sound { IsTillSound ⟦<Device as Peripheral>⟧ till_state.new }
{
    refill(&mut till_state.orders, order_queue);
    if till_state.is_driven && till_state.orders.is_empty() {
        return give_driven(till_state, order_queue.allocator(), text, needed);
    }
    write_order(&mut till_state.orders, text, needed)
}

/// Writes the next order of the devices that the host has, and removes it. It returns what `write_order` does.
///
/// # Errors
///
/// - ERRANDS if errands are left, and DISK_FAILED if one failed. Then nothing is written.
/// - NO_MEMORY if memory ran out for the line of a driven device. Then nothing is written.
pub(crate) fn next_order(
    till_state: &mut TillState,
    order_queue: &OrderQueue,
    text: &mut [u8],
    needed: &mut usize,
) -> u32
    requires { IsTillSound ⟦<Device as Peripheral>⟧ till_state.old }
    ensures next { NextOrder ⟦<Device as Awaits>⟧.course ⟦<Device as Peripheral>⟧ till_state.old text.old text.new
        needed.old needed.new result till_state.new }
    ensures sound { IsTillSound ⟦<Device as Peripheral>⟧ till_state.new }
{
    match till_state.settlement() {
        Settlement::Owed => ERRANDS,
        Settlement::Failed => DISK_FAILED,
        Settlement::InMemory | Settlement::Settled => write_next(
            till_state,
            order_queue,
            text,
            needed,
        ),
    }
}
