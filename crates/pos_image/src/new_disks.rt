//! A new disk, also in memory.
ghost use Rattle.std.specs.Prelude.{◌≡◌, ◌≤◌, IfOk, OnOk};
ghost use Rattle.pos_disk.specs.State.{IsAtRest, HasCause, Watches};
ghost use Rattle.pos_disk.specs.Keeps.{KeepsDisk};
ghost use Rattle.pos_image.specs.Layout.{disk_size};
ghost use Rattle.pos_image.specs.NewDisk.{AllAreZero, KeepsRest};
ghost use Rattle.pos_image.specs.Standing.{IsNewDisk, is_marked, HasNoFiles};
ghost use Rattle.pos_disk.specs.Memory.{state_of};

use crate::disk_calls::write_through;
use crate::heads::read_gate;
use crate::images::Images;
use crate::layout::{CLOSED, FOURTH, LOG, OPEN, SECOND, SEQUENCE, SIZE, THIRD};
use pos_disk::{Disk, DiskFault, MemDisk};
use std::alloc::{AllocError, Global};

// The gates of both slots of layout 1 and of their logs, and those of the slots of layout 2.
const GATES: [u64; 6] = [0, LOG, SECOND, SECOND + LOG, THIRD, FOURTH];

// Sequence 1, length 2, and the body of no files.
const FIRST_IMAGE: [u8; 14] = [0, 0, 0, 0, 0, 0, 0, 1, 0, 0, 0, 2, 0, 0];

/// Returns whether the gate of a slot, of either layout, reads as open.
///
/// # Errors
///
/// [`DiskFault`] if a read failed.
pub(crate) fn is_marked<D: Disk>(disk: &mut D) -> Result<bool, DiskFault>
    requires large { disk_size ≤ D.size disk.old }
    ensures keeps { KeepsDisk D.Disk disk.old disk.new }
    ensures marked { D.honest disk.old → IfOk result (λ marked. is_marked (D.state disk.old).reading ≡ marked) }
    ensures watches { D.honest disk.old → Watches (D.state disk.old) (D.state disk.new) }
    ensures cause { D.honest disk.old → HasCause (D.state disk.old) (D.state disk.new) result }
{
    let first = read_gate(disk, 0)?;
    let second = read_gate(disk, SECOND)?;
    let third = read_gate(disk, THIRD)?;
    let fourth = read_gate(disk, FOURTH)?;
    Ok(first || second || third || fourth)
}

// Closes every gate.
fn close_gates<D: Disk>(disk: &mut D) -> Result<(), DiskFault>
    requires large { disk_size ≤ D.size disk.old }
    ensures keeps { KeepsDisk D.Disk disk.old disk.new }
    ensures at_rest { D.honest disk.old → OnOk result (IsAtRest (D.state disk.new)) }
    ensures closed { D.honest disk.old → OnOk result (AllAreZero GATES (D.state disk.new)) }
    ensures rest { D.honest disk.old → KeepsRest (D.state disk.old).reading (D.state disk.new).reading }
    ensures cause { D.honest disk.old → HasCause (D.state disk.old) (D.state disk.new) result }
{
    for at in &GATES {
        disk.write(*at, &[CLOSED])?;
    }
    disk.sync()
}

/// Writes a disk of layout 1 whose first slot has the body of no files and sequence 1. The other slots and both logs
/// are closed.
///
/// # Errors
///
/// [`DiskFault`] if a write or a sync failed.
pub(crate) fn lay_out<D: Disk>(disk: &mut D) -> Result<(), DiskFault>
    requires large { disk_size ≤ D.size disk.old }
    ensures keeps { KeepsDisk D.Disk disk.old disk.new }
    ensures at_rest { D.honest disk.old → OnOk result (IsAtRest (D.state disk.new)) }
    ensures new { D.honest disk.old → OnOk result (IsNewDisk (D.state disk.new).reading) }
    ensures rest { D.honest disk.old → KeepsRest (D.state disk.old).reading (D.state disk.new).reading }
    ensures cause { D.honest disk.old → HasCause (D.state disk.old) (D.state disk.new) result }
{
    close_gates(disk)?;
    write_through(disk, SEQUENCE, &FIRST_IMAGE)?;
    write_through(disk, 0, &[OPEN])
}

/// Returns a disk in memory that was formatted.
///
/// # Errors
///
/// [`AllocError`] if memory ran out. There is no other refusal, since such a disk never fails.
pub fn new_disk(alloc: Global) -> Result<MemDisk, AllocError>
    ensures { IfOk result (λ disk. HasNoFiles (state_of disk)) }
{
    let bytes = vec![in alloc; 0; SIZE as usize]?;
    match Images::format(MemDisk::new(alloc, bytes)?) {
        Ok(disk) => Ok(disk),
        Err(_) => Err(AllocError),
    }
}
