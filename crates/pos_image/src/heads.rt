//! The fields of a slot, as they are on a disk.
ghost use Rattle.std.specs.Prelude.{◌≡◌, ◌≤◌, ◌+◌, ◌⊎◌, length, IfOk, IfErr};
ghost use Rattle.pos_disk.specs.State.{HasCause, Watches, part};
ghost use Rattle.pos_disk.specs.Keeps.{KeepsDisk};
ghost use Rattle.pos_image.specs.Images.{FailsWithCause, CountsFaults};
ghost use Rattle.pos_image.specs.Layout.{disk_size, longest, layout_of, is_open, sequence_at, length_at};
ghost use Rattle.pos_image.specs.Slots.{HasHead, HeadsAre, body_in};
ghost use Rattle.pos_image.specs.declared.fault.ImageFault.TheVariants.{Device, NoMemory};

use crate::fault::ImageFault;
use crate::layout::{BODY, FOURTH, LENGTH, Layout, OPEN, SECOND, SEQUENCE, THIRD};
use crate::slot::Slot;
use pos_disk::{Disk, DiskFault};
use std::alloc::Global;

/// What is before a body in a slot.
#[derive(Clone, Copy)]
pub struct Head {
    /// Whether the gate is open.
    pub gate: bool,
    /// The sequence of the image.
    pub sequence: u64,
    /// How many bytes the body has.
    pub length: u32,
}

/// The layout of a disk, and the heads of its two slots.
#[derive(Clone, Copy)]
pub struct Heads {
    /// The layout: 2 if a gate of layout 2 is open, otherwise 1.
    pub layout: Layout,
    /// The head of the layout's first slot.
    pub first: Head,
    /// The head of the layout's second slot.
    pub second: Head,
}

// Reads as many bytes as the array has.
fn read_bytes<D: Disk, const N: usize>(disk: &mut D, at: u64) -> Result<[u8; N], DiskFault>
    requires { at + N ≤ D.size disk.old }
    ensures keeps { KeepsDisk D.Disk disk.old disk.new }
    ensures bytes { D.honest disk.old → IfOk result (λ bytes. bytes ≡ part at N (D.state disk.old).reading) }
    ensures watches { D.honest disk.old → Watches (D.state disk.old) (D.state disk.new) }
    ensures cause { D.honest disk.old → HasCause (D.state disk.old) (D.state disk.new) result }
{
    let mut bytes = [0; N];
    disk.read(at, &mut bytes)?;
    Ok(bytes)
}

/// Returns whether the gate at this place is open.
///
/// # Errors
///
/// [`DiskFault`] if the read failed.
pub(crate) fn read_gate<D: Disk>(disk: &mut D, at: u64) -> Result<bool, DiskFault>
    requires { at + 1 ≤ D.size disk.old }
    ensures keeps { KeepsDisk D.Disk disk.old disk.new }
    ensures gate { D.honest disk.old → IfOk result (λ gate. is_open (D.state disk.old).reading at ≡ gate) }
    ensures watches { D.honest disk.old → Watches (D.state disk.old) (D.state disk.new) }
    ensures cause { D.honest disk.old → HasCause (D.state disk.old) (D.state disk.new) result }
{
    let gate: [u8; 1] = read_bytes(disk, at)?;
    Ok(gate[0] == OPEN)
}

// Returns as many bytes from a place on as the array has.
fn cut<const N: usize>(bytes: &[u8], at: usize) -> [u8; N]
    requires { at + N ≤ length bytes.now }
    ensures { result ≡ part at N bytes.now }
{
    let mut piece = [0; N];
    piece.copy_from_slice(&bytes[at..at + N]);
    piece
}

// Returns the head in the first bytes of a slot.
#[tactic(auto, unfolding(crate::specs::Layout::sequence_at, crate::specs::Layout::length_at))]
fn head_in(bytes: &[u8]) -> Head
    requires { 13 ≤ length bytes.now }
    ensures { HasHead bytes.now 0 result }
{
    Head {
        gate: bytes[0] == OPEN,
        sequence: u64::from_be_bytes(cut(bytes, SEQUENCE as usize)),
        length: u32::from_be_bytes(cut(bytes, LENGTH as usize)),
    }
}

// Reads the head of a slot.
fn read_head<D: Disk>(disk: &mut D, at: u64) -> Result<Head, DiskFault>
    requires { at + 13 ≤ D.size disk.old }
    ensures keeps { KeepsDisk D.Disk disk.old disk.new }
    ensures head { D.honest disk.old → IfOk result (λ head. HasHead (D.state disk.old).reading at head) }
    ensures watches { D.honest disk.old → Watches (D.state disk.old) (D.state disk.new) }
    ensures cause { D.honest disk.old → HasCause (D.state disk.old) (D.state disk.new) result }
{
    let bytes: [u8; 13] = read_bytes(disk, at)?;
    Ok(head_in(&bytes))
}

/// Reads the heads by which the current slot is found. If a gate of layout 2 is open, the slots of layout 1 aren't
/// read.
///
/// # Errors
///
/// [`DiskFault`] if a read failed.
pub fn read_heads<D: Disk>(disk: &mut D) -> Result<Heads, DiskFault>
    requires large { disk_size ≤ D.size disk.old }
    ensures keeps { KeepsDisk D.Disk disk.old disk.new }
    ensures heads { D.honest disk.old → IfOk result (HeadsAre (D.state disk.old).reading) }
    ensures watches { D.honest disk.old → Watches (D.state disk.old) (D.state disk.new) }
    ensures cause { D.honest disk.old → HasCause (D.state disk.old) (D.state disk.new) result }
{
    let third = read_head(disk, THIRD)?;
    let fourth = read_head(disk, FOURTH)?;
    if third.gate || fourth.gate {
        return Ok(Heads {
            layout: Layout::Layout2,
            first: third,
            second: fourth,
        });
    }
    let first = read_head(disk, 0)?;
    let second = read_head(disk, SECOND)?;
    Ok(Heads {
        layout: Layout::Layout1,
        first,
        second,
    })
}

/// Reads the body in a slot.
///
/// # Errors
///
/// `NoMemory` if memory ran out, and `Device` if the read failed.
pub(crate) fn read_body<D: Disk>(
    alloc: Global,
    disk: &mut D,
    slot: Slot,
    length: u32,
) -> Result<Vec<u8>, ImageFault>
    requires large { disk_size ≤ D.size disk.old }
    requires short { length ≤ longest (layout_of slot) }
    ensures keeps { KeepsDisk D.Disk disk.old disk.new }
    ensures body { D.honest disk.old → IfOk result (λ it. it.items ≡ body_in slot length (D.state disk.old)) }
    ensures watches { D.honest disk.old → Watches (D.state disk.old) (D.state disk.new) }
    ensures device { D.honest disk.old → IfErr result (FailsWithCause (D.state disk.old) (D.state disk.new)) }
    ensures counts { D.honest disk.old → CountsFaults (D.state disk.old) (D.state disk.new) result }
    ensures faults { IfErr result (λ e. (e ≡ Device) ⊎ (e ≡ NoMemory)) }
{
    let mut body = vec![in alloc; 0; length as usize]?;
    disk.read(slot.start() + BODY, body.as_mut_slice())?;
    Ok(body)
}
