//! The few disk calls of which each change of the images is made.
ghost use Rattle.std.specs.Prelude.{◌≡◌, ◌≤◌, ◌<◌, ◌+◌, ◌^◌, ◌++◌, ℕ, length, OnOk, false};
ghost use Rattle.byteorder.specs.Endian.{big_bytes};
ghost use Rattle.pos_disk.specs.State.{IsAtRest, HasCause};
ghost use Rattle.pos_disk.specs.Keeps.{KeepsDisk};
ghost use Rattle.pos_image.specs.Layout.{disk_size, longest, is_open, start, layout_of};
ghost use Rattle.pos_image.specs.DiskCalls.{IsWritten, Keeps, CrashKeeps, ClosesGate, CrashClosing, KeepsGate, CrashKeepsGate};
ghost use Rattle.pos_image.specs.DiskCalls.{HasNoLog, KeepsBeside, Stages, CrashStages};
ghost use Rattle.pos_image.specs.Slots.{HasFields};

use crate::heads::read_gate;
use crate::image::Image;
use crate::layout::{BODY, CLOSED, SEQUENCE};
use byteorder::{BigEndian, ByteOrder};
use pos_disk::{Disk, DiskFault};

/// Writes bytes at a place, and then syncs.
///
/// # Errors
///
/// [`DiskFault`] if the write or the sync failed.
pub(crate) fn write_through<D: Disk>(disk: &mut D, at: u64, bytes: &[u8]) -> Result<(), DiskFault>
    requires fits { at + length bytes.now ≤ D.size disk.old }
    ensures keeps { KeepsDisk D.Disk disk.old disk.new }
    ensures at_rest { D.honest disk.old → OnOk result (IsAtRest (D.state disk.new)) }
    ensures written { D.honest disk.old → OnOk result (IsWritten at bytes.now (D.state disk.old) (D.state disk.new)) }
    ensures same { D.honest disk.old → Keeps at (length bytes.now) (D.state disk.old) (D.state disk.new) }
    ensures any_moment { D.honest disk.old → CrashKeeps at (length bytes.now) (D.state disk.old) (D.state disk.new) }
    ensures cause { D.honest disk.old → HasCause (D.state disk.old) (D.state disk.new) result }
{
    disk.write(at, bytes)?;
    disk.sync()
}

/// Closes a gate and syncs. A gate that reads closed isn't written.
///
/// # Errors
///
/// [`DiskFault`] if a call of the disk failed.
pub(crate) fn close_gate<D: Disk>(disk: &mut D, at: u64) -> Result<(), DiskFault>
    requires fits { at + 1 ≤ D.size disk.old }
    ensures keeps { KeepsDisk D.Disk disk.old disk.new }
    ensures loose { D.honest disk.old
        → OnOk result ((i : ℕ) → (D.state disk.new).loose i → (D.state disk.old).loose i) }
    ensures closed { D.honest disk.old → OnOk result (is_open (D.state disk.new).reading at ≡ false) }
    ensures gate { D.honest disk.old → OnOk result (ClosesGate at (D.state disk.old) (D.state disk.new)) }
    ensures same { D.honest disk.old → Keeps at 1 (D.state disk.old) (D.state disk.new) }
    ensures any_moment { D.honest disk.old → CrashClosing at (D.state disk.old) (D.state disk.new) }
    ensures cause { D.honest disk.old → HasCause (D.state disk.old) (D.state disk.new) result }
{
    if !read_gate(disk, at)? {
        return Ok(());
    }
    write_through(disk, at, &[CLOSED])
}

// The fields of a slot between its gate and its body: sequence and length.
fn head_of(sequence: u64, length: u32) -> [u8; 12]
    ensures bytes { result ≡ big_bytes 8 sequence ++ big_bytes 4 length }
    ensures counted { sequence < 2 ^ 64 }
{
    let mut head = [0; 12];
    BigEndian::write_u64(&mut head, sequence);
    BigEndian::write_u32(&mut head[8..], length);
    head
}

/// Writes an image after the gate of its slot, and an empty log, and then syncs.
///
/// # Errors
///
/// [`DiskFault`] if a write or the sync failed.
pub(crate) fn write_image<D: Disk>(disk: &mut D, image: &Image) -> Result<(), DiskFault>
    requires large { disk_size ≤ D.size disk.old }
    requires short { length image.now.body.items ≤ longest (layout_of image.now.slot) }
    ensures keeps { KeepsDisk D.Disk disk.old disk.new }
    ensures at_rest { D.honest disk.old → OnOk result (IsAtRest (D.state disk.new)) }
    ensures written { D.honest disk.old
        → OnOk result (HasFields (D.state disk.new).reading (start image.now.slot) image.now.sequence
        image.now.body.items) }
    ensures no_log { D.honest disk.old → OnOk result (HasNoLog image.now.slot (D.state disk.new)) }
    ensures rest { D.honest disk.old
        → KeepsBeside image.now.slot (length image.now.body.items) (D.state disk.old) (D.state disk.new) }
    ensures same { D.honest disk.old → OnOk result (KeepsGate image.now.slot (D.state disk.old) (D.state disk.new)) }
    ensures any_moment { D.honest disk.old → CrashKeepsGate image.now.slot (D.state disk.old) (D.state disk.new) }
    ensures cause { D.honest disk.old → HasCause (D.state disk.old) (D.state disk.new) result }
{
    let at = image.slot.start();
    disk.write(
        at + SEQUENCE,
        &head_of(image.sequence, image.body.len() as u32),
    )?;
    disk.write(at + BODY, &image.body)?;
    disk.write(at + image.slot.layout().log(), &[CLOSED])?;
    disk.sync()
}

/// Closes the gate of an image's slot, and writes the image after it.
///
/// # Errors
///
/// [`DiskFault`] if a call of the disk failed.
pub(crate) fn place_image<D: Disk>(disk: &mut D, image: &Image) -> Result<(), DiskFault>
    requires large { disk_size ≤ D.size disk.old }
    requires short { length image.now.body.items ≤ longest (layout_of image.now.slot) }
    requires gate { D.honest disk.old → ¬ ((D.state disk.old).loose (start image.now.slot)) }
    ensures keeps { KeepsDisk D.Disk disk.old disk.new }
    ensures at_rest { D.honest disk.old → OnOk result (IsAtRest (D.state disk.new)) }
    ensures closed { D.honest disk.old
        → OnOk result (is_open (D.state disk.new).reading (start image.now.slot) ≡ false) }
    ensures written { D.honest disk.old
        → OnOk result (HasFields (D.state disk.new).reading (start image.now.slot) image.now.sequence
        image.now.body.items) }
    ensures no_log { D.honest disk.old → OnOk result (HasNoLog image.now.slot (D.state disk.new)) }
    ensures rest { D.honest disk.old
        → KeepsBeside image.now.slot (length image.now.body.items) (D.state disk.old) (D.state disk.new) }
    ensures gate { D.honest disk.old
        → OnOk result (ClosesGate (start image.now.slot) (D.state disk.old) (D.state disk.new)) }
    ensures same { D.honest disk.old
        → OnOk result (Stages image.now.slot (D.state disk.old).reading (D.state disk.new).reading) }
    ensures any_moment { D.honest disk.old → CrashStages image.now.slot (D.state disk.old) (D.state disk.new) }
    ensures cause { D.honest disk.old → HasCause (D.state disk.old) (D.state disk.new) result }
{
    close_gate(disk, image.slot.start())?;
    write_image(disk, image)
}
