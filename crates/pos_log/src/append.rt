//! How a record gets into the log.
ghost use Rattle.std.specs.Prelude.{◌≡◌, ◌≤◌, ◌+◌, ◌-◌, ◌<◌, ◌^◌, take, length, OnOk, IsErr, IsErrOf, IfErr};
ghost use Rattle.pos_disk.specs.Keeps.{KeepsDisk};
ghost use Rattle.pos_image.specs.DiskCalls.{Keeps};
ghost use Rattle.pos_image.specs.Layout.{log_place, start, layout_of};
ghost use Rattle.pos_image.specs.Spans.{IsInSpan};
ghost use Rattle.pos_image.specs.Images.{IsReady, FailsFor, CountsFaults};
ghost use Rattle.pos_image.specs.declared.fault.ImageFault.TheVariants.{Device};
ghost use Rattle.pos_log.specs.Records.{text_behind_gate};
ghost use Rattle.pos_log.specs.Writing.{PutsBytes, CrashKeepsSpan};

use crate::records::CLOSED;
use pos_disk::Disk;
use pos_image::{ImageFault, Images};

// The bytes of a length.
const LENGTH: usize = 4;

/// Writes what follows the gate of a record at the front of a buffer: the length and the group, and a closed gate for
/// the next record.
pub(crate) fn lay_out_record(buffer: &mut Vec<u8>, group: &[u8])
    requires short { length group.now < 2 ^ 32 }
    requires fits { 5 + length group.now ≤ length buffer.old.items }
    ensures text { take (5 + length group.now) buffer.new.items ≡ text_behind_gate group.now }
    ensures size { length buffer.new.items ≡ length buffer.old.items }
{
    let length = group.len() as u32;
    let (head, rest) = buffer.as_mut_slice().split_at_mut(LENGTH);
    head.copy_from_slice(&length.to_be_bytes());
    let (body, behind) = rest.split_at_mut(group.len());
    body.copy_from_slice(group);
    behind[0] = CLOSED;
}

/// Writes bytes into the log, and then syncs.
///
/// # Errors
///
/// `Device` if the write or the sync failed.
pub(crate) fn write_through<D: Disk>(
    images: &mut Images<D>,
    at: u64,
    bytes: &[u8],
) -> Result<(), ImageFault>
    requires ready { IsReady D.Disk images.old }
    requires inside { IsInSpan (layout_of images.old.slot) at (length bytes.now) }
    ensures ready { OnOk result (IsReady D.Disk images.new) }
    ensures same { images.new ≡ record images.old { disk = images.new.disk } }
    ensures written { D.honest images.old.disk → OnOk result
        (PutsBytes (at - log_place (layout_of images.old.slot)) bytes.now
        (D.state images.old.disk) (D.state images.new.disk)) }
    ensures any_moment { D.honest images.old.disk → CrashKeepsSpan
        images.old (at - log_place (layout_of images.old.slot)) (length bytes.now)
        (D.state images.old.disk) (D.state images.new.disk) }

    // Whatever it answers, nothing but these bytes was written.
    ensures rest { D.honest images.old.disk → Keeps (start images.old.slot + at) (length bytes.now)
        (D.state images.old.disk) (D.state images.new.disk) }
    ensures faults { IsErr result → IsErrOf result Device }
    ensures device { D.honest images.old.disk → IfErr result (FailsFor D.Disk images.old images.new) }
    ensures counts { D.honest images.old.disk
        → CountsFaults (D.state images.old.disk) (D.state images.new.disk) result }
    ensures keeps { KeepsDisk D.Disk images.old.disk images.new.disk }
{
    images.log_write(at, bytes)?;
    images.log_sync()
}
