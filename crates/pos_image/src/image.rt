//! An image in memory, and which image of a disk is the current one.
ghost use Rattle.std.specs.Prelude.{◌≡◌, ◌≤◌, ◌⊎◌, ℕ, List, IfOk, IfErr, OnOk};
ghost use Rattle.pos_disk.specs.State.{IsAtRest, Watches};
ghost use Rattle.pos_disk.specs.Keeps.{KeepsDisk};
ghost use Rattle.pos_image.specs.Images.{FailsWithCause, CountsFaults, FindsNone, FindsDamage, IsFindFault};
ghost use Rattle.pos_image.specs.Layout.{disk_size, longest, layout_of};
ghost use Rattle.pos_image.specs.Slots.{HeadsAre, FindsSlot};
ghost use Rattle.pos_image.specs.Found.{FindsCurrent};

use crate::fault::ImageFault;
use crate::heads::{Head, Heads, read_body, read_heads};
use crate::slot::Slot;
use pos_disk::Disk;
use std::alloc::Global;

/// An image in memory.
#[derive(Drop)]
pub(crate) struct Image {
    /// The slot that it is in.
    pub slot: Slot,
    /// Its body: at most 16,371 bytes, in layout 2 at most 81,907.
    pub body: Vec<u8>,
    /// Its number, which counts the images of its layout.
    pub sequence: u64,
}

// The slot of the current image, by the heads of both slots of the layout.
fn choose(heads: Heads) -> Result<(Slot, Head), ImageFault>
    ensures found { (bytes : List ℕ) → HeadsAre bytes heads → IfOk result (FindsSlot bytes) }
    ensures unformatted { (bytes : List ℕ) → HeadsAre bytes heads → IfErr result (FindsNone bytes) }
    ensures damaged { (bytes : List ℕ) → HeadsAre bytes heads → IfErr result (FindsDamage bytes) }
    ensures fits { IfOk result (λ found. found.1.length ≤ longest (layout_of found.0)) }
    ensures faults { IfErr result (λ e. (e ≡ ImageFault.Unformatted) ⊎ (e ≡ ImageFault.Damaged)) }
{
    let Heads {
        layout,
        first,
        second,
    } = heads;
    let slot = layout.first();
    let (slot, head) = match (first.gate, second.gate) {
        (false, false) => return Err(ImageFault::Unformatted),
        (true, false) => (slot, first),
        (false, true) => (slot.other(), second),
        (true, true) if second.sequence < first.sequence => (slot, first),
        (true, true) if first.sequence < second.sequence => (slot.other(), second),
        (true, true) => return Err(ImageFault::Damaged),
    };
    if head.length > slot.layout().longest() {
        return Err(ImageFault::Damaged);
    }
    Ok((slot, head))
}

/// Finds the current image, and returns it. It begins with a sync, so every later crash leaves what it found.
///
/// # Errors
///
/// - `Unformatted` if the gates of all four slots are closed.
/// - `Damaged` if both slots of the layout are open with the same sequence, or the current length is too large.
/// - `Device` if the disk failed, and `NoMemory` if memory ran out.
pub(crate) fn find<D: Disk>(alloc: Global, disk: &mut D) -> Result<Image, ImageFault>
    requires large { disk_size ≤ D.size disk.old }
    ensures keeps { KeepsDisk D.Disk disk.old disk.new }
    ensures watches { D.honest disk.old → Watches (D.state disk.old) (D.state disk.new) }
    ensures at_rest { D.honest disk.old → OnOk result (IsAtRest (D.state disk.new)) }
    ensures found { D.honest disk.old → IfOk result (FindsCurrent (D.state disk.old).reading) }
    ensures unformatted { D.honest disk.old → IfErr result (FindsNone (D.state disk.old).reading) }
    ensures damaged { D.honest disk.old → IfErr result (FindsDamage (D.state disk.old).reading) }
    ensures device { D.honest disk.old → IfErr result (FailsWithCause (D.state disk.old) (D.state disk.new)) }
    ensures counts { D.honest disk.old → CountsFaults (D.state disk.old) (D.state disk.new) result }
    ensures faults { IfErr result IsFindFault }
{
    disk.sync()?;
    let heads = read_heads(disk)?;
    let (slot, head) = choose(heads)?;
    let body = read_body(alloc, disk, slot, head.length)?;
    Ok(Image {
        slot,
        body,
        sequence: head.sequence,
    })
}
