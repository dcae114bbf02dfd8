//! A new image in the place of the current one.
ghost use Rattle.std.specs.Prelude.{◌≡◌, ◌⊎◌, length, IfErr};
ghost use Rattle.pos_image.specs.DiskCalls.{KeepsBeside};
ghost use Rattle.pos_image.specs.Layout.{layout_of, other};
ghost use Rattle.pos_image.specs.Images.{IsReady, IsPrepareFault, next_image, migrated_image};
ghost use Rattle.pos_image.specs.declared.layout.Layout.TheVariants.{Layout1};
ghost use Rattle.pos_image.specs.declared.slot.Slot.TheVariants.{Third};
ghost use Rattle.pos_image.specs.declared.fault.ImageFault.TheVariants.{TooLarge, Device};
ghost use Rattle.pos_log.specs.Renewing.{Replaces};

use pos_disk::Disk;
use pos_image::{ImageFault, Images};

/// Prepares the next image, with this body, and publishes it.
///
/// # Errors
///
/// - `TooLarge` if the body has more bytes than the layout allows; otherwise `Exhausted` if the current sequence is the
///   last one. Then nothing has changed.
/// - `Device` if the disk failed.
pub(crate) fn renew_images<D: Disk>(images: &mut Images<D>, body: Vec<u8>) -> Result<(), ImageFault>
    requires { IsReady D.Disk images.old }
    ensures replaces { Replaces D.Disk images.old (next_image images.old body.items) result images.new }
    ensures rest { D.honest images.old.disk → KeepsBeside (other images.old.slot) (length body.items)
        (D.state images.old.disk) (D.state images.new.disk) }
    ensures faults { IfErr result IsPrepareFault }
{
    images.prepare_owned(body)?;
    images.publish()
}

/// Prepares the first image of layout 2, with this body, and publishes it.
///
/// # Errors
///
/// `TooLarge` if the body has more than 81,907 bytes: then nothing has changed. `Device` if the disk failed.
pub(crate) fn migrate_images<D: Disk>(
    images: &mut Images<D>,
    body: Vec<u8>,
) -> Result<(), ImageFault>
    requires ready { IsReady D.Disk images.old }
    requires layout { layout_of images.old.slot ≡ Layout1 }
    ensures replaces { Replaces D.Disk images.old (migrated_image body.items) result images.new }
    ensures rest { D.honest images.old.disk → KeepsBeside Third (length body.items)
        (D.state images.old.disk) (D.state images.new.disk) }
    ensures faults { IfErr result (λ e. (e ≡ TooLarge) ⊎ (e ≡ Device)) }
{
    images.prepare_layout2(body)?;
    images.publish()
}
