//! The current image of the bytes of a disk, or why there is none.
ghost use Rattle.std.specs.Prelude.{◌≡◌, ◌≤◌, IfOk, IfErr, length};
ghost use Rattle.pos_image.specs.Images.{IsReady};
ghost use Rattle.pos_image.specs.Layout.{disk_size, layout_of};
ghost use Rattle.pos_image.specs.Slots.{IsCurrent};
ghost use Rattle.pos_image.specs.Standing.{image_on, DamagedImage};
ghost use Rattle.pos_dir.specs.Calls.{Decodes};
ghost use Rattle.pos_dir.specs.Files.{IsDirectory};
ghost use Rattle.pos_dir.specs.Spelling.{spelling};
ghost use Rattle.pos_store.specs.Layouts.{limits_of};
ghost use Rattle.pos_survey.specs.Damages.{Breaks, HasNoFilesIn};

use crate::fault::{Rule, SurveyFault};
use crate::image::damage_of;
use pos_dir::{Directory, DirectoryFault, decode, find_flaw};
use pos_disk::{Disk, MemDisk};
use pos_image::{BODY, ImageFault, Images, read_heads};
use pos_store::limits_of;
use std::alloc::Global;

// The rule that a damaged image breaks.
fn find_damage(mut disk: MemDisk) -> SurveyFault
    requires large { disk_size ≤ length disk.present.reading }
    requires damaged { image_on disk.present.reading ≡ DamagedImage }
    ensures { Breaks disk.present.reading result }
{
    let Ok(heads) = read_heads(&mut disk) else {
        unreachable!();
    };
    damage_of(heads)
}

/// Opens a disk with these bytes.
///
/// # Errors
///
/// - `TooSmall` if there are fewer than 327,680 bytes.
/// - `Unformatted` if the gates of all four slots are closed.
/// - `Damaged` if the image breaks a rule, with the place and the rule.
/// - `NoMemory` if memory ran out.
pub(crate) fn open_images(alloc: Global, bytes: &[u8]) -> Result<Images<MemDisk>, SurveyFault>
    ensures ready { IfOk result (IsReady ⟦<MemDisk as Disk>⟧) }
    ensures bytes { IfOk result (λ it. it.disk.present.reading ≡ bytes.now) }
    ensures current { IfOk result (λ it. IsCurrent bytes.now it.slot it.body it.sequence) }
    ensures broken { IfErr result (Breaks bytes.now) }
{
    let disk = MemDisk::new(alloc, Vec::from_slice(alloc, bytes)?)?;
    match Images::open(alloc, disk) {
        Ok(images) => Ok(images),
        Err((fault, disk)) => match fault {
            ImageFault::TooSmall => Err(SurveyFault::TooSmall),
            ImageFault::Unformatted => Err(SurveyFault::Unformatted),
            ImageFault::Damaged => Err(find_damage(disk)),
            ImageFault::NoMemory => Err(SurveyFault::NoMemory),
            _ => unreachable!(),
        },
    }
}

/// Returns the files that the body of the current image spells.
///
/// # Errors
///
/// `Damaged` with `NoFiles` if it spells none, and `NoMemory` if memory ran out.
pub(crate) fn read_files(alloc: Global, images: &Images<MemDisk>) -> Result<Directory, SurveyFault>
    requires { IsReady ⟦<MemDisk as Disk>⟧ images.now }
    ensures limits { IfOk result (λ it. it.limits ≡ limits_of (layout_of images.now.slot)) }
    ensures directory { IfOk result (λ it. IsDirectory (limits_of (layout_of images.now.slot)) it.files) }
    ensures spelled { IfOk result (λ it. images.now.body ≡ spelling it.files) }
    ensures broken { IfErr result (HasNoFilesIn images.now.body images.now.slot) }
{
    match decode(alloc, images.body(), limits_of(images.layout())) {
        Ok(directory) => Ok(directory),
        Err(DirectoryFault::Malformed) => {
            let (place, flaw) = find_flaw(images.body(), limits_of(images.layout()));
            let at = images.slot().start() + BODY + place as u64;
            Err(SurveyFault::Damaged(at, Rule::NoFiles(flaw)))
        }
        Err(_) => Err(SurveyFault::NoMemory),
    }
}
