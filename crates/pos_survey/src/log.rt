//! The records after the current image, or where they break.
ghost use Rattle.std.specs.Prelude.{◌≡◌, ◌<◌, ◌≤◌, map, length, IfOk, IfErr};
ghost use Rattle.pos_image.specs.Images.{IsReady};
ghost use Rattle.pos_image.specs.Layout.{disk_size, layout_of};
ghost use Rattle.pos_image.specs.Slots.{IsCurrent};
ghost use Rattle.pos_image.specs.Standing.{log_in, log_of};
ghost use Rattle.pos_log.specs.Records.{HoldsRecords, HoldsSome, BreaksAt, tail_of};
ghost use Rattle.pos_survey.specs.Damages.{HasLongIn, log_begins};

use crate::fault::{Rule, SurveyFault};
use pos_disk::{Disk, MemDisk};
use pos_image::{Images, Slot};
use pos_log::{Log, LogFault, find_damage};
use std::alloc::Global;

/// Returns where the log of a slot begins on the disk, in bytes.
pub(crate) fn log_begins(slot: Slot) -> u64
    ensures { result ≡ log_begins slot }
{
    slot.start() + slot.layout().log()
}

// Returns the record of the log in this slot that doesn't fit.
fn damage_of(bytes: &[u8], slot: Slot) -> SurveyFault
    requires whole { disk_size ≤ length bytes.now }
    requires damaged { ¬ (HoldsSome (log_in bytes.now slot)) }
    ensures { HasLongIn (log_in bytes.now slot) slot result }
{
    let first = log_begins(slot);
    let span = &bytes[first as usize..first as usize + slot.layout().log_size()];
    match find_damage(span) {
        Some(at) => SurveyFault::Damaged(first + at as u64, Rule::LongRecord),
        None => unreachable!(),
    }
}

/// Opens the log after the current image of a disk with these bytes, and returns it with the texts of its records.
///
/// # Errors
///
/// `Damaged` with `LongRecord` if a record doesn't fit, and `NoMemory` if memory ran out.
pub(crate) fn open_log(
    alloc: Global,
    bytes: &[u8],
    images: Images<MemDisk>,
) -> Result<(Log<MemDisk>, Vec<Vec<u8>>), SurveyFault>
    requires ready { IsReady ⟦<MemDisk as Disk>⟧ images }
    requires bytes { images.disk.present.reading ≡ bytes.now }
    requires current { IsCurrent bytes.now images.slot images.body images.sequence }
    ensures records { IfOk result (λ r. HoldsRecords (map (λ t. t.items) r.1.items) (log_of bytes.now)) }
    ensures slot { IfOk result (λ r. r.0.images.slot ≡ images.slot) }
    ensures tail { IfOk result (λ r. r.0.tail ≡ tail_of (layout_of images.slot) (map (λ t. t.items) r.1.items)) }
    ensures broken { IfErr result (HasLongIn (log_of bytes.now) images.slot) }
{
    let slot = images.slot();
    match Log::open(alloc, images) {
        Ok((log, texts)) => Ok((log, texts)),
        Err((fault, _)) => match fault {
            LogFault::Damaged => Err(damage_of(bytes, slot)),
            LogFault::NoMemory => Err(SurveyFault::NoMemory),
            _ => unreachable!(),
        },
    }
}
