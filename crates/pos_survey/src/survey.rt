//! What the bytes of a disk hold.
ghost use Rattle.std.specs.Prelude.{IfOk, IfErr};
ghost use Rattle.pos_survey.specs.Damages.{Breaks};
ghost use Rattle.pos_survey.specs.Descriptions.{Describes};

use crate::current_image::{open_images, read_files};
use crate::fault::SurveyFault;
use crate::log::{log_begins, open_log};
use crate::records::apply_texts;
use pos_dir::Directory;
use pos_image::Slot;
use std::alloc::Global;

/// A survey of the bytes of a disk: what they hold.
#[derive(Drop)]
pub struct Survey {
    /// The slot of the current image, which gives the layout.
    pub slot: Slot,
    /// The sequence of the current image.
    pub sequence: u64,
    /// How many records are after it.
    pub records: usize,
    /// How many bytes the longest group has that fits after them, or `None` if not even an empty one fits.
    pub room: Option<u64>,
    /// The files, with the changes of the records.
    pub directory: Directory,
}

impl Survey {
    /// Returns what the bytes of a disk hold: what a recovery of a store would find in them. docs/reference/console.md,
    /// "What a totals file holds".
    ///
    /// # Errors
    ///
    /// - `TooSmall` if there are fewer than 327,680 bytes.
    /// - `Unformatted` if the gates of all four slots are closed.
    /// - `Damaged` if the bytes break a rule, with the place and the rule.
    /// - `NoMemory` if memory ran out.
    pub fn of(alloc: Global, bytes: &[u8]) -> Result<Survey, SurveyFault>
        ensures told { IfOk result (Describes bytes.now) }
        ensures broken { IfErr result (Breaks bytes.now) }
    {
        let images = open_images(alloc, bytes)?;
        let slot = images.slot();
        let sequence = images.sequence();
        let mut directory = read_files(alloc, &images)?;
        let (log, texts) = open_log(alloc, bytes, images)?;
        apply_texts(alloc, &mut directory, &texts, log_begins(slot))?;
        Ok(Survey {
            slot,
            sequence,
            records: texts.len(),
            room: log.room(),
            directory,
        })
    }
}
