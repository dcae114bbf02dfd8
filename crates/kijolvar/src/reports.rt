//! What a till's host reports of an order.
ghost use Rattle.kijolvar.specs.Reports.{AnswersReport};

use crate::codes::{DISK_FAILED, UNDONE};
use crate::device::Device;
use crate::session::Session;
use crate::till_disk::{Settlement, TillDisk};
use pos_disk::Disk;
use pos_drive::Awaits;
use pos_service::Peripheral;

/// Takes the host's report of an order and writes the answer of the lines that it lets go on, if no errand is left and
/// none failed.
pub(crate) fn report(
    session: &mut Session,
    outcome: u32,
    inputs: &[u8],
    text: &mut [u8],
    needed: &mut usize,
) -> u32
    ensures { AnswersReport ⟦<TillDisk as Disk>⟧ ⟦<Device as Awaits>⟧.course ⟦<Device as Peripheral>⟧ session.old
        outcome inputs.now text.old text.new needed.old needed.new result session.new }
{
    match session.settlement() {
        Settlement::Owed => UNDONE,
        Settlement::Failed => DISK_FAILED,
        Settlement::InMemory | Settlement::Settled => {
            let taken = session.take_report(outcome, inputs);
            session.answer(taken, text, needed)
        }
    }
}
