//! What is true of all totals.
ghost use Rattle.pos_store.specs.Recoveries.{EndsAt};
ghost use Rattle.pos_totals.specs.Views.{HasItsFiles, LeavesTheirFiles, WhenReady};

use crate::files::see_files;
use crate::totals::Totals;
use pos_disk::Disk;
use pos_store::laws::{ends_behind_its_records, leaves_its_files};

/// Says that a crash at this moment leaves exactly the files of totals that are ready.
pub fn leaves_their_files<D: Disk>(totals: &Totals<D>)
    ensures { D.honest totals.now.disk → LeavesTheirFiles totals.now.totals.layout totals.now.totals.mode
        (D.state totals.now.disk) }
{
    leaves_its_files(&totals.store);
}

/// Says that the tail of totals that are ready is the end of the records of their disk. So a change needs a new image
/// if its group doesn't fit after these.
pub fn ends_behind_their_records<D: Disk>(totals: &Totals<D>)
    ensures { D.honest totals.now.disk → WhenReady totals.now.totals.mode
        (EndsAt totals.now.totals.layout totals.now.totals.tail (D.state totals.now.disk).reading) }
{
    ends_behind_its_records(&totals.store);
}

/// Says that the files of totals that are ready are a directory, and that each has a handle of its own, below the next
/// one.
pub fn are_their_files<D: Disk>(totals: &Totals<D>)
    ensures { HasItsFiles totals.now.totals }
{
    let _ = see_files(&totals.store, &totals.holdings);
}
