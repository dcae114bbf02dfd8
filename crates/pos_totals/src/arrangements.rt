//! Arrangements: what a control arranges for itself, without the disk.
ghost use Rattle.std.specs.Prelude.{◌≡◌};
ghost use Rattle.std.specs.Option.{option_map};
ghost use Rattle.pos_totals.specs.TotalsArrangements.{Arranges, arrangement_asked, arrangement_of};
ghost use Rattle.pos_totals.specs.Views.{IsSound, totals_of};

use crate::claims::{ClaimRequest, claim_file};
use crate::totals::Holdings;
use crate::transaction_calls::{begin_trans, rollback};
use pos_disk::Disk;
use pos_service::{Answer, Call};
use pos_store::Store;
use std::alloc::Global;

/// What a control arranges for itself, as a call asks for it. It takes no memory, and doesn't use the disk.
#[derive(Clone, Copy)]
pub enum Arrangement {
    /// `claimFile`: claims a file for a control. If the control has it already, nothing changes. The timeout is in
    /// milliseconds, -1 for no end, and nothing is waited for.
    ///
    /// Refused with:
    ///
    /// - E_ILLEGAL if no file has the handle, or the timeout is below -1.
    /// - E_TIMEOUT if another control has claimed the area or the file.
    ClaimFile { handle: i128, timeout: i128 },
    /// `releaseFile`: ends a control's claim of a file.
    ///
    /// Refused with E_ILLEGAL if no file has the handle, or the control hasn't claimed it.
    ReleaseFile { handle: i128 },
    /// `beginTrans`: begins a transaction of a control, in which changes of bytes are buffered until it ends.
    /// `add_control` made the control's place for it.
    ///
    /// Refused with E_ILLEGAL if the control is in a transaction, or has no place for one.
    BeginTrans,
    /// `rollback`: drops what a control has buffered, and ends the transaction.
    ///
    /// Refused with E_ILLEGAL if the control is in no transaction.
    Rollback,
}

impl Arrangement {
    /// Returns the arrangement that a call makes, or `None` if it makes none.
    pub(crate) fn of(call: &Call) -> Option<Arrangement>
        ensures { option_map arrangement_of result ≡ arrangement_asked call.now }
    {
        match call {
            Call::ClaimFile(handle, timeout) => Some(Arrangement::ClaimFile {
                handle: *handle,
                timeout: *timeout,
            }),
            Call::ReleaseFile(handle) => Some(Arrangement::ReleaseFile { handle: *handle }),
            Call::BeginTrans => Some(Arrangement::BeginTrans),
            Call::Rollback => Some(Arrangement::Rollback),
            _ => None,
        }
    }
}

/// Makes an arrangement if its table allows it, and returns its answer.
pub(crate) fn arrange<D: Disk>(
    alloc: Global,
    store: &Store<D>,
    holdings: &mut Holdings,
    control: usize,
    arrangement: Arrangement,
) -> Answer
    requires sound { IsSound store.now.layout store.now.state holdings.old }
    ensures sound { IsSound store.now.layout store.now.state holdings.new }
    ensures arranges { Arranges (totals_of store.now holdings.old) control (arrangement_of arrangement) result
        (totals_of store.now holdings.new) }
{
    match arrangement {
        Arrangement::ClaimFile { handle, timeout } => {
            claim_file(
                store,
                holdings,
                control,
                handle,
                ClaimRequest::Claim { timeout },
            )
        }
        Arrangement::ReleaseFile { handle } => {
            claim_file(store, holdings, control, handle, ClaimRequest::Release)
        }
        Arrangement::BeginTrans => begin_trans(alloc, store, holdings, control),
        Arrangement::Rollback => rollback(store, holdings, control),
    }
}
