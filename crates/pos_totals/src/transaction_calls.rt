//! The beginning and the end of transactions without a commit.
ghost use Rattle.std.specs.Prelude.{◌≡◌};
ghost use Rattle.pos_totals.specs.TotalsClaims.{foreign_area, without_control};
ghost use Rattle.pos_totals.specs.TotalsArrangements.{Arranges, BeginTrans, Rollback};
ghost use Rattle.pos_totals.specs.Views.{IsSound, totals_of};

use crate::handles::ClaimScope;
use crate::totals::Holdings;
use crate::transactions::Buffer;
use pos_disk::Disk;
use pos_service::claims::is_own;
use pos_service::{Answer, Code, Value};
use pos_store::{Mode, Store};
use std::alloc::Global;

/// Begins a transaction of a control, if its table allows it, and returns the answer.
pub(crate) fn begin_trans<D: Disk>(
    alloc: Global,
    store: &Store<D>,
    holdings: &mut Holdings,
    control: usize,
) -> Answer
    requires sound { IsSound store.now.layout store.now.state holdings.old }
    ensures sound { IsSound store.now.layout store.now.state holdings.new }
    ensures arranges { Arranges (totals_of store.now holdings.old) control BeginTrans result
        (totals_of store.now holdings.new) }
{
    if store.mode() == Mode::Off {
        return Answer::Refused(Code::Failure, 0);
    }
    if !holdings.transactions.may_begin(control) {
        return Answer::Refused(Code::Illegal, 0);
    }
    holdings.transactions.set(control, Some(Buffer::new(alloc)));
    Answer::Done(Value::Empty)
}

/// Drops a control's transaction, if its table allows it, and returns the answer.
pub(crate) fn rollback<D: Disk>(store: &Store<D>, holdings: &mut Holdings, control: usize) -> Answer
    requires sound { IsSound store.now.layout store.now.state holdings.old }
    ensures sound { IsSound store.now.layout store.now.state holdings.new }
    ensures arranges { Arranges (totals_of store.now holdings.old) control Rollback result
        (totals_of store.now holdings.new) }
{
    if store.mode() == Mode::Off {
        return Answer::Refused(Code::Failure, 0);
    }
    if !holdings.transactions.is_open(control) {
        return Answer::Refused(Code::Illegal, 0);
    }
    holdings.transactions.set(control, None);
    Answer::Done(Value::Empty)
}

/// Ends all claims of a control and drops its transaction.
pub(crate) fn drop_control<D: Disk>(store: &Store<D>, holdings: &mut Holdings, control: usize)
    requires sound { IsSound store.now.layout store.now.state holdings.old }
    ensures sound { IsSound store.now.layout store.now.state holdings.new }
    ensures totals { totals_of store.now holdings.new
        ≡ without_control (totals_of store.now holdings.old) control }
{
    holdings.handles.reclaim(ClaimScope::Control(control), None);
    holdings.area = keep_foreign(holdings.area, control);
    holdings.transactions.set(control, None);
}

// Returns a claim if another control has made it, else `None`.
fn keep_foreign(claim: Option<usize>, control: usize) -> Option<usize>
    ensures { result ≡ foreign_area control claim }
{
    if is_own(control, claim) {
        return None;
    }
    claim
}
