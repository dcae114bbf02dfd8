//! A change of the files, from its table to the disk.
ghost use Rattle.std.specs.Prelude.{◌≡◌, MatchResult, None, ◌∷◌, []};
ghost use Rattle.pos_dir.specs.Changes.{flaw_of};
ghost use Rattle.pos_store.specs.Commits.{Commits, IsApplicable};
ghost use Rattle.pos_totals.specs.Changes.{Changes};
ghost use Rattle.pos_totals.specs.Buffers.{transactions_after, Buffers, MayBuffer};
ghost use Rattle.pos_totals.specs.Checks.{change_of, answer_of, ChecksAt};
ghost use Rattle.pos_totals.specs.Views.{HasDirectory, IsSound, totals_of, view_of};

use crate::checks::check;
use crate::edits::OwnedEdit;
use crate::files::see_files;
use crate::totals::Holdings;
use crate::transactions::{Buffered, Transactions};
use crate::update::{Caller, CheckedUpdate, TotalsUpdate};
use pos_dir::Change;
use pos_disk::Disk;
use pos_service::claims::is_foreign;
use pos_service::{Answer, Code, NoMemory, Value};
use pos_store::laws::leaves_its_files;
use pos_store::{Store, StoreFault};
use std::alloc::Global;

/// Makes a change if its table allows it, and returns its answer. It finds want of a handle after the table, then want
/// of memory, and then uses the disk.
///
/// # Errors
///
/// [`NoMemory`] if memory ran out. Nothing changes then.
pub(crate) fn change<D: Disk>(
    alloc: Global,
    store: &mut Store<D>,
    holdings: &mut Holdings,
    control: usize,
    update: TotalsUpdate<'_>,
) -> Result<Answer, NoMemory>
    requires sound { IsSound store.old.layout store.old.state holdings.old }
    ensures sound { IsSound store.new.layout store.new.state holdings.new }
    ensures changes { Changes D.Disk (view_of store.old holdings.old) control (change_of update.entry) result
        (view_of store.new holdings.new) }
{
    leaves_its_files(store);
    let checked = match check_update(store, holdings, control, &update) {
        Ok(checked) => checked,
        Err(refusal) => return Ok(refusal),
    };
    if holdings.transactions.is_open(control) {
        return buffer_change(alloc, &mut holdings.transactions, control, &checked);
    }
    if holdings.handles.lack(&checked.change) {
        return Ok(Answer::Refused(Code::Failure, 0));
    }
    match put_change(store, &mut holdings.transactions, &checked.change) {
        Ok(()) => Ok(Answer::Done(holdings.handles.keep(&checked.change))),
        Err(fault) => answer_fault(fault),
    }
}

// Puts a change that is applicable on the disk. A fault of the disk ends all transactions.
fn put_change<D: Disk>(
    store: &mut Store<D>,
    transactions: &mut Transactions,
    change: &Change<'_>,
) -> Result<(), StoreFault>
    requires flawless { flaw_of change.now ≡ None }
    requires applicable { IsApplicable store.old.layout store.old.state (change.now ∷ []) }
    ensures commits { Commits D.Disk store.old (change.now ∷ []) result store.new }
    ensures transactions { MatchResult result (λ done. transactions.new ≡ transactions.old)
        (λ fault. transactions.new ≡ transactions_after fault transactions.old) }
{
    match store.commit_change(change) {
        Ok(()) => Ok(()),
        Err(fault) => {
            end_at(fault, transactions);
            Err(fault)
        }
    }
}

/// Ends all transactions at a fault of the disk.
pub(crate) fn end_at(fault: StoreFault, transactions: &mut Transactions)
    ensures { transactions.new ≡ transactions_after fault transactions.old }
{
    match fault {
        StoreFault::Device => transactions.end_all(),
        _ => {}
    }
}

/// Returns the answer to a call whose group the store refuses.
///
/// # Errors
///
/// [`NoMemory`] if memory ran out in the store.
pub(crate) fn answer_fault(fault: StoreFault) -> Result<Answer, NoMemory>
    ensures { result ≡ answer_of fault }
{
    match fault {
        StoreFault::NoMemory => Err(NoMemory),
        _ => Ok(Answer::Refused(Code::Failure, 0)),
    }
}

// Adds a change to those that a control has buffered.
fn buffer_change(
    alloc: Global,
    transactions: &mut Transactions,
    control: usize,
    checked: &CheckedUpdate<'_>,
) -> Result<Answer, NoMemory>
    requires { MayBuffer transactions.old control checked.now }
    ensures { Buffers transactions.old control checked.now result transactions.new }
{
    let Some(handle) = checked.handle else {
        unreachable!()
    };
    let edit = OwnedEdit::copy(alloc, &checked.change)?;
    transactions.push(control, Buffered::new(handle, edit))?;
    Ok(Answer::Done(Value::Empty))
}

// Checks a change by its table.
fn check_update<'a, D: Disk>(
    store: &Store<D>,
    holdings: &Holdings,
    control: usize,
    update: &TotalsUpdate<'a>,
) -> Result<CheckedUpdate<'a>, Answer>
    requires sound { IsSound store.now.layout store.now.state holdings.now }
    ensures checks { ChecksAt (totals_of store.now holdings.now) control (change_of update.now) result }
    ensures directory { HasDirectory holdings.now.layout store.now.state }
{
    let files = see_files(store, holdings);
    if is_foreign(control, holdings.area) {
        return Err(Answer::Refused(Code::Claimed, 0));
    }
    let spent = holdings.transactions.spent(control);
    match files {
        Some(files) => check(files, Caller { control, spent }, update),
        None => Err(Answer::Refused(Code::Failure, 0)),
    }
}
