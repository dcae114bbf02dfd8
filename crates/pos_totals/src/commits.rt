//! A commit of what a control has buffered, from its table to the disk.
ghost use Rattle.std.specs.Prelude.{◌≡◌, Some, IfOk};
ghost use Rattle.std.specs.Option.{option_map};
ghost use Rattle.pos_totals.specs.TotalsChanges.{changed_file};
ghost use Rattle.pos_totals.specs.TotalsCommits.{commit_rows};
ghost use Rattle.pos_service.specs.Refusals.{first_refusal};
ghost use Rattle.pos_totals.specs.Changes.{CommitsBuffer};
ghost use Rattle.pos_totals.specs.Checks.{file_of, files_in, AreFiles, CommitsAt, Plans, PlansAt};
ghost use Rattle.pos_totals.specs.Groups.{file_change, group_of};
ghost use Rattle.pos_totals.specs.Views.{HasDirectory, IsSound, totals_of, view_of};

use crate::changes::{answer_fault, end_at};
use crate::files::{Files, FoundFile, find_handle, find_index, see_files};
use crate::totals::Holdings;
use crate::transactions::Buffered;
use pos_dir::{Change, Group};
use pos_disk::Disk;
use pos_service::claims::is_foreign;
use pos_service::{Answer, Code, NoMemory, Value};
use pos_store::laws::leaves_its_files;
use pos_store::{Store, StoreFault};
use std::alloc::Global;

/// What is to be done for a commit.
#[derive(Drop)]
pub(crate) enum Plan<'a> {
    /// Its table refuses it, with this answer.
    Refused(Answer),
    /// No change is buffered, so there is nothing to do.
    Nothing,
    /// This group is to be put on the disk.
    Group(Group<'a>),
}

/// What became of a commit.
#[derive(Drop)]
pub(crate) enum Commitment {
    /// Its table refused it, with this answer.
    Refused(Answer),
    /// It is done: its group is on the disk, or no change was buffered.
    Done,
    /// The store refused its group.
    Failed(StoreFault),
}

/// Commits what a control has buffered, if its table allows it, and returns the answer. It finds want of memory after
/// the table, and then uses the disk. A fault of the disk ends all transactions.
///
/// # Errors
///
/// [`NoMemory`] if memory ran out. Nothing changes then.
pub(crate) fn commit_trans<D: Disk>(
    alloc: Global,
    store: &mut Store<D>,
    holdings: &mut Holdings,
    control: usize,
) -> Result<Answer, NoMemory>
    requires sound { IsSound store.old.layout store.old.state holdings.old }
    ensures sound { IsSound store.new.layout store.new.state holdings.new }
    ensures commits { CommitsBuffer D.Disk (view_of store.old holdings.old) control result
        (view_of store.new holdings.new) }
{
    leaves_its_files(store);
    match commit_buffer(alloc, store, holdings, control) {
        Ok(Commitment::Refused(refusal)) => Ok(refusal),
        Ok(Commitment::Done) => {
            holdings.transactions.set(control, None);
            Ok(Answer::Done(Value::Empty))
        }
        Ok(Commitment::Failed(fault)) => {
            end_at(fault, &mut holdings.transactions);
            answer_fault(fault)
        }
        Err(NoMemory) => Err(NoMemory),
    }
}

// Puts what a control has buffered on the disk, as one group.
fn commit_buffer<D: Disk>(
    alloc: Global,
    store: &mut Store<D>,
    holdings: &Holdings,
    control: usize,
) -> Result<Commitment, NoMemory>
    requires sound { IsSound store.old.layout store.old.state holdings.now }
    ensures commits { CommitsAt D.Disk store.old (totals_of store.old holdings.now) control result store.new }
    ensures directory { HasDirectory holdings.now.layout store.old.state }
{
    match make_plan(alloc, store, holdings, control) {
        Ok(Plan::Refused(refusal)) => Ok(Commitment::Refused(refusal)),
        Ok(Plan::Nothing) => Ok(Commitment::Done),
        Ok(Plan::Group(group)) => match store.commit_applicable(&group) {
            Ok(()) => Ok(Commitment::Done),
            Err(fault) => Ok(Commitment::Failed(fault)),
        },
        Err(NoMemory) => Err(NoMemory),
    }
}

// Returns what is to be done for a commit.
fn make_plan<'a, D: Disk>(
    alloc: Global,
    store: &Store<D>,
    holdings: &'a Holdings,
    control: usize,
) -> Result<Plan<'a>, NoMemory>
    requires sound { IsSound store.now.layout store.now.state holdings.now }
    ensures plans { PlansAt (totals_of store.now holdings.now) control result }
    ensures directory { HasDirectory holdings.now.layout store.now.state }
{
    let files = see_files(store, holdings);
    if is_foreign(control, holdings.area) {
        return Ok(Plan::Refused(Answer::Refused(Code::Claimed, 0)));
    }
    let Some(files) = files else {
        return Ok(Plan::Refused(Answer::Refused(Code::Failure, 0)));
    };
    match holdings.transactions.buffer(control) {
        Some(buffer) => plan_in(alloc, files, control, buffer.as_slice()),
        None => Ok(Plan::Refused(Answer::Refused(Code::Illegal, 0))),
    }
}

// Returns what is to be done for a commit of these changes.
fn plan_in<'a>(
    alloc: Global,
    files: Files<'_>,
    control: usize,
    changes: &'a [Buffered],
) -> Result<Plan<'a>, NoMemory>
    requires { AreFiles files }
    ensures { Plans (commit_rows (files_in files.entry) control (Some changes.now)) (files_in files.entry)
        (Some changes.now) result }
{
    match refuse_commit(files, control, changes) {
        Some(refusal) => return Ok(Plan::Refused(refusal)),
        None => {}
    }
    if changes.is_empty() {
        return Ok(Plan::Nothing);
    }
    match group_changes(alloc, files, changes) {
        Ok(group) => Ok(Plan::Group(group)),
        Err(NoMemory) => Err(NoMemory),
    }
}

// Returns what refuses a commit of these changes: a file that is gone, or else one that another control has claimed.
fn refuse_commit(files: Files<'_>, control: usize, changes: &[Buffered]) -> Option<Answer>
    requires { AreFiles files }
    ensures { result ≡ first_refusal (commit_rows (files_in files.entry) control (Some changes.now)) }
{
    let mut is_claimed = false;
    for change in changes {
        let Some(found) = find_changed(files, change) else {
            return Some(Answer::Refused(Code::NoExist, 0));
        };
        is_claimed |= is_foreign(control, found.claim);
    }
    if is_claimed {
        return Some(Answer::Refused(Code::Claimed, 0));
    }
    None
}

// Returns the file of a buffered change, if it is still there.
fn find_changed<'a>(files: Files<'a>, change: &Buffered) -> Option<FoundFile<'a>>
    requires { AreFiles files }
    ensures { option_map file_of result ≡ changed_file (files_in files.entry) change.now }
{
    find_handle(files, change.handle() as i128)
}

// Returns the group of changes, each as a change of the directory.
fn group_changes<'a>(
    alloc: Global,
    files: Files<'_>,
    changes: &'a [Buffered],
) -> Result<Group<'a>, NoMemory>
    requires { AreFiles files }
    ensures { IfOk result (λ group. group ≡ group_of (files_in files.entry) changes.now) }
{
    let mut group = Group::new(alloc);
    for change in changes {
        if group.push(place_change(files, change)).is_err() {
            return Err(NoMemory);
        }
    }
    Ok(group)
}

// Returns the change of the directory for a buffered change.
fn place_change<'a>(files: Files<'_>, change: &'a Buffered) -> Change<'a>
    requires { AreFiles files }
    ensures { result ≡ file_change (files_in files.entry) change.now }
{
    change.lend(find_index(files, change.handle()))
}
