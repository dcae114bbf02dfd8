//! The totals: files with their handles, claims and transactions, and their calls.
ghost use Rattle.std.specs.Prelude.{◌≡◌, [], length, true, None, OnOk, OnErr};

use crate::arrangements::{Arrangement, arrange};
use crate::changes::change;
use crate::claims::{claim_area, release_area};
use crate::commits::commit_trans;
use crate::fault::RecoveryFault;
use crate::files::{count_files, measure_free, see_files, totals_size};
use crate::handles::Handles;
use crate::questions::{Question, ask};
use crate::recoveries::recover;
use crate::transaction_calls::drop_control;
use crate::transactions::Transactions;
use crate::update::TotalsUpdate;
use pos_disk::Disk;
use pos_image::Layout;
use pos_service::{Answer, Call, Code, NoMemory};
use pos_store::{Mode, Store};
use std::alloc::Global;
use std::marker::Model;

/// The totals: files of fixed sizes on a disk, each with a handle (chapter Hard Totals).
///
/// A handle is given once, and a recovery gives its files new ones. A control may claim a file, or the area, which is
/// the whole device.
///
/// A call is checked in this order, before it takes memory:
///
/// - A change, a question or a commit answers E_CLAIMED if another control has claimed the area.
/// - These and arrangements answer E_FAILURE while the totals are off.
/// - Then the call answers by its table of refusals.
///
/// A refused call changes nothing and doesn't use the disk. If the disk fails in a change, the answer is E_FAILURE and
/// the totals are off. The next recovery finds the files before the change or those after the whole of it. All
/// transactions end, and no file is claimed any more.
///
/// No sequence is left if a change needs a new image and the sequence is the last one, 18,446,744,073,709,551,615.
///
/// Between `beginTrans` and `commitTrans` a control's changes of bytes are buffered. The disk and the files stay as
/// they are, for `read` too.
///
/// Contracts see the disk and the files with their handles and claims, or `Off`. They see the next handle, the control
/// that has claimed the area, and what each control has buffered.
#[derive(Drop)]
pub struct Totals<D: Disk> {
    alloc: Global,
    pub(crate) store: Store<D>,
    pub(crate) holdings: Holdings,
}

impl<D: Disk> Model for Totals<D> {
    ghost use Rattle.pos_totals.specs.Views.{TotalsView, view_of, IsSound};

    ghost Value = { TotalsView D };

    ghost view = { λ t. view_of t.store t.holdings };

    ghost invariant = { λ t. IsSound t.store.layout t.store.state t.holdings };
}

impl<D: Disk> Totals<D> {
    ghost use Rattle.pos_disk.specs.State.{IsAtRest};
    ghost use Rattle.pos_service.specs.declared.category.Category.TheVariants as category;
    ghost use Rattle.pos_service.specs.Calls.{has_call, takes_memory};
    ghost use Rattle.pos_totals.specs.HardTotals.{Off};
    ghost use Rattle.pos_totals.specs.TotalsArrangements.{arrangement_of};
    ghost use Rattle.pos_totals.specs.TotalsClaims.{ClaimsArea, ReleasesArea};
    ghost use Rattle.pos_totals.specs.TotalsQuestions.{MayTell, question_of};
    ghost use Rattle.pos_totals.specs.TotalsCalls.{Calls, file_call};
    ghost use Rattle.pos_totals.specs.HardTotals.{in_transaction, with_control};
    ghost use Rattle.pos_totals.specs.TotalsClaims.{without_control};
    ghost use Rattle.pos_totals.specs.HardTotals.{is_ready, files_of, totals_limits};
    ghost use Rattle.pos_totals.specs.TotalsFiles.{free_data};
    ghost use Rattle.pos_totals.specs.Changes.{Arranged, Changes, CommitsBuffer};
    ghost use Rattle.pos_totals.specs.Checks.{change_of};
    ghost use Rattle.pos_totals.specs.Recoveries.{Recovers};
    ghost use Rattle.pos_totals.specs.Views.{IsReady, WhenReady};

    /// Returns totals over a disk. They are off: nothing is read yet, and their layout is that of a new disk.
    ///
    /// The first file gets the handle `first_handle`. If that is 18,446,744,073,709,551,615, no handle is left.
    pub fn new(alloc: Global, disk: D, first_handle: u64) -> Totals<D>
        ensures { result ≡ record {
          disk = disk;
          totals = record {
            layout = Layout.Layout1;
            mode = Off;
            tail = 0;
            next = first_handle;
            area = None;
            transactions = [];
          };
        } }
    {
        Totals {
            alloc,
            store: Store::new(alloc, disk),
            holdings: Holdings {
                layout: Layout::Layout1,
                handles: Handles::new(first_handle),
                area: None,
                transactions: Transactions::new(alloc),
            },
        }
    }

    /// Reads the files of the disk if the totals are off, and gives them handles from the next one on. If they are
    /// ready, the call succeeds and does nothing.
    ///
    /// It never changes what the disk has. So a recovery may crash too, and you may call it again.
    ///
    /// # Errors
    ///
    /// - `Unformatted` if the disk has no image, or fewer than 327,680 bytes.
    /// - `Damaged` if the disk is damaged.
    /// - `Handles` if there are more files than handles left.
    /// - `NoMemory` if memory ran out.
    /// - `Device` if the disk failed.
    ///
    /// The totals are still off then, and their layout and the next handle are as they were.
    pub fn recover(&mut self) -> Result<(), RecoveryFault>
        ensures { Recovers D.Disk self.old result self.new }
    {
        recover(self.alloc, &mut self.store, &mut self.holdings)
    }

    /// Answers a call of the totals' own: the question, the change or the arrangement that it asks for, or a commit.
    ///
    /// # Errors
    ///
    /// [`NoMemory`] if the call takes memory and it ran out. Nothing changes then.
    pub fn call(&mut self, control: usize, call: &Call) -> Result<Answer, NoMemory>
        requires own { has_call category.HardTotals call.now ≡ true }
        ensures calls { Calls D.Disk self.old control (file_call call.now) result self.new }
        ensures memory { OnErr result (takes_memory call.now ≡ true) }
    {
        if let Some(question) = Question::of(call) {
            return self.ask(control, question);
        }
        if let Some(update) = TotalsUpdate::of(call) {
            return self.change(control, update);
        }
        if let Some(arrangement) = Arrangement::of(call) {
            return Ok(self.arrange(control, arrangement));
        }
        match call {
            Call::CommitTrans => self.commit_trans(control),
            _ => unreachable!(),
        }
    }

    /// Answers a question about the files.
    ///
    /// # Errors
    ///
    /// [`NoMemory`] if memory ran out. `find` takes none.
    pub fn ask(&self, control: usize, question: Question<'_>) -> Result<Answer, NoMemory>
        ensures { MayTell self.now.totals control (question_of question.entry) result }
    {
        ask(self.alloc, &self.store, &self.holdings, control, question)
    }

    /// Answers a change of the files.
    ///
    /// # Errors
    ///
    /// [`NoMemory`] if memory ran out. Nothing changes then.
    pub fn change(&mut self, control: usize, update: TotalsUpdate<'_>) -> Result<Answer, NoMemory>
        ensures { Changes D.Disk self.old control (change_of update.entry) result self.new }
    {
        change(
            self.alloc,
            &mut self.store,
            &mut self.holdings,
            control,
            update,
        )
    }

    /// Makes an arrangement for a control.
    pub fn arrange(&mut self, control: usize, arrangement: Arrangement) -> Answer
        ensures { Arranged self.old control (arrangement_of arrangement) result self.new }
    {
        arrange(
            self.alloc,
            &self.store,
            &mut self.holdings,
            control,
            arrangement,
        )
    }

    /// Claims the area, which is the whole device, for a control (`claim`). If the control has it already, nothing
    /// changes. It takes no memory.
    ///
    /// # Errors
    ///
    /// E_TIMEOUT if another control has claimed the area, or a file. Nothing changes then.
    pub fn claim_area(&mut self, control: usize) -> Result<(), Code>
        ensures claims { ClaimsArea self.old.totals control result self.new.totals }
        ensures disk { self.new.disk ≡ self.old.disk }
    {
        claim_area(&self.store, &mut self.holdings, control)
    }

    /// Ends a control's claim of the area (`release`). Files that it has claimed stay claimed. It takes no memory.
    ///
    /// # Errors
    ///
    /// E_ILLEGAL if the control hasn't claimed the area. Nothing changes then.
    pub fn release_area(&mut self, control: usize) -> Result<(), Code>
        ensures releases { ReleasesArea self.old.totals control result self.new.totals }
        ensures disk { self.new.disk ≡ self.old.disk }
    {
        release_area(&self.store, &mut self.holdings, control)
    }

    /// Puts all changes that a control has buffered on the disk together, in their order, and ends the transaction
    /// (`commitTrans`). If nothing is buffered, the disk isn't used.
    ///
    /// Refused with:
    ///
    /// - E_ILLEGAL if the control is in no transaction.
    /// - E_NOEXIST if the file of a buffered change is gone.
    /// - E_CLAIMED if another control has claimed the file of a buffered change.
    /// - E_FAILURE if no sequence is left or the disk fails.
    ///
    /// After a refusal the transaction continues, but if the disk fails, all transactions end.
    ///
    /// # Errors
    ///
    /// [`NoMemory`] if memory ran out. Nothing changes then.
    pub fn commit_trans(&mut self, control: usize) -> Result<Answer, NoMemory>
        ensures { CommitsBuffer D.Disk self.old control result self.new }
    {
        commit_trans(self.alloc, &mut self.store, &mut self.holdings, control)
    }

    /// Makes a place for the transaction of one more control. Controls are numbered from 0.
    ///
    /// # Errors
    ///
    /// [`NoMemory`] if memory ran out. Nothing changes then.
    pub fn add_control(&mut self) -> Result<(), NoMemory>
        ensures ok { OnOk result (self.new.totals ≡ with_control self.old.totals) }
        ensures err { OnErr result (self.new ≡ self.old) }
        ensures disk { self.new.disk ≡ self.old.disk }
    {
        self.holdings.transactions.add()
    }

    /// Ends all that a control has, as `close` does: its claims of the area and of files, and its transaction. It takes
    /// no memory.
    pub fn drop_control(&mut self, control: usize)
        ensures totals { self.new.totals ≡ without_control self.old.totals control }
        ensures disk { self.new.disk ≡ self.old.disk }
    {
        drop_control(&self.store, &mut self.holdings, control);
    }

    /// Returns the control that has claimed the area, if one has.
    pub fn area(&self) -> Option<usize>
        ensures { result ≡ self.now.totals.area }
    {
        self.holdings.area
    }

    /// Returns TransactionInProgress: whether a control is in a transaction.
    pub fn in_transaction(&self, control: usize) -> bool
        ensures { result ≡ in_transaction self.now.totals control }
    {
        self.holdings.transactions.is_open(control)
    }

    /// Returns whether the files are known.
    pub fn is_ready(&self) -> bool
        ensures { result ≡ is_ready self.now.totals.mode }
    {
        self.store.mode() != Mode::Off
    }

    /// Returns TotalsSize: the most bytes of all files in total. It goes by the layout that the last recovery found
    /// that succeeded, or by that of a new disk before the first.
    pub fn size(&self) -> usize
        ensures { result ≡ (totals_limits self.now.totals.layout).bytes }
    {
        totals_size(self.holdings.layout)
    }

    /// Returns FreeData: how many bytes are left for new files. The totals must be ready.
    pub fn free(&self) -> usize
        requires { IsReady self.now.totals.mode }
        ensures { result ≡ free_data (totals_limits self.now.totals.layout) (files_of self.now.totals.mode) }
    {
        match see_files(&self.store, &self.holdings) {
            Some(files) => measure_free(files),
            None => unreachable!(),
        }
    }

    /// Returns NumberOfFiles. The totals must be ready.
    pub fn count(&self) -> usize
        requires { IsReady self.now.totals.mode }
        ensures { result ≡ length (files_of self.now.totals.mode) }
    {
        match see_files(&self.store, &self.holdings) {
            Some(files) => count_files(files),
            None => unreachable!(),
        }
    }

    /// Returns the disk as it is, at rest if the totals are ready.
    pub fn into_disk(self) -> D
        ensures disk { result ≡ self.disk }
        ensures at_rest { D.honest self.disk → WhenReady self.totals.mode (IsAtRest (D.state self.disk)) }
    {
        self.store.into_disk()
    }
}

/// What the totals keep besides the files of the disk.
#[derive(Drop)]
pub(crate) struct Holdings {
    /// The layout that the last recovery found that succeeded, or layout 1 before the first.
    pub layout: Layout,
    /// The tags of the files, and the next handle.
    pub handles: Handles,
    /// The control that has claimed the area, which is the whole device, if one has.
    pub area: Option<usize>,
    /// What each control has buffered.
    pub transactions: Transactions,
}
