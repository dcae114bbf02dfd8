//! The calls of Hard Totals by their names (chapter Hard Totals). Each does what `Totals::call` does for it, for the
//! control with a number. It takes the arguments of the standard in their order.
ghost use Rattle.std.specs.Prelude.{Ok};
ghost use Rattle.pos_service.specs.declared.call.Call.TheVariants as call;
ghost use Rattle.pos_totals.specs.TotalsCalls.{Calls, file_call};

use crate::arrangements::Arrangement;
use crate::edits::Edit;
use crate::questions::Question;
use crate::totals::Totals;
use crate::update::TotalsUpdate;
use pos_disk::Disk;
use pos_service::{Answer, NoMemory};

impl<D: Disk> Totals<D> {
    /// Adds a file of `size` zero bytes after the others, and answers its handle (`create`). Error detection has no
    /// effect. It is refused as [`TotalsUpdate::Create`] is.
    ///
    /// # Errors
    ///
    /// [`NoMemory`] if memory ran out. Nothing changes then.
    pub fn create(
        &mut self,
        control: usize,
        name: &[u8],
        size: i128,
        error_detection: bool,
    ) -> Result<Answer, NoMemory>
        ensures { Calls D.Disk self.old control (file_call (call.Create name.now size error_detection)) result
            self.new }
    {
        self.change(control, TotalsUpdate::Create { name, size })
    }

    /// Removes the file with a name (`delete`). It is refused as [`TotalsUpdate::Delete`] is.
    ///
    /// # Errors
    ///
    /// [`NoMemory`] if memory ran out. Nothing changes then.
    pub fn delete(&mut self, control: usize, name: &[u8]) -> Result<Answer, NoMemory>
        ensures { Calls D.Disk self.old control (file_call (call.Delete name.now)) result self.new }
    {
        self.change(control, TotalsUpdate::Delete { name })
    }

    /// Answers the handle and the size of the file with a name (`find`). It is refused as [`Question::Find`] is, and
    /// takes no memory.
    pub fn find(&self, control: usize, name: &[u8]) -> Answer
        ensures { Calls D.Disk self.now control (file_call (call.Find name.now)) (Ok result) self.now }
    {
        match self.ask(control, Question::Find { name }) {
            Ok(answer) => answer,
            Err(NoMemory) => unreachable!(),
        }
    }

    /// Answers the name of the file at an index, counted from 0 (`findByIndex`). It is refused as
    /// [`Question::FindByIndex`] is.
    ///
    /// # Errors
    ///
    /// [`NoMemory`] if memory ran out.
    pub fn find_by_index(&self, control: usize, index: i128) -> Result<Answer, NoMemory>
        ensures { Calls D.Disk self.now control (file_call (call.FindByIndex index)) result self.now }
    {
        self.ask(control, Question::FindByIndex { index })
    }

    /// Answers `count` bytes of a file from an offset on (`read`). It is refused as [`Question::Read`] is.
    ///
    /// # Errors
    ///
    /// [`NoMemory`] if memory ran out.
    pub fn read(
        &self,
        control: usize,
        handle: i128,
        offset: i128,
        count: i128,
    ) -> Result<Answer, NoMemory>
        ensures { Calls D.Disk self.now control (file_call (call.Read handle offset count)) result self.now }
    {
        let read = Question::Read {
            handle,
            offset,
            count,
        };
        self.ask(control, read)
    }

    /// Puts bytes into a file from an offset on (`write`). It is refused as [`Edit`] is.
    ///
    /// # Errors
    ///
    /// [`NoMemory`] if memory ran out. Nothing changes then.
    pub fn write(
        &mut self,
        control: usize,
        handle: i128,
        offset: i128,
        bytes: &[u8],
    ) -> Result<Answer, NoMemory>
        ensures { Calls D.Disk self.old control (file_call (call.Write handle offset bytes.now)) result self.new }
    {
        let edit = Edit::Write { offset, bytes };
        self.change(control, TotalsUpdate::Edit { handle, edit })
    }

    /// Makes each byte of a file the same, 0 to 255 (`setAll`). It is refused as [`Edit`] is.
    ///
    /// # Errors
    ///
    /// [`NoMemory`] if memory ran out. Nothing changes then.
    pub fn set_all(&mut self, control: usize, handle: i128, value: i128) -> Result<Answer, NoMemory>
        ensures { Calls D.Disk self.old control (file_call (call.SetAll handle value)) result self.new }
    {
        let edit = Edit::SetAll { value };
        self.change(control, TotalsUpdate::Edit { handle, edit })
    }

    /// Gives a file another name (`rename`). It is refused as [`TotalsUpdate::Rename`] is.
    ///
    /// # Errors
    ///
    /// [`NoMemory`] if memory ran out. Nothing changes then.
    pub fn rename(&mut self, control: usize, handle: i128, name: &[u8]) -> Result<Answer, NoMemory>
        ensures { Calls D.Disk self.old control (file_call (call.Rename handle name.now)) result self.new }
    {
        self.change(control, TotalsUpdate::Rename { handle, name })
    }

    /// Claims a file for the control (`claimFile`). The timeout is in milliseconds, -1 for no end; nothing is waited
    /// for. It is refused as [`Arrangement::ClaimFile`] is, and takes no memory.
    pub fn claim_file(&mut self, control: usize, handle: i128, timeout: i128) -> Answer
        ensures { Calls D.Disk self.old control (file_call (call.ClaimFile handle timeout)) (Ok result) self.new }
    {
        self.arrange(control, Arrangement::ClaimFile { handle, timeout })
    }

    /// Ends the control's claim of a file (`releaseFile`). It is refused as [`Arrangement::ReleaseFile`] is, and takes
    /// no memory.
    pub fn release_file(&mut self, control: usize, handle: i128) -> Answer
        ensures { Calls D.Disk self.old control (file_call (call.ReleaseFile handle)) (Ok result) self.new }
    {
        self.arrange(control, Arrangement::ReleaseFile { handle })
    }

    /// Begins a transaction of the control (`beginTrans`). It is refused as [`Arrangement::BeginTrans`] is, and takes
    /// no memory.
    pub fn begin_trans(&mut self, control: usize) -> Answer
        ensures { Calls D.Disk self.old control (file_call call.BeginTrans) (Ok result) self.new }
    {
        self.arrange(control, Arrangement::BeginTrans)
    }

    /// Ends the control's transaction, and drops what is buffered in it (`rollback`). It is refused as
    /// [`Arrangement::Rollback`] is, and takes no memory.
    pub fn rollback(&mut self, control: usize) -> Answer
        ensures { Calls D.Disk self.old control (file_call call.Rollback) (Ok result) self.new }
    {
        self.arrange(control, Arrangement::Rollback)
    }
}
