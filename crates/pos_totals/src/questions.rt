//! Questions about the files.
ghost use Rattle.std.specs.Prelude.{◌≡◌, IfSome};
ghost use Rattle.std.specs.Option.{option_map};
ghost use Rattle.pos_service.specs.Calls.{takes_memory};
ghost use Rattle.pos_totals.specs.TotalsQuestions.{Find, FindByIndex, Read, MayTell, is_told_in_memory, question_asked, question_of};
ghost use Rattle.pos_totals.specs.TotalsFiles.{file_at};
ghost use Rattle.pos_totals.specs.Checks.{files_in, file_of, AreFiles, AnswersIn, MayTellIn};
ghost use Rattle.pos_totals.specs.Views.{IsSound, totals_of};

use crate::files::{Files, FoundFile, count_files, find_handle, find_name, get_file, see_files};
use crate::numbers::to_range;
use crate::totals::Holdings;
use pos_disk::Disk;
use pos_service::claims::is_foreign;
use pos_service::numbers::to_natural;
use pos_service::{Answer, Bytes, Call, Code, NoMemory, Value};
use pos_store::Store;
use std::alloc::Global;

/// A question about the files, as a call asks it.
#[derive(Clone, Copy)]
pub enum Question<'a> {
    /// `find`: the handle and the size of the file with a name. It takes no memory.
    ///
    /// Refused with E_NOEXIST if no file has the name.
    Find {
        /// The name.
        name: &'a [u8],
    },
    /// `findByIndex`: the name of the file at an index.
    ///
    /// Refused with E_ILLEGAL if no file has the index.
    FindByIndex {
        /// The index, counted from 0 in the order of creation.
        index: i128,
    },
    /// `read`: so many bytes of a file from an offset on.
    ///
    /// Refused with:
    ///
    /// - E_ILLEGAL if no file has the handle, or the range isn't within the file.
    /// - E_CLAIMED if another control has claimed the file.
    Read {
        /// The handle of the file.
        handle: i128,
        /// The offset of the first byte, from 0.
        offset: i128,
        /// How many bytes to read.
        count: i128,
    },
}

impl<'a> Question<'a> {
    /// Returns the question that a call asks, or `None` if it asks none.
    pub(crate) fn of(call: &'a Call) -> Option<Question<'a>>
        ensures question { option_map question_of result ≡ question_asked call.now }
        ensures memory { IfSome result (λ question. is_told_in_memory (question_of question) ≡ takes_memory call.now) }
    {
        match call {
            Call::Find(name) => Some(Question::Find {
                name: name.as_slice(),
            }),
            Call::FindByIndex(index) => Some(Question::FindByIndex { index: *index }),
            Call::Read(handle, offset, count) => Some(Question::Read {
                handle: *handle,
                offset: *offset,
                count: *count,
            }),
            _ => None,
        }
    }
}

/// Answers a question by its table.
///
/// # Errors
///
/// [`NoMemory`] if nothing refuses the question and memory ran out. `find` takes none.
pub(crate) fn ask<D: Disk>(
    alloc: Global,
    store: &Store<D>,
    holdings: &Holdings,
    control: usize,
    question: Question<'_>,
) -> Result<Answer, NoMemory>
    requires sound { IsSound store.now.layout store.now.state holdings.now }
    ensures { MayTell (totals_of store.now holdings.now) control (question_of question.entry) result }
{
    if is_foreign(control, holdings.area) {
        return Ok(Answer::Refused(Code::Claimed, 0));
    }
    match see_files(store, holdings) {
        Some(files) => ask_in(alloc, files, control, question),
        None => Ok(Answer::Refused(Code::Failure, 0)),
    }
}

// Answers a question while the totals are ready.
fn ask_in(
    alloc: Global,
    files: Files<'_>,
    control: usize,
    question: Question<'_>,
) -> Result<Answer, NoMemory>
    requires { AreFiles files }
    ensures { MayTellIn (files_in files.entry) control (question_of question.entry) result }
{
    match question {
        Question::Find { name } => Ok(find(files, control, name)),
        Question::FindByIndex { index } => find_by_index(alloc, files, control, index),
        Question::Read {
            handle,
            offset,
            count,
        } => read(alloc, files, control, handle, offset, count),
    }
}

// Returns the handle and the size of the file with a name.
fn find(files: Files<'_>, control: usize, name: &[u8]) -> Answer
    requires { AreFiles files }
    ensures { AnswersIn (files_in files.entry) control (Find name.now) result }
{
    match find_name(files, name) {
        Some(found) => {
            let size = found.bytes.len() as i128;
            Answer::Done(Value::Pair(found.handle as i128, size))
        }
        None => Answer::Refused(Code::NoExist, 0),
    }
}

// Returns the name of the file at an index.
fn find_by_index(
    alloc: Global,
    files: Files<'_>,
    control: usize,
    index: i128,
) -> Result<Answer, NoMemory>
    requires { AreFiles files }
    ensures { MayTellIn (files_in files.entry) control (FindByIndex index) result }
{
    let Some(found) = file_by_index(files, index) else {
        return Ok(Answer::Refused(Code::Illegal, 0));
    };
    Ok(Answer::Done(Value::Bytes(Bytes::from_slice(alloc, found.name)?)))
}

// Returns the file at an index that a call names, if there is one.
fn file_by_index<'a>(files: Files<'a>, index: i128) -> Option<FoundFile<'a>>
    requires { AreFiles files }
    ensures { option_map file_of result ≡ file_at (files_in files.entry) index }
{
    let Some(index) = to_natural(index) else {
        return None;
    };
    if index >= count_files(files) as u128 {
        return None;
    }
    get_file(files, index as usize)
}

// Returns a range of the bytes of the file with a handle.
fn read(
    alloc: Global,
    files: Files<'_>,
    control: usize,
    handle: i128,
    offset: i128,
    count: i128,
) -> Result<Answer, NoMemory>
    requires { AreFiles files }
    ensures { MayTellIn (files_in files.entry) control (Read handle offset count) result }
{
    let Some(found) = find_handle(files, handle) else {
        return Ok(Answer::Refused(Code::Illegal, 0));
    };
    let Some((start, size)) = to_range(found.bytes.len(), offset, count) else {
        return Ok(Answer::Refused(Code::Illegal, 0));
    };
    if is_foreign(control, found.claim) {
        return Ok(Answer::Refused(Code::Claimed, 0));
    }
    let part = &found.bytes[start..start + size];
    Ok(Answer::Done(Value::Bytes(Bytes::from_slice(alloc, part)?)))
}
