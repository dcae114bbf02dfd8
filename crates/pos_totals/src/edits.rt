//! Edits: changes of the bytes of a file, whose size stays. The other files use an edit only by its functions here.
ghost use Rattle.std.specs.Prelude.{◌≡◌, ◌≤◌, ◌+◌, true, false, pos, length, is_some, IfOk, IfSome, MatchOption, Some};
ghost use Rattle.std.specs.Option.{option_map};
ghost use Rattle.pos_dir.specs.declared.file.TheConstants.{LAYOUT_2};
ghost use Rattle.pos_service.specs.Calls.{takes_memory};
ghost use Rattle.pos_totals.specs.Edits.{edit_asked, edit_of, edit_owned, edit_in, edit_change, edit_cost, fits, IsPlaced};

use crate::numbers::{to_byte, to_range};
use pos_dir::{Bytes, Change, LentBytes};
use pos_service::{Call, NoMemory};
use std::alloc::Global;

// What an edit costs besides its bytes.
const COST_OF_EDIT: usize = 16;

/// An edit of a file, as a call asks for it.
///
/// Refused with:
///
/// - E_ILLEGAL if no file has the handle, or the edit doesn't fit the file.
/// - E_CLAIMED if another control has claimed the file.
/// - E_EXTENDED ETOT_NOROOM if the control is in a transaction, and the edit costs more than is left in it. All edits
///   of a transaction cost at most TotalsSize in total.
/// - E_FAILURE if no sequence is left or the disk fails.
#[derive(Clone, Copy)]
pub enum Edit<'a> {
    /// `write`: puts bytes in the place of those of the file from an offset on, counted from 0. It fits if they are all
    /// within the file. It costs the number of bytes plus 16.
    Write { offset: i128, bytes: &'a [u8] },
    /// `setAll`: makes each byte of the file the same. It fits if the value is 0 to 255. It costs 16.
    SetAll { value: i128 },
}

impl<'a> Edit<'a> {
    /// Returns the edit that a call asks for, with the handle of its file, or `None` if it asks for none.
    pub(crate) fn of(call: &'a Call) -> Option<(i128, Edit<'a>)>
        ensures edit { option_map (λ asked. (asked.0, edit_of asked.1)) result ≡ edit_asked call.now }
        ensures memory { IfSome result (λ asked. takes_memory call.now ≡ true) }
    {
        match call {
            Call::Write(handle, offset, bytes) => {
                let (offset, bytes) = (*offset, bytes.as_slice());
                Some((*handle, Edit::Write { offset, bytes }))
            }
            Call::SetAll(handle, value) => Some((*handle, Edit::SetAll { value: *value })),
            _ => None,
        }
    }

    /// Returns the edit as a change of the directory, for the file at an index, or `None` if it doesn't fit the file's
    /// size.
    pub(crate) fn place(&self, index: u16, size: usize) -> Option<Change<'a>>
        requires { size ≤ LAYOUT_2.bytes }
        ensures { MatchOption result (fits size (edit_of self.now) ≡ false) (IsPlaced size (edit_of self.now) index) }
    {
        match self {
            Edit::Write { offset, bytes } => {
                let Some((start, _)) = to_range(size, *offset, bytes.len() as i128) else {
                    return None;
                };
                let (offset, bytes) = (start as u32, LentBytes::from_slice(bytes));
                Some(Change::Write {
                    index,
                    offset,
                    bytes,
                })
            }
            Edit::SetAll { value } => {
                let Some(value) = to_byte(*value) else {
                    return None;
                };
                Some(Change::SetAll { index, value })
            }
        }
    }

    /// Returns what an edit costs that fits a file.
    pub(crate) fn cost(&self) -> usize
        requires { edit_cost (edit_of self.now) ≤ LAYOUT_2.bytes + 16 }
        ensures { result ≡ edit_cost (edit_of self.now) }
    {
        match self {
            Edit::Write { offset: _, bytes } => bytes.len() + COST_OF_EDIT,
            Edit::SetAll { value: _ } => COST_OF_EDIT,
        }
    }
}

/// An edit that fits, with bytes of its own.
#[derive(Drop)]
pub(crate) enum OwnedEdit {
    /// Puts bytes in the place of those of the file from an offset on, counted from 0.
    Write { offset: u32, bytes: Bytes },
    /// Makes each byte of the file the same.
    SetAll { value: u8 },
}

impl OwnedEdit {
    /// Returns the edit that a change of the directory is, with its bytes copied.
    ///
    /// # Errors
    ///
    /// [`NoMemory`] if memory ran out.
    pub fn copy(alloc: Global, change: &Change<'_>) -> Result<OwnedEdit, NoMemory>
        requires { is_some (edit_in change.now) ≡ true }
        ensures { IfOk result (λ edit. edit_in change.now ≡ Some (edit_owned edit)) }
    {
        match change {
            Change::Write {
                index: _,
                offset,
                bytes,
            } => {
                let bytes = Bytes::from_slice(alloc, bytes.as_slice())?;
                let offset = *offset;
                Ok(OwnedEdit::Write { offset, bytes })
            }
            Change::SetAll { index: _, value } => Ok(OwnedEdit::SetAll { value: *value }),
            _ => unreachable!(),
        }
    }

    /// Returns the edit as a change of the directory, for the file at an index. The bytes are lent.
    pub fn lend(&self, index: u16) -> Change<'_>
        ensures { result ≡ edit_change index (edit_owned self.now) }
    {
        match self {
            OwnedEdit::Write { offset, bytes } => Change::Write {
                index,
                offset: *offset,
                bytes: LentBytes::from_slice(bytes.as_slice()),
            },
            OwnedEdit::SetAll { value } => Change::SetAll {
                index,
                value: *value,
            },
        }
    }

    /// Returns what the edit costs.
    pub fn cost(&self) -> usize
        requires { edit_cost (edit_owned self.now) ≤ LAYOUT_2.bytes }
        ensures { result ≡ edit_cost (edit_owned self.now) }
    {
        match self {
            OwnedEdit::Write { offset: _, bytes } => bytes.as_slice().len() + COST_OF_EDIT,
            OwnedEdit::SetAll { value: _ } => COST_OF_EDIT,
        }
    }
}
