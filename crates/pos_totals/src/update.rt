//! Changes of the files, as calls ask for them and as groups have them.
ghost use Rattle.std.specs.Prelude.{◌≡◌, true, IfSome};
ghost use Rattle.std.specs.Option.{option_map};
ghost use Rattle.pos_service.specs.Calls.{takes_memory};
ghost use Rattle.pos_totals.specs.TotalsChanges.{change_asked};
ghost use Rattle.pos_totals.specs.Checks.{change_of};

use crate::edits::Edit;
use pos_dir::Change;
use pos_service::Call;

/// The control that calls.
#[derive(Clone, Copy)]
pub(crate) struct Caller {
    /// Its number.
    pub control: usize,
    /// What its buffered changes cost in total, or `None` if it is in no transaction.
    pub spent: Option<usize>,
}

/// A change of the files, as a call asks for it.
#[derive(Clone, Copy)]
pub enum TotalsUpdate<'a> {
    /// `create`: adds a file of zero bytes after the others, and gives its handle. Error detection has no effect. A
    /// name has 1 to 10 bytes of 0x20 to 0x7F, and the size is in bytes.
    ///
    /// Refused with:
    ///
    /// - E_ILLEGAL in a transaction of the control, for a bad name, or for a size below 0.
    /// - E_EXISTS if a file has the name.
    /// - E_EXTENDED ETOT_NOROOM if the size is above FreeData, or there are as many files as the layout of the disk
    ///   allows.
    /// - E_FAILURE if no handle or no sequence is left, or the disk fails.
    Create { name: &'a [u8], size: i128 },
    /// `delete`: removes a file with its claim. The indexes of the files after it fall by one.
    ///
    /// Refused with:
    ///
    /// - E_ILLEGAL in a transaction of the control.
    /// - E_NOEXIST if no file has the name.
    /// - E_CLAIMED if another control has claimed the file.
    /// - E_FAILURE if no sequence is left or the disk fails.
    Delete { name: &'a [u8] },
    /// `rename`: gives a file another name.
    ///
    /// Refused with:
    ///
    /// - E_ILLEGAL in a transaction of the control, if no file has the handle, or for a bad name.
    /// - E_EXISTS if a file has the name, even if it is this one.
    /// - E_CLAIMED if another control has claimed the file.
    /// - E_FAILURE if no sequence is left or the disk fails.
    Rename { handle: i128, name: &'a [u8] },
    /// An edit of the bytes of the file with a handle. Refused as [`Edit`] is.
    Edit { handle: i128, edit: Edit<'a> },
}

impl<'a> TotalsUpdate<'a> {
    /// Returns the change that a call asks for, or `None` if it asks for none.
    pub(crate) fn of(call: &'a Call) -> Option<TotalsUpdate<'a>>
        ensures change { option_map change_of result ≡ change_asked call.now }
        ensures memory { IfSome result (λ update. takes_memory call.now ≡ true) }
    {
        match call {
            Call::Create(name, size, _) => Some(TotalsUpdate::Create {
                name: name.as_slice(),
                size: *size,
            }),
            Call::Delete(name) => Some(TotalsUpdate::Delete {
                name: name.as_slice(),
            }),
            Call::Rename(handle, name) => Some(TotalsUpdate::Rename {
                handle: *handle,
                name: name.as_slice(),
            }),
            _ => match Edit::of(call) {
                Some((handle, edit)) => Some(TotalsUpdate::Edit { handle, edit }),
                None => None,
            },
        }
    }
}

/// A change that nothing refuses.
#[derive(Drop)]
pub(crate) struct CheckedUpdate<'a> {
    /// The handle of its file, if the call named the file by it.
    pub handle: Option<u64>,
    /// The change of the directory, which names files by their index.
    pub change: Change<'a>,
}
