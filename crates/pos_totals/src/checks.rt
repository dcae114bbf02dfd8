//! The tables of the changes: what is refused, and what is to be done otherwise.
ghost use Rattle.std.specs.Prelude.{◌≡◌};
ghost use Rattle.pos_totals.specs.HardTotals.{Create, Delete, Rename, totals_limits};
ghost use Rattle.pos_totals.specs.HardTotals as model;
ghost use Rattle.pos_totals.specs.Edits.{edit_of};
ghost use Rattle.pos_totals.specs.TotalsChanges.{is_over};
ghost use Rattle.pos_totals.specs.Checks.{files_in, limits_in, change_of, AreFiles, Checks};

use crate::edits::Edit;
use crate::files::{Files, find_handle, find_name, has_room, totals_size};
use crate::update::{Caller, CheckedUpdate, TotalsUpdate};
use pos_dir::{Change, LentBytes, is_name};
use pos_image::Layout;
use pos_service::claims::is_foreign;
use pos_service::numbers::to_natural;
use pos_service::{Answer, Code, ETOT_NOROOM};

/// Checks a change by its table, and returns it as a change of the directory.
///
/// # Errors
///
/// The refusal by the first row of the table that applies.
pub(crate) fn check<'a>(
    files: Files<'_>,
    caller: Caller,
    update: &TotalsUpdate<'a>,
) -> Result<CheckedUpdate<'a>, Answer>
    requires { AreFiles files }
    ensures { Checks (limits_in files.entry) (files_in files.entry) caller (change_of update.now) result }
{
    match update {
        TotalsUpdate::Create { name, size } => check_create(files, caller, name, *size),
        TotalsUpdate::Delete { name } => check_delete(files, caller, name),
        TotalsUpdate::Rename { handle, name } => check_rename(files, caller, *handle, name),
        TotalsUpdate::Edit { handle, edit } => check_edit(files, caller, *handle, edit),
    }
}

// Checks a `create`: a good name that no file has, a size not below 0, and room.
fn check_create<'a>(
    files: Files<'_>,
    caller: Caller,
    name: &'a [u8],
    size: i128,
) -> Result<CheckedUpdate<'a>, Answer>
    requires { AreFiles files }
    ensures { Checks (limits_in files.entry) (files_in files.entry) caller (Create name.now size) result }
{
    if caller.spent.is_some() {
        return Err(Answer::Refused(Code::Illegal, 0));
    }
    if !is_name(name) {
        return Err(Answer::Refused(Code::Illegal, 0));
    }
    let Some(size) = to_natural(size) else {
        return Err(Answer::Refused(Code::Illegal, 0));
    };
    if find_name(files, name).is_some() {
        return Err(Answer::Refused(Code::Exists, 0));
    }
    if !has_room(files, size) {
        return Err(Answer::Refused(Code::Extended, ETOT_NOROOM));
    }
    Ok(CheckedUpdate {
        handle: None,
        change: Change::Create {
            name: LentBytes::from_slice(name),
            size: size as u32,
        },
    })
}

// Checks a `delete`: a file with the name.
fn check_delete<'a>(
    files: Files<'_>,
    caller: Caller,
    name: &'a [u8],
) -> Result<CheckedUpdate<'a>, Answer>
    requires { AreFiles files }
    ensures { Checks (limits_in files.entry) (files_in files.entry) caller (Delete name.now) result }
{
    if caller.spent.is_some() {
        return Err(Answer::Refused(Code::Illegal, 0));
    }
    let Some(found) = find_name(files, name) else {
        return Err(Answer::Refused(Code::NoExist, 0));
    };
    if is_foreign(caller.control, found.claim) {
        return Err(Answer::Refused(Code::Claimed, 0));
    }
    Ok(CheckedUpdate {
        handle: None,
        change: Change::Delete { index: found.index },
    })
}

// Checks a `rename`: a file with the handle, and a good name that no file has.
fn check_rename<'a>(
    files: Files<'_>,
    caller: Caller,
    handle: i128,
    name: &'a [u8],
) -> Result<CheckedUpdate<'a>, Answer>
    requires { AreFiles files }
    ensures { Checks (limits_in files.entry) (files_in files.entry) caller (Rename handle name.now) result }
{
    if caller.spent.is_some() {
        return Err(Answer::Refused(Code::Illegal, 0));
    }
    let Some(found) = find_handle(files, handle) else {
        return Err(Answer::Refused(Code::Illegal, 0));
    };
    if !is_name(name) {
        return Err(Answer::Refused(Code::Illegal, 0));
    }
    if find_name(files, name).is_some() {
        return Err(Answer::Refused(Code::Exists, 0));
    }
    if is_foreign(caller.control, found.claim) {
        return Err(Answer::Refused(Code::Claimed, 0));
    }
    Ok(CheckedUpdate {
        handle: Some(found.handle),
        change: Change::Rename {
            index: found.index,
            name: LentBytes::from_slice(name),
        },
    })
}

// Checks an edit: a file with the handle, which the edit fits.
fn check_edit<'a>(
    files: Files<'_>,
    caller: Caller,
    handle: i128,
    edit: &Edit<'a>,
) -> Result<CheckedUpdate<'a>, Answer>
    requires { AreFiles files }
    ensures { Checks (limits_in files.entry) (files_in files.entry) caller
        (model.Edit handle (edit_of edit.now)) result }
{
    let Some(found) = find_handle(files, handle) else {
        return Err(Answer::Refused(Code::Illegal, 0));
    };
    let Some(change) = edit.place(found.index, found.bytes.len()) else {
        return Err(Answer::Refused(Code::Illegal, 0));
    };
    if is_foreign(caller.control, found.claim) {
        return Err(Answer::Refused(Code::Claimed, 0));
    }
    if is_too_costly(files.layout, caller.spent, edit.cost()) {
        return Err(Answer::Refused(Code::Extended, ETOT_NOROOM));
    }
    Ok(CheckedUpdate {
        handle: Some(found.handle),
        change,
    })
}

// Returns whether a cost is more than is left to a transaction that has spent `spent`. Outside one there is no limit.
fn is_too_costly(layout: Layout, spent: Option<usize>, cost: usize) -> bool
    ensures { result ≡ is_over (totals_limits layout) spent cost }
{
    let most = totals_size(layout);
    match spent {
        Some(spent) => spent > most || cost > most - spent,
        None => false,
    }
}
