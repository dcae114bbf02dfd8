// Changes of two files, and what they make of them.
use crate::two_files::{disk_with_files, over, recovered_totals, spell};
use pos_disk::Disk;
use pos_service::{Answer, Code, NoMemory};
use pos_totals::{RecoveryFault, Totals};
use std::alloc::{AllocError, Global};
use std::test::Fail;

/// A change: each call alone, and a transaction that writes both files.
#[derive(Clone, Copy, PartialEq, Eq)]
pub enum Change {
    Create,
    Delete,
    Rename,
    Write,
    SetAll,
    Commit,
}

pub const CHANGES: [Change; 6] = [
    Change::Create,
    Change::Delete,
    Change::Rename,
    Change::Write,
    Change::SetAll,
    Change::Commit,
];

/// How the files are spelled before each change.
pub const BEFORE: [u8; 8] = [0x41, 1, 2, 3, 4, 0x42, 0, 0];

// How they are spelled after one.
fn spelled_after(alloc: Global, change: Change) -> Result<Vec<u8>, AllocError> {
    let text = match change {
        Change::Create => vec![in alloc; 0x41, 1, 2, 3, 4, 0x42, 0, 0, 0x43, 0]?,
        Change::Delete => vec![in alloc; 0x42, 0, 0]?,
        Change::Rename => vec![in alloc; 0x43, 1, 2, 3, 4, 0x42, 0, 0]?,
        Change::Write => vec![in alloc; 0x41, 1, 8, 9, 4, 0x42, 0, 0]?,
        Change::SetAll => vec![in alloc; 0x41, 7, 7, 7, 7, 0x42, 0, 0]?,
        Change::Commit => vec![in alloc; 0x41, 1, 8, 9, 4, 0x42, 7, 7]?,
    };
    Ok(text)
}

/// Writes over two bytes of the first file.
pub fn overwrite<D: Disk>(totals: &mut Totals<D>) -> Result<Answer, NoMemory> {
    totals.write(0, 1, 1, &[8, 9])
}

/// Carries out a change, where the files have the handles 1 and 2.
pub fn apply<D: Disk>(totals: &mut Totals<D>, change: Change) -> Result<Answer, NoMemory> {
    match change {
        Change::Create => totals.create(0, b"C", 1, false),
        Change::Delete => totals.delete(0, b"A"),
        Change::Rename => totals.rename(0, 1, b"C"),
        Change::Write => overwrite(totals),
        Change::SetAll => totals.set_all(0, 1, 7),
        Change::Commit => commit_both(totals),
    }
}

// Writes both files in one transaction, where the control has begun one already in that.
fn commit_both<D: Disk>(totals: &mut Totals<D>) -> Result<Answer, NoMemory> {
    let _ = totals.begin_trans(0);
    overwrite(totals)?;
    totals.set_all(0, 2, 7)?;
    totals.commit_trans(0)
}

/// Whether totals, whose handles begin with this one, have the files after a change; those before it, if not.
pub fn is_after<D: Disk>(
    alloc: Global,
    totals: &Totals<D>,
    change: Change,
    first: u8,
) -> Result<bool, Fail> {
    let text = spell(alloc, totals, first)?;
    let is_after = text.as_slice() == spelled_after(alloc, change)?.as_slice();
    if !is_after && text.as_slice() != BEFORE.as_slice() {
        return Err(RecoveryFault::Damaged)?;
    }
    Ok(is_after)
}

// Whether a call succeeded.
fn is_done(answer: Answer) -> bool {
    matches!(answer, Answer::Done(_))
}

// Whether a call was refused with this code.
fn is_refused(answer: Answer, code: Code) -> bool {
    matches!(answer, Answer::Refused(found, 0) if found == code)
}

#[test]
fn a_claim_keeps_others_out(rt: HostRuntime) -> Result<(), Fail> {
    let mut totals = recovered_totals(rt.alloc())?;
    assert!(rt; is_done(totals.claim_file(0, 1, 0)));
    let foreign = totals.write(1, 1, 1, &[8, 9])?;
    assert!(rt; is_refused(foreign, Code::Claimed));
    assert!(rt; is_done(totals.release_file(0, 1)));
    Ok(())
}

// Whether a write is buffered and rolled back.
fn is_rolled_back<D: Disk>(totals: &mut Totals<D>) -> Result<bool, NoMemory> {
    let is_begun = is_done(totals.begin_trans(0));
    overwrite(totals)?;
    Ok(is_begun && is_done(totals.rollback(0)) && !totals.in_transaction(0))
}

#[test]
fn a_rollback_leaves_the_files(rt: HostRuntime) -> Result<(), Fail> {
    let mut totals = recovered_totals(rt.alloc())?;
    assert!(rt; is_rolled_back(&mut totals)?);
    let text = spell(rt.alloc(), &totals, 1)?;
    assert!(rt; text.as_slice() == BEFORE.as_slice());
    Ok(())
}

// Whether the calls of another control that use a file are refused, since the area is claimed.
fn are_claimed<D: Disk>(totals: &mut Totals<D>) -> Result<bool, NoMemory> {
    let found = is_refused(totals.find(1, b"A"), Code::Claimed);
    let named = is_refused(totals.find_by_index(1, 0)?, Code::Claimed);
    let read = is_refused(totals.read(1, 1, 0, 1)?, Code::Claimed);
    let written = is_refused(totals.write(1, 1, 1, &[8, 9])?, Code::Claimed);
    Ok(found && named && read && written)
}

// Whether what isn't refused for the claim of the area fails, since the totals are off.
fn are_off<D: Disk>(totals: &mut Totals<D>) -> bool {
    is_refused(totals.claim_file(1, 1, 0), Code::Failure)
        && is_refused(totals.claim_file(1, 1, -2), Code::Failure)
        && is_refused(totals.find(0, b"A"), Code::Failure)
}

#[test]
fn a_foreign_area_comes_before_a_fault(rt: HostRuntime) -> Result<(), Fail> {
    let mut totals = over(rt.alloc(), disk_with_files(rt.alloc())?)?;
    assert!(rt; totals.claim_area(0).is_ok());
    assert!(rt; are_claimed(&mut totals)?);
    assert!(rt; are_off(&mut totals));
    Ok(())
}
