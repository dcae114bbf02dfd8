// Refused growths, answers that ample memory gives, and texts.
use crate::changes::{BEFORE, CHANGES, Change, apply, is_after, overwrite};
use crate::two_files::{disk_of_layout_2, disk_with_files, over, recovered_totals, spell};
use pos_disk::MemDisk;
use pos_service::{Answer, Value};
use pos_totals::{RecoveryFault, Totals};
use std::alloc::Global;
use std::test::Fail;

// A recovery and a change, each once more where a growth was refused: whether nothing had changed then.
fn with_repeats(alloc: Global, totals: &mut Totals<MemDisk>, change: Change) -> Result<bool, Fail> {
    let mut is_unchanged = true;
    if totals.recover() == Err(RecoveryFault::NoMemory) {
        is_unchanged = !totals.is_ready();
        totals.recover()?;
    }
    if apply(totals, change).is_err() {
        is_unchanged &= spell(alloc, totals, 1)?.as_slice() == BEFORE.as_slice();
        apply(totals, change)?;
    }
    Ok(is_unchanged)
}

// Whether totals that are off have the whole of a change in the end, and nothing of it where a growth was refused.
fn is_whole(alloc: Global, totals: &mut Totals<MemDisk>, change: Change) -> Result<bool, Fail> {
    let first = if change == Change::Delete { 2 } else { 1 };
    Ok(with_repeats(alloc, totals, change)? && is_after(alloc, totals, change, first)?)
}

#[test]
fn a_refused_growth_changes_nothing(rt: HostRuntime) -> Result<(), Fail> {
    for change in CHANGES {
        let mut totals = over(rt.alloc(), disk_with_files(rt.alloc())?)?;
        assert!(rt; is_whole(rt.alloc(), &mut totals, change)?);
    }
    Ok(())
}

// Buffers a write, and commits what is buffered: whether the write is on the disk where it was answered, and not where
// a growth was refused.
fn buffers_once(alloc: Global, totals: &mut Totals<MemDisk>) -> Result<bool, Fail> {
    let _ = totals.begin_trans(0);
    let is_buffered = overwrite(totals).is_ok();
    totals.commit_trans(0)?;
    Ok(is_after(alloc, totals, Change::Write, 1)? == is_buffered)
}

#[test]
fn a_refused_growth_buffers_nothing(rt: HostRuntime) -> Result<(), Fail> {
    let mut totals = recovered_totals(rt.alloc())?;
    assert!(rt; buffers_once(rt.alloc(), &mut totals)?);
    Ok(())
}

// Fills what is free with a third file, and gives what a read of it answers.
fn fill_up(totals: &mut Totals<MemDisk>, bytes: &[u8]) -> Result<Answer, Fail> {
    let size = bytes.len() as i128;
    totals.create(0, b"C", size, true)?;
    totals.write(0, 3, 0, bytes)?;
    Ok(totals.read(0, 3, 0, size)?)
}

// Whether a third file of these bytes may be written whole into totals that are off, and nothing is free then.
fn is_filled(totals: &mut Totals<MemDisk>, bytes: &[u8]) -> Result<bool, Fail> {
    totals.recover()?;
    let read = fill_up(totals, bytes)?;
    let is_read = matches!(&read, Answer::Done(Value::Bytes(it)) if it.as_slice() == bytes);
    Ok(is_read && totals.is_ready() && totals.free() == 0)
}

// The same of a disk and a file of so many bytes.
fn fills_up(alloc: Global, disk: MemDisk, size: usize) -> Result<bool, Fail> {
    let bytes = vec![in alloc; 7u8; size]?;
    let mut totals = over(alloc, disk)?;
    is_filled(&mut totals, &bytes)
}

#[test]
fn the_largest_write(rt: HostRuntime) -> Result<(), Fail> {
    let alloc = rt.alloc();
    assert!(rt; fills_up(alloc, disk_with_files(alloc)?, 8_186)?);
    assert!(rt; fills_up(alloc, disk_of_layout_2(alloc)?, 65_530)?);
    Ok(())
}

// What TotalsSize is before a recovery of a disk and behind it.
fn sizes(alloc: Global, disk: MemDisk) -> Result<(usize, usize), Fail> {
    let mut totals = over(alloc, disk)?;
    let before = totals.size();
    totals.recover()?;
    Ok((before, totals.size()))
}

#[test]
fn the_size_goes_by_the_layout(rt: HostRuntime) -> Result<(), Fail> {
    let alloc = rt.alloc();
    assert_eq!(rt; sizes(alloc, disk_with_files(alloc)?)?, (8_192, 8_192));
    assert_eq!(rt; sizes(alloc, disk_of_layout_2(alloc)?)?, (8_192, 65_536));
    Ok(())
}

#[test]
fn faults_are_told(rt: HostRuntime) -> Result<(), Fail> {
    for (fault, wanted) in [
        (RecoveryFault::Unformatted, "the disk isn't formatted"),
        (RecoveryFault::Damaged, "the disk is damaged"),
        (RecoveryFault::Handles, "the file handles have run out"),
        (RecoveryFault::NoMemory, "out of memory"),
        (RecoveryFault::Device, "the disk failed"),
    ] {
        assert_eq!(rt; format!(in rt.alloc(); "{fault}")?.as_str(), wanted);
    }
    Ok(())
}
