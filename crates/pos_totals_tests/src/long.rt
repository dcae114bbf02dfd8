// What takes long: a recovery over a thousand records, and a transaction of a hundred changes. With ample memory
// neither lacks any.
use crate::two_files::{over, recovered_totals, spell};
use pos_disk::{Disk, MemDisk};
use pos_service::{Answer, NoMemory};
use pos_totals::Totals;
use std::alloc::Global;
use std::test::Fail;

// Sets all bytes of a file so many times, to 1, 2 and so on, with 1 again behind 250: whether each was done.
fn set_often(totals: &mut Totals<MemDisk>, handle: i128, times: u16) -> Result<bool, NoMemory> {
    for number in 0..times {
        let value = (number % 250) as i128 + 1;
        let answer = totals.set_all(0, handle, value)?;
        if !matches!(answer, Answer::Done(_)) {
            return Ok(false);
        }
    }
    Ok(true)
}

// The byte at a place of a disk.
fn byte_at(disk: &mut MemDisk, at: u64) -> u8 {
    let mut byte = [0u8];
    if at < disk.len() {
        let _ = disk.read(at, &mut byte);
    }
    byte[0]
}

// How the files of a disk are spelled behind a recovery.
fn recovered(alloc: Global, disk: MemDisk) -> Result<Vec<u8>, Fail> {
    let mut totals = over(alloc, disk)?;
    totals.recover()?;
    spell(alloc, &totals, 1)
}

// A record of `setAll` takes 11 bytes, so a thousand stand in the log of the first slot, and the second stays closed.
#[test]
fn ample_memory_recovers_a_thousand_records(rt: HostRuntime) -> Result<(), Fail> {
    let mut totals = recovered_totals(rt.alloc())?;
    assert!(rt; set_often(&mut totals, 2, 1_000)?);
    let mut disk = totals.into_disk();
    let gates = [
        byte_at(&mut disk, 0),
        byte_at(&mut disk, 16_384 + 999 * 11),
        byte_at(&mut disk, 16_384 + 1_000 * 11),
        byte_at(&mut disk, 32_768),
    ];
    assert_eq!(rt; gates, [0xA5, 0xA5, 0, 0]);
    let text = recovered(rt.alloc(), disk)?;
    assert_eq!(rt;
        text.as_slice(),
        [0x41u8, 1, 2, 3, 4, 0x42, 250, 250].as_slice()
    );
    Ok(())
}

// Sets the first file 99 times and the second once in one transaction: whether that was done.
fn commit_a_hundred(totals: &mut Totals<MemDisk>) -> Result<bool, NoMemory> {
    let _ = totals.begin_trans(0);
    let are_set = set_often(totals, 1, 99)? && set_often(totals, 2, 1)?;
    Ok(matches!(totals.commit_trans(0)?, Answer::Done(_)) && are_set)
}

// Whether the files of totals are spelled so once they were changed in one transaction.
fn are_spelled(alloc: Global, totals: &mut Totals<MemDisk>, wanted: &[u8]) -> Result<bool, Fail> {
    Ok(commit_a_hundred(totals)? && spell(alloc, totals, 1)?.as_slice() == wanted)
}

#[test]
fn ample_memory_commits_a_hundred_changes(rt: HostRuntime) -> Result<(), Fail> {
    let mut totals = recovered_totals(rt.alloc())?;
    let wanted = [0x41u8, 99, 99, 99, 99, 0x42, 1, 1];
    assert!(rt; are_spelled(rt.alloc(), &mut totals, &wanted)?);
    let text = recovered(rt.alloc(), totals.into_disk())?;
    assert_eq!(rt; text.as_slice(), wanted.as_slice());
    Ok(())
}
