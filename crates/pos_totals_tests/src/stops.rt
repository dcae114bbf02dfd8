// A stop at each call of the disk, and what crashes leave behind it.
use crate::changes::{CHANGES, Change, apply, is_after};
use crate::two_files::{disk_with_files, over};
use pos_disk::{Fill, FuseDisk, MemDisk};
use pos_service::Answer;
use pos_totals::{RecoveryFault, Totals};
use std::alloc::Global;
use std::test::Fail;

type Stopped = Totals<FuseDisk<MemDisk>>;

// Carries out a change over a disk that fails once after `pass` calls, behind a recovery, which is tried again: whether
// the change was done, and the totals.
fn stop(alloc: Global, change: Change, pass: u64) -> Result<(bool, Stopped), Fail> {
    let mut totals = over(alloc, FuseDisk::new(disk_with_files(alloc)?, pass, 1))?;
    if totals.recover() == Err(RecoveryFault::Device) {
        totals.recover()?;
    }
    let is_done = matches!(apply(&mut totals, change)?, Answer::Done(_));
    Ok((is_done, totals))
}

// The stops at the last two calls of a recovery, which has seven, and at each of the four of a change.
fn stop_at_each(alloc: Global, change: Change) -> Result<Vec<(bool, MemDisk)>, Fail> {
    let mut stops = Vec::new(alloc);
    for pass in 5..11 {
        let (is_done, totals) = stop(alloc, change, pass)?;
        stops.push((is_done, totals.into_disk().into_inner()))?;
    }
    Ok(stops)
}

// Whether a crash leaves the files after a change; those before it, if not.
fn leaves_after(alloc: Global, disk: &MemDisk, change: Change, fill: Fill) -> Result<bool, Fail> {
    let mut totals = Totals::new(alloc, disk.crash(fill)?, 1);
    totals.recover()?;
    is_after(alloc, &totals, change, 1)
}

// How often crashes leave the files before a change that was done, after one, before one that wasn't, after one.
fn crash_each(
    alloc: Global,
    stops: &[(bool, MemDisk)],
    change: Change,
    fill: Fill,
) -> Result<[u32; 4], Fail> {
    let mut counts = [0u32; 4];
    for (is_done, disk) in stops {
        let is_after = leaves_after(alloc, disk, change, fill)?;
        let place = 2 * (!*is_done as usize) + is_after as usize;
        counts[place] = counts[place].saturating_add(1);
    }
    Ok(counts)
}

// The last two calls of a change open the new gate: they alone may leave the files after one that wasn't done.
#[test]
fn each_stop_leaves_the_files_before_or_after(rt: HostRuntime) -> Result<(), Fail> {
    for change in CHANGES {
        let stops = stop_at_each(rt.alloc(), change)?;
        for (fill, after) in [(Fill::New, 1), (Fill::Byte(0xA5), 2)] {
            let counts = crash_each(rt.alloc(), &stops, change, fill)?;
            assert_eq!(rt; counts, [0, 2, 4 - after, after]);
        }
    }
    Ok(())
}

// Stops a change, which the next recovery decides: whether it finds the files after it, and the disk.
fn decide(alloc: Global, change: Change, pass: u64) -> Result<(bool, MemDisk), Fail> {
    let (_, mut totals) = stop(alloc, change, pass)?;
    totals.recover()?;
    let is_after = is_after(alloc, &totals, change, 3)?;
    Ok((is_after, totals.into_disk().into_inner()))
}

#[test]
fn a_change_in_doubt_is_decided_once(rt: HostRuntime) -> Result<(), Fail> {
    for pass in 7..11 {
        let (decided, disk) = decide(rt.alloc(), Change::Commit, pass)?;
        assert_eq!(rt; decided, pass == 10, "{pass}");
        for fill in [Fill::Old, Fill::New, Fill::Byte(0xA5), Fill::Byte(0)] {
            let left = leaves_after(rt.alloc(), &disk, Change::Commit, fill)?;
            assert_eq!(rt; left, decided, "{pass}");
        }
    }
    Ok(())
}
