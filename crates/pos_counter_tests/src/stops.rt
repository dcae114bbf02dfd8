//! Each call that reaches the disk is stopped at each of its disk calls. Then the totals are off and the disk is left
//! alone, and crashes leave the files before the call or after the whole of it.
use crate::counters::told;
use crate::rows::{ENABLING, Row, changes};
use crate::stopped_call::StoppedCall;
use pos_disk::{FuseDisk, MemDisk};
use pos_image::new_disk;
use pos_profile::Profile;
use std::alloc::Global;
use std::test::Fail;

/// A disk with the files of the table, each change a record of its log.
fn with_room(alloc: Global) -> Result<MemDisk, Fail> {
    let lines = b"new t HardTotals\nopen t t1\nset t DeviceEnabled true\ncall t create 41 4 false\n\
        call t create 42 4 false\ncall t write 1 0 01020304\n";
    let profile = Profile::built(alloc)?;
    Ok(told(alloc, &profile, new_disk(alloc)?, lines)?.1)
}

/// Lines that fill a log with records of another file, which has this handle and is deleted in the end. The last write
/// is of so many bytes.
fn filling(alloc: Global, handle: u8, last: usize) -> Result<String, Fail> {
    let mut lines = String::from_str(alloc, "call t create 43 8000 false\n")?;
    for bytes in [8_000, 8_000, last] {
        lines.push_str(format!(in alloc; "call t write {handle} 0 ")?.as_str())?;
        for _ in 0..bytes {
            lines.push_str("00")?;
        }
        lines.push_str("\n")?;
    }
    lines.push_str("call t delete 43\n")?;
    Ok(lines)
}

/// A disk with these files, whose log has no room for any change, while the other slot is open.
fn without_room(alloc: Global) -> Result<MemDisk, Fail> {
    let mut lines = String::from_str(
        alloc,
        "new t HardTotals\nopen t t1\nset t DeviceEnabled true\n",
    )?;
    lines.push_str(filling(alloc, 3, 250)?.as_str())?;
    lines.push_str(filling(alloc, 4, 315)?.as_str())?;
    let profile = Profile::built(alloc)?;
    Ok(told(alloc, &profile, with_room(alloc)?, lines.as_bytes())?.1)
}

/// Stops a call at each of its disk calls, over a disk whose log has room or hasn't: how often.
fn stop_call(alloc: Global, has_room: bool, row: Row) -> Result<u64, Fail> {
    let disk = if has_room {
        with_room(alloc)
    } else {
        without_room(alloc)
    };
    StoppedCall::new(alloc, disk?, row)?.stop_at_each()
}

#[test]
fn an_enabling_is_stopped(rt: HostRuntime) -> Result<(), Fail> {
    for has_room in [true, false] {
        assert_eq!(rt; stop_call(rt.alloc(), has_room, ENABLING)?, 7);
    }
    Ok(())
}

/// Stops each change at each of its disk calls: how often in all.
fn stop_changes(alloc: Global, has_room: bool) -> Result<u64, Fail> {
    let mut stops: u64 = 0;
    for row in changes() {
        stops = stops.saturating_add(stop_call(alloc, has_room, row)?);
    }
    Ok(stops)
}

#[test]
fn a_change_is_stopped(rt: HostRuntime) -> Result<(), Fail> {
    for (has_room, stops) in [(true, 24), (false, 54)] {
        assert_eq!(rt; stop_changes(rt.alloc(), has_room)?, stops);
    }
    Ok(())
}

/// Two enabled controls, of which u holds the area of the totals.
const HELD: &str =
    "new t HardTotals\nopen t t1\nset t DeviceEnabled true\nnew u HardTotals\nopen u t1\n\
    set u DeviceEnabled true\nclaim u 0\n";

/// A change in which the disk fails, so that the totals are off. Then the calls of t that u's claim refuses, and last
/// what it doesn't refuse, which is looked at neither for a bad timeout nor for u's claim.
const BEHIND: &str = "call u delete 41\n\
    call t create 44 1 false\ncall t delete 41\ncall t find 41\ncall t findByIndex 0\ncall t read 1 0 4\n\
    call t write 1 0 05\ncall t setAll 1 5\ncall t rename 1 44\ncall t commitTrans\n\
    call t claimFile 1 0\ncall t claimFile 1 -2\ncall t releaseFile 1\ncall t beginTrans\ncall t rollback\n\
    get t FreeData\nget t NumberOfFiles\n";

const TOLD: &[u8] = b"ok\nok\nok\nok\nok\nok\nok\nerr 111\n\
    err 102\nerr 102\nerr 102\nerr 102\nerr 102\nerr 102\nerr 102\nerr 102\nerr 102\n\
    err 111\nerr 111\nerr 111\nerr 111\nerr 111\nerr 111\nerr 111\n";

/// Runs lines over a disk that fails so often behind so many calls: what they print, and how many calls they make.
fn run_over(alloc: Global, (pass, fail): (u64, u64), lines: &str) -> Result<(Vec<u8>, u64), Fail> {
    let profile = Profile::built(alloc)?;
    let fuse = FuseDisk::new(with_room(alloc)?, pass, fail);
    let (text, fuse) = told(alloc, &profile, fuse, lines.as_bytes())?;
    Ok((text, fuse.calls()))
}

#[test]
fn a_claimed_area_comes_before_a_fault(rt: HostRuntime) -> Result<(), Fail> {
    let alloc = rt.alloc();
    let (_, calls) = run_over(alloc, (0, 0), HELD)?;
    let mut lines = String::from_str(alloc, HELD)?;
    lines.push_str(BEHIND)?;
    let (text, _) = run_over(alloc, (calls, u64::MAX), lines.as_str())?;
    assert!(rt; text.as_slice() == TOLD);
    Ok(())
}
