//! A move to layout 2 is stopped at each of its disk calls. After each crash then a new counter finds the same files,
//! by one layout or the other, and the disk can be moved.
use crate::counters::told;
use pos_disk::{Fill, FuseDisk, MemDisk};
use pos_image::new_disk;
use pos_profile::Profile;
use pos_program::migrate_disk;
use pos_store::StoreFault;
use std::alloc::Global;
use std::test::Fail;

const LINES: &[u8] =
    b"new t HardTotals\nopen t t1\nset t DeviceEnabled true\ncall t create 41 4 false\n\
    call t create 42 4 false\ncall t write 1 0 01020304\n";

const LOOK: &[u8] = b"new t HardTotals\nopen t t1\nset t DeviceEnabled true\nget t TotalsSize\n\
    call t read 1 0 4\ncall t read 2 0 4\nget t NumberOfFiles\n";

const BY_LAYOUT_1: &[u8] = b"ok\nok\nok\nok 8192\nok 01020304\nok 00000000\nok 2\n";

const BY_LAYOUT_2: &[u8] = b"ok\nok\nok\nok 65536\nok 01020304\nok 00000000\nok 2\n";

/// A disk of layout 1 with two files.
fn with_files(alloc: Global) -> Result<MemDisk, Fail> {
    let profile = Profile::built(alloc)?;
    Ok(told(alloc, &profile, new_disk(alloc)?, LINES)?.1)
}

/// What a new counter finds.
fn found(alloc: Global, disk: MemDisk) -> Result<Vec<u8>, Fail> {
    let profile = Profile::built(alloc)?;
    Ok(told(alloc, &profile, disk, LOOK)?.0)
}

/// Whether the files are found on such a disk: by layout 2 where they were moved, else by either. Moved once more, or
/// refused since they have been, they are found by layout 2.
fn keeps_files(alloc: Global, is_moved: bool, disk: MemDisk) -> Result<bool, Fail> {
    let text = found(alloc, disk.crash(Fill::Old)?)?;
    if text.as_slice() != BY_LAYOUT_2 && (is_moved || text.as_slice() != BY_LAYOUT_1) {
        return Ok(false);
    }
    let (disk, outcome) = migrate_disk(alloc, disk);
    if outcome.is_err() && outcome != Err(StoreFault::AlreadyLayout2) {
        return Ok(false);
    }
    Ok(found(alloc, disk)?.as_slice() == BY_LAYOUT_2)
}

/// Whether each crash of a disk keeps the files.
fn crashes_keep_files(alloc: Global, is_moved: bool, disk: &MemDisk) -> Result<bool, Fail> {
    for fill in [Fill::Old, Fill::New, Fill::Byte(0xA5), Fill::Byte(0)] {
        if !keeps_files(alloc, is_moved, disk.crash(fill)?)? {
            return Ok(false);
        }
    }
    Ok(true)
}

#[test]
fn a_move_is_stopped(rt: HostRuntime) -> Result<(), Fail> {
    let alloc = rt.alloc();
    let first = with_files(alloc)?;
    for pass in 0..15u64 {
        let fuse = FuseDisk::new(first.crash(Fill::Old)?, pass, u64::MAX);
        let (fuse, outcome) = migrate_disk(alloc, fuse);
        let is_moved = outcome.is_ok();
        assert!(rt; is_moved == (pass == 14));
        assert!(rt; is_moved || outcome == Err(StoreFault::Device));
        assert!(rt; crashes_keep_files(alloc, is_moved, &fuse.into_inner())?);
    }
    Ok(())
}
