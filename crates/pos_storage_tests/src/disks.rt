// Crashes of a disk in memory, behind writes of which one fails.
ghost use Rattle.std.specs.Prelude.{◌≡◌, ◌≤◌};

use crate::shared_disks::{SIZE, bytes_of, disk_of, has};
use pos_disk::{Disk, DiskFault, Fill, FuseDisk, MemDisk};
use std::alloc::Global;
use std::test::Fail;

// Whether crashes leave these bytes at the start, one of each fill: old, new and the byte 9; and a 1 everywhere else.
fn leave(alloc: Global, disk: &MemDisk, wanted: [[u8; 6]; 3]) -> Result<bool, Fail> {
    for (fill, start) in [
        (Fill::Old, wanted[0]),
        (Fill::New, wanted[1]),
        (Fill::Byte(9), wanted[2]),
    ] {
        let bytes = bytes_of(alloc, &mut disk.crash(fill)?)?;
        let others = start.iter().filter(|byte| **byte != 1).count();
        let ones = bytes.iter().filter(|byte| **byte == 1).count();
        if !has(&bytes, 0, &start) || ones.saturating_add(others) != SIZE {
            return Ok(false);
        }
    }
    Ok(true)
}

// Two writes, with a sync behind the first.
fn write_twice<D: Disk>(disk: &mut D) -> Result<(), DiskFault>
    requires { 8 ≤ D.size disk.old }
    ensures { D.size disk.new ≡ D.size disk.old }
{
    disk.write(1, &[20, 30])?;
    disk.sync()?;
    disk.write(2, &[31, 41, 51])
}

// The disk behind two writes, of which the last fails where two calls pass.
fn written(alloc: Global, pass: u64) -> Result<MemDisk, Fail> {
    let mut fuse = FuseDisk::new(disk_of(alloc, 1, &[])?, pass, 1);
    if fuse.len() >= 8 {
        let _ = write_twice(&mut fuse);
    }
    Ok(fuse.into_inner())
}

#[test]
fn a_crash_fills_the_loose_places(rt: HostRuntime) -> Result<(), Fail> {
    let old = [1, 20, 30, 1, 1, 1];
    let new = [1, 20, 31, 41, 51, 1];
    let mut disk = written(rt.alloc(), 3)?;
    assert!(rt; leave(rt.alloc(), &disk, [old, new, [1, 20, 9, 9, 9, 1]])?);
    disk.sync()?;
    assert!(rt; leave(rt.alloc(), &disk, [new; 3])?);
    Ok(())
}

#[test]
fn a_failed_write_puts_down_half(rt: HostRuntime) -> Result<(), Fail> {
    let disk = written(rt.alloc(), 2)?;
    let old = [1, 20, 30, 1, 1, 1];
    let new = [1, 20, 31, 1, 1, 1];
    assert!(rt; leave(rt.alloc(), &disk, [old, new, [1, 20, 9, 9, 9, 1]])?);
    Ok(())
}

#[test]
fn a_read_changes_nothing(rt: HostRuntime) -> Result<(), Fail> {
    let mut disk = written(rt.alloc(), 3)?;
    let mut bytes = [0; 3];
    assert!(rt; disk.len() >= 8);
    assert!(rt; disk.read(2, &mut bytes).is_ok() && bytes == [31, 41, 51]);
    let (old, new) = ([1, 20, 30, 1, 1, 1], [1, 20, 31, 41, 51, 1]);
    assert!(rt; leave(rt.alloc(), &disk, [old, new, [1, 20, 9, 9, 9, 1]])?);
    Ok(())
}
