use pos_disk::{Disk, FuseDisk, MemDisk};
use pos_mirror::{MirrorDisk, MirrorFault};
use std::alloc::Global;
use std::test::Fail;

/// A disk that fails on demand.
type Fused = FuseDisk<MemDisk>;

/// A disk of eight bytes, each a 1, that passes the first `pass` calls and fails the next `fail`.
fn fused(alloc: Global, pass: u64, fail: u64) -> Result<Fused, Fail> {
    let ones = vec![in alloc; 1u8; 8]?;
    Ok(FuseDisk::new(MemDisk::new(alloc, ones)?, pass, fail))
}

/// A mirror of it. The first two calls of the disk are those that open the mirror.
fn mirror(alloc: Global, pass: u64, fail: u64) -> Result<MirrorDisk<Fused>, Fail> {
    match MirrorDisk::over(fused(alloc, pass, fail)?, alloc, 8) {
        Ok(mirror) => Ok(mirror),
        Err((why, _)) => Err(why.into()),
    }
}

/// Whether a disk of eight bytes gives these.
fn gives<D: Disk>(disk: &mut D, wanted: [u8; 8]) -> bool {
    let mut bytes = [0; 8];
    disk.len() == 8 && disk.read(0, &mut bytes).is_ok() && bytes == wanted
}

/// Whether a disk of eight bytes takes four from place 2 on.
fn takes<D: Disk>(disk: &mut D) -> bool {
    disk.len() == 8 && disk.write(2, &[2, 3, 4, 5]).is_ok()
}

/// Whether a mirror is lost after so many calls of the disk below.
fn is_lost_after(mirror: &MirrorDisk<Fused>, calls: u64) -> bool {
    mirror.is_lost() && mirror.below().calls() == calls
}

/// Whether a disk of eight bytes refuses each call.
fn refuses<D: Disk>(disk: &mut D) -> bool {
    disk.len() == 8 && disk.read(0, &mut [0; 8]).is_err() && !takes(disk) && disk.sync().is_err()
}

#[test]
fn a_write_is_in_the_disk_below(rt: HostRuntime) -> Result<(), Fail> {
    let mut mirror = mirror(rt.alloc(), 9, 0)?;
    assert!(rt; takes(&mut mirror) && gives(&mut mirror, [1, 1, 2, 3, 4, 5, 1, 1]));
    assert!(rt; mirror.sync().is_ok() && mirror.below().calls() == 4 && !mirror.is_lost());
    assert!(rt; gives(&mut mirror.into_below(), [1, 1, 2, 3, 4, 5, 1, 1]));
    Ok(())
}

#[test]
fn a_failed_write_shows_what_the_disk_has(rt: HostRuntime) -> Result<(), Fail> {
    let mut mirror = mirror(rt.alloc(), 2, 1)?;
    assert!(rt; !takes(&mut mirror) && !mirror.is_lost() && mirror.below().calls() == 4);
    assert!(rt; gives(&mut mirror, [1, 1, 2, 3, 1, 1, 1, 1]));
    assert!(rt; takes(&mut mirror) && gives(&mut mirror, [1, 1, 2, 3, 4, 5, 1, 1]));
    assert!(rt; gives(&mut mirror.into_below(), [1, 1, 2, 3, 4, 5, 1, 1]));
    Ok(())
}

#[test]
fn a_failed_reading_loses_the_mirror(rt: HostRuntime) -> Result<(), Fail> {
    let mut mirror = mirror(rt.alloc(), 2, 2)?;
    assert!(rt; !takes(&mut mirror) && is_lost_after(&mirror, 4));
    assert!(rt; refuses(&mut mirror) && is_lost_after(&mirror, 4));
    assert!(rt; gives(&mut mirror.into_below(), [1, 1, 2, 3, 1, 1, 1, 1]));
    Ok(())
}

#[test]
fn a_failed_sync_loses_the_mirror(rt: HostRuntime) -> Result<(), Fail> {
    let mut mirror = mirror(rt.alloc(), 2, 1)?;
    assert!(rt; mirror.sync().is_err() && is_lost_after(&mirror, 3));
    assert!(rt; refuses(&mut mirror) && is_lost_after(&mirror, 3));
    assert!(rt; gives(&mut mirror.into_below(), [1; 8]));
    Ok(())
}

/// Why no mirror is over a disk, and how many calls the disk has had that is handed back.
fn refusal(alloc: Global, pass: u64) -> Result<Option<(MirrorFault, u64)>, Fail> {
    match MirrorDisk::over(fused(alloc, pass, 1)?, alloc, 8) {
        Ok(_) => Ok(None),
        Err((why, disk)) => Ok(Some((why, disk.calls()))),
    }
}

#[test]
fn a_refused_disk_is_handed_back(rt: HostRuntime) -> Result<(), Fail> {
    assert!(rt; refusal(rt.alloc(), 0)? == Some((MirrorFault::Sync, 1)));
    assert!(rt; refusal(rt.alloc(), 1)? == Some((MirrorFault::Read, 2)));
    assert!(rt; refusal(rt.alloc(), 2)? == None);
    Ok(())
}

#[test]
fn a_mirror_of_the_first_bytes(rt: HostRuntime) -> Result<(), Fail> {
    let answer = MirrorDisk::over(fused(rt.alloc(), 9, 0)?, rt.alloc(), 5);
    assert!(rt; answer.is_ok_and(|mirror| mirror.len() == 5 && mirror.below().len() == 8));
    Ok(())
}
