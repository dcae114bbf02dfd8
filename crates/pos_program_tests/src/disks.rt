use pos_disk::Disk;
use pos_file::{FileDisk, MemoryFile};
use pos_program::{
    FileFault, disk_over, disk_to_read, lengthened, make_totals, mirrored, open_totals,
};
use std::alloc::Global;
use std::fs;
use std::io::ErrorKind;
use std::test::Fail;

/// A file of 16 bytes, each a 1.
fn small_file(alloc: Global) -> Result<MemoryFile, Fail> {
    Ok(MemoryFile::new(vec![in alloc; 1u8; 16]?))
}

/// Whether bytes at the beginning of a disk of 16 bytes are read, and whether they are written.
fn moves(disk: &mut FileDisk<MemoryFile>, bytes: &mut [u8]) -> (bool, bool) {
    if disk.len() != 16 || bytes.len() > 16 {
        return (false, false);
    }
    (disk.read(0, bytes).is_ok(), disk.write(0, bytes).is_ok())
}

#[test]
fn short_transfers_are_faults(rt: HostRuntime) -> Result<(), Fail> {
    let mut file = small_file(rt.alloc())?;
    file.most = 4;
    let mut disk = disk_over(file)?;
    let (fits, exceeds) = (moves(&mut disk, &mut [0; 4]), moves(&mut disk, &mut [0; 5]));
    assert!(rt; fits == (true, true) && exceeds == (false, false) && disk.sync().is_ok());
    assert!(rt; moves(&mut disk, &mut [0; 4]) == (true, true));
    Ok(())
}

/// Whether totals of 16 bytes, each a 1, give what is written to their end.
fn keeps<D: Disk>(totals: &mut D) -> bool {
    let mut bytes = [7; 3];
    if totals.len() != 16 || totals.read(13, &mut bytes).is_err() || bytes != [1, 1, 1] {
        return false;
    }
    totals.write(13, &[2, 3, 4]).is_ok()
        && totals.sync().is_ok()
        && totals.read(13, &mut bytes).is_ok()
        && bytes == [2, 3, 4]
}

#[test]
fn totals_in_a_file_in_memory(rt: HostRuntime) -> Result<(), Fail> {
    let mut totals = mirrored(rt.alloc(), disk_over(small_file(rt.alloc())?)?)?;
    let is_kept = keeps(&mut totals);
    let bytes = totals.below().file().bytes();
    let is_below = bytes.len() == 16 && bytes.starts_with(&[1; 13]) && bytes.ends_with(&[2, 3, 4]);
    assert!(rt; is_kept && is_below);
    Ok(())
}

/// Why a file is no totals.
fn refusal(alloc: Global, file: MemoryFile) -> Result<Option<FileFault>, FileFault> {
    Ok(mirrored(alloc, disk_over(file)?).err())
}

#[test]
fn files_that_are_no_totals(rt: HostRuntime) -> Result<(), Fail> {
    let mut file = small_file(rt.alloc())?;
    file.sync_fault = Some(ErrorKind::Other);
    assert!(rt; matches!(refusal(rt.alloc(), file)?, Some(FileFault::NotSynced)));
    let mut file = small_file(rt.alloc())?;
    file.most = 15;
    assert!(rt; matches!(refusal(rt.alloc(), file)?, Some(FileFault::NotRead)));
    Ok(())
}

#[test]
fn a_file_that_is_not_lengthened(rt: HostRuntime) -> Result<(), Fail> {
    let disk = disk_over(small_file(rt.alloc())?)?;
    assert!(rt; disk.len() == 16);
    let fault = lengthened(rt.alloc(), disk).err();
    assert!(rt; matches!(fault, Some(FileFault::Lengthen(_))));
    Ok(())
}

/// Whether a file of 16 bytes in memory, each a 1, is read as it is, with this answer to the call for a lock.
fn is_read(
    alloc: Global,
    mut file: MemoryFile,
    lock_fault: Option<ErrorKind>,
) -> Result<bool, FileFault> {
    file.lock_fault = lock_fault;
    let totals = mirrored(alloc, disk_to_read(file)?)?;
    Ok(totals.bytes() == [1; 16].as_slice() && totals.below().file().bytes() == [1; 16].as_slice())
}

#[test]
fn totals_that_are_only_read(rt: HostRuntime) -> Result<(), Fail> {
    let file = small_file(rt.alloc())?;
    assert!(rt; is_read(rt.alloc(), file, None)?);
    let file = small_file(rt.alloc())?;
    let locked = is_read(rt.alloc(), file, Some(ErrorKind::WouldBlock));
    assert!(rt; matches!(locked, Err(FileFault::InUse)));
    Ok(())
}

#[test]
fn a_failed_sync_is_for_good(rt: HostRuntime) -> Result<(), Fail> {
    let mut file = small_file(rt.alloc())?;
    file.sync_fault = Some(ErrorKind::Other);
    let mut disk = disk_over(file)?;
    let (before, synced) = (moves(&mut disk, &mut [0; 16]), disk.sync());
    let (after, synced_then) = (moves(&mut disk, &mut [0; 16]), disk.sync());
    assert!(rt; before == (true, true) && after == (false, false));
    assert!(rt; synced.is_err() && synced_then.is_err());
    Ok(())
}

/// Makes totals in a file: whether bytes are written to them, and synced.
fn is_filled(rt: &HostRuntime, path: &str) -> Result<bool, FileFault> {
    let mut totals = make_totals(rt, path)?;
    if totals.len() != 327_680 {
        return Ok(false);
    }
    Ok(totals.write(5, b"abc").is_ok() && totals.write(0, b"d").is_ok() && totals.sync().is_ok())
}

/// The first eight bytes of the totals in a file.
fn filled(rt: &HostRuntime, path: &str) -> Result<[u8; 8], FileFault> {
    let mut bytes = [1; 8];
    let mut totals = open_totals(rt, path)?;
    if totals.len() < 8 || totals.read(0, &mut bytes).is_err() {
        return Err(FileFault::Device);
    }
    Ok(bytes)
}

#[test]
fn a_disk_in_a_file(rt: HostRuntime) -> Result<(), Fail> {
    let path = "a_disk_in_a_file";
    let _ = fs::remove_file(&rt, path);
    assert!(rt; is_filled(&rt, path)?);
    assert!(rt; filled(&rt, path)? == *b"d\0\0\0\0abc");
    let bytes = fs::read(&rt, path)?;
    assert!(rt; bytes.len() == 327_680 && bytes.starts_with(b"d\0\0\0\0abc\0"));
    fs::remove_file(&rt, path)?;
    Ok(())
}
