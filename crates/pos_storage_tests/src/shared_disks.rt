// Disks that the tests share, and their bytes.
use pos_disk::{Disk, MemDisk};
use std::alloc::{AllocError, Global};
use std::test::Fail;

/// The bytes of a disk, and the places of the second slot of layout 1 and of both slots of layout 2.
pub const SIZE: usize = 327_680;

pub const SECOND: usize = 32_768;

pub const THIRD: usize = 65_536;

pub const FOURTH: usize = 196_608;

/// How a formatted disk begins: an open gate, sequence 1, length 2 and the body of no files.
pub const FORMATTED: [u8; 15] = [0xA5, 0, 0, 0, 0, 0, 0, 0, 1, 0, 0, 0, 2, 0, 0];

/// The group of two changes (create A of 4 bytes, write 0xDEADBEEF at its start), and the body that they make.
pub const GROUP: [u8; 24] = [
    0, 2, 1, 1, 0x41, 0, 0, 0, 4, 4, 0, 0, 0, 0, 0, 0, 0, 0, 0, 4, 0xDE, 0xAD, 0xBE, 0xEF,
];

pub const BODY: [u8; 12] = [0, 1, 1, 0x41, 0, 0, 0, 4, 0xDE, 0xAD, 0xBE, 0xEF];

// Puts bytes at a place, where they fit.
fn put(bytes: &mut [u8], at: usize, run: &[u8]) {
    if let Some(place) = bytes
        .get_mut(at..)
        .and_then(|rest| rest.get_mut(..run.len()))
    {
        place.copy_from_slice(run);
    }
}

/// A disk whose places all have one byte but for these runs, each at its place, where they fit.
pub fn disk_of(alloc: Global, rest: u8, runs: &[(usize, &[u8])]) -> Result<MemDisk, AllocError> {
    let mut bytes = vec![in alloc; rest; SIZE]?;
    for (at, run) in runs {
        put(&mut bytes, *at, run);
    }
    MemDisk::new(alloc, bytes)
}

/// What a read of the whole disk gives.
pub fn bytes_of(alloc: Global, disk: &mut MemDisk) -> Result<Vec<u8>, Fail> {
    let mut bytes = vec![in alloc; 0; disk.len() as usize]?;
    disk.read(0, &mut bytes)?;
    Ok(bytes)
}

/// Whether these bytes stand at a place.
pub fn has(bytes: &[u8], at: usize, wanted: &[u8]) -> bool {
    bytes.get(at..).is_some_and(|rest| rest.starts_with(wanted))
}

// Whether such bytes are at each of these places.
pub fn has_all(bytes: &[u8], wanted: &[(usize, &[u8])]) -> bool {
    for (at, run) in wanted {
        if !has(bytes, *at, run) {
            return false;
        }
    }
    true
}
