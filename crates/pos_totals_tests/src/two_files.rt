// A disk with two files, totals over it, and what they have.
use pos_disk::{Disk, MemDisk};
use pos_service::{Answer, NoMemory, Value};
use pos_totals::Totals;
use std::alloc::{AllocError, Global};
use std::test::Fail;

// How the image of A, of the bytes 1, 2, 3 and 4, and B, of two zero bytes, stands on a disk with sequence 2.
const FILES: [u8; 33] = [
    0xA5, 0, 0, 0, 0, 0, 0, 0, 2, 0, 0, 0, 20, 0, 2, 1, 0x41, 0, 0, 0, 4, 1, 2, 3, 4, 1, 0x42, 0,
    0, 0, 2, 0, 0,
];

// A disk with these bytes behind so many zero bytes, and zero bytes behind them.
fn disk_of(alloc: Global, before: usize, image: &[u8]) -> Result<MemDisk, AllocError> {
    let mut bytes = vec![in alloc; 0u8; before]?;
    bytes.extend_from_slice(image)?;
    let rest = 327_680usize
        .saturating_sub(before)
        .saturating_sub(image.len());
    bytes.extend_from_slice(&vec![in alloc; 0u8; rest]?)?;
    MemDisk::new(alloc, bytes)
}

/// A disk of layout 1 with these files.
pub fn disk_with_files(alloc: Global) -> Result<MemDisk, AllocError> {
    disk_of(alloc, 0, &FILES)
}

/// A disk of layout 2 with them.
pub fn disk_of_layout_2(alloc: Global) -> Result<MemDisk, AllocError> {
    disk_of(alloc, 65_536, &FILES)
}

/// Totals that are off, whose first handle is 1, with a place for a transaction of one control.
pub fn over<D: Disk + Drop>(alloc: Global, disk: D) -> Result<Totals<D>, NoMemory> {
    let mut totals = Totals::new(alloc, disk, 1);
    totals.add_control()?;
    Ok(totals)
}

/// Totals over a disk of layout 1 with these files, behind a recovery.
pub fn recovered_totals(alloc: Global) -> Result<Totals<MemDisk>, Fail> {
    let mut totals = over(alloc, disk_with_files(alloc)?)?;
    totals.recover()?;
    Ok(totals)
}

// The size of the file with a name, if it has this handle; -1, if not.
fn size_of<D: Disk>(totals: &Totals<D>, name: &[u8], handle: i128) -> i128 {
    match totals.find(0, name) {
        Answer::Done(Value::Pair(found, size)) if found == handle => size,
        _ => -1,
    }
}

// The name and the bytes of the file at an index, if there is one and it has this handle.
fn spell_file<D: Disk>(
    text: &mut Vec<u8>,
    totals: &Totals<D>,
    handle: i128,
    index: i128,
) -> Result<(), Fail> {
    if let Answer::Done(Value::Bytes(name)) = totals.find_by_index(0, index)? {
        let count = size_of(totals, name.as_slice(), handle);
        text.extend_from_slice(name.as_slice())?;
        if let Answer::Done(Value::Bytes(bytes)) = totals.read(0, handle, 0, count)? {
            text.extend_from_slice(bytes.as_slice())?;
        }
    }
    Ok(())
}

/// The names and bytes of all files, whose handles are those from the first one on.
pub fn spell<D: Disk>(alloc: Global, totals: &Totals<D>, first: u8) -> Result<Vec<u8>, Fail> {
    let mut text = Vec::new(alloc);
    for index in 0..4u8 {
        spell_file(
            &mut text,
            totals,
            first as i128 + index as i128,
            index as i128,
        )?;
    }
    Ok(text)
}
