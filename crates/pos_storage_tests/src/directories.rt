// Spellings of files and of groups, their bounds, and refused growths.
use crate::shared_disks::{BODY, GROUP};
use pos_dir::{
    Change, Directory, DirectoryFault, Group, LAYOUT_1, LAYOUT_2, LentBytes, Limits, apply_group,
    check_group, decode, decode_group, encode, encode_group,
};
use std::alloc::Global;
use std::test::Fail;

// The body of A of two bytes and B of three.
const TWO_FILES: [u8; 19] = [
    0, 2, 1, 0x41, 0, 0, 0, 2, 0, 0, 1, 0x42, 0, 0, 0, 3, 0, 0, 0,
];

// A group of each change: create C of 3 bytes, write 5 and 6 behind its first byte, rename A to Z, delete B, set all
// bytes of Z to 8.
const EACH_CHANGE: [u8; 34] = [
    0, 5, 1, 1, 0x43, 0, 0, 0, 3, 4, 0, 2, 0, 0, 0, 1, 0, 0, 0, 2, 5, 6, 3, 0, 0, 1, 0x5A, 2, 0, 1,
    5, 0, 0, 8,
];

// The body of what it makes of A and B.
const EACH_CHANGED: [u8; 19] = [
    0, 2, 1, 0x5A, 0, 0, 0, 2, 8, 8, 1, 0x43, 0, 0, 0, 3, 0, 5, 6,
];

// Whether a group, once more where a growth was refused that left the files as they were, makes one body of another.
fn makes(alloc: Global, body: &[u8], group: &[u8], wanted: &[u8]) -> Result<bool, DirectoryFault> {
    let changes = decode_group(alloc, group)?;
    let mut directory = decode(alloc, body, LAYOUT_1)?;
    if apply_group(alloc, &mut directory, &changes) == Err(DirectoryFault::NoMemory) {
        if encode(alloc, &directory)?.as_slice() != body {
            return Ok(false);
        }
        apply_group(alloc, &mut directory, &changes)?;
    }
    let spelled = encode_group(alloc, &changes)?;
    Ok(spelled.as_slice() == group && encode(alloc, &directory)?.as_slice() == wanted)
}

#[test]
fn files_and_groups_are_spelled(rt: HostRuntime) -> Result<(), Fail> {
    let alloc = rt.alloc();
    assert!(rt; makes(alloc, &[0, 0], &GROUP, &BODY)?);
    assert!(rt; makes(alloc, &TWO_FILES, &EACH_CHANGE, &EACH_CHANGED)?);
    assert!(rt; encode(alloc, &Directory::new(alloc, LAYOUT_1))?.as_slice() == [0, 0].as_slice());
    let malformed = Some(DirectoryFault::Malformed);
    assert!(rt; decode(alloc, &[0, 0, 0], LAYOUT_1).err() == malformed);
    assert!(rt; decode_group(alloc, &[0, 1, 2, 0, 0, 0]).err() == malformed);
    Ok(())
}

// The body of so many files of no bytes, each with a name of its own.
fn spell_empty_files(alloc: Global, count: u16) -> Result<Vec<u8>, DirectoryFault> {
    let mut body = Vec::from_slice(alloc, &count.to_be_bytes())?;
    for i in 0..count {
        let name = [0x21 + (i / 64 % 64) as u8, 0x21 + (i % 64) as u8];
        body.extend_from_slice(&[2, name[0], name[1], 0, 0, 0, 0])?;
    }
    Ok(body)
}

// The answer to a group that creates A with so many bytes.
fn check_create(alloc: Global, directory: &Directory, size: u32) -> Result<(), DirectoryFault> {
    let mut group = Group::new(alloc);
    let name = LentBytes::from_slice(&[0x41]);
    match group.push(Change::Create { name, size }) {
        Ok(()) => check_group(directory, &group),
        Err((fault, _)) => Err(fault),
    }
}

#[test]
fn each_layout_has_its_limits(rt: HostRuntime) -> Result<(), Fail> {
    let alloc = rt.alloc();
    let layouts: [(Limits, u16, u32); 2] = [(LAYOUT_1, 64, 8_192), (LAYOUT_2, 250, 65_536)];
    for (limits, files, bytes) in layouts {
        let many = spell_empty_files(alloc, files + 1)?;
        assert!(rt; decode(alloc, &many, limits).err() == Some(DirectoryFault::Malformed));
        let full = decode(alloc, &spell_empty_files(alloc, files)?, limits)?;
        assert!(rt; full.len() == files as usize);
        assert!(rt; check_create(alloc, &full, 0) == Err(DirectoryFault::NoRoom));
        let empty = Directory::new(alloc, limits);
        assert!(rt; check_create(alloc, &empty, bytes) == Ok(()));
        assert!(rt; check_create(alloc, &empty, bytes + 1) == Err(DirectoryFault::NoRoom));
    }
    Ok(())
}
