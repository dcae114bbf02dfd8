// The files of a store: on the disk, after a stop at each call of it, and after refused growths.
use crate::shared_disks::{BODY, FORMATTED, GROUP, SECOND, THIRD, bytes_of, disk_of, has_all};
use pos_dir::{DirectoryFault, Group, decode_group};
use pos_disk::{Disk, DiskFault, Fill, FuseDisk, MemDisk};
use pos_image::{ImageFault, Layout};
use pos_store::{Mode, Store, StoreFault};
use std::alloc::{AllocError, Global};
use std::test::Fail;

// The log of a formatted disk.
const LOG: usize = 16_384;

// A record of 16,367 bytes, nearly all of them zero: it makes a file, writes it twice and deletes it. Its first bytes,
// those of the second write, and those of the deletion.
const MADE: [u8; 25] = [
    0xA5, 0, 0, 0x3F, 0xEA, 0, 4, 1, 1, 0x41, 0, 0, 0x20, 0, 4, 0, 0, 0, 0, 0, 0, 0, 0, 0x20, 0,
];

const WRITTEN: [u8; 11] = [4, 0, 0, 0, 0, 0, 0, 0, 0, 0x1F, 0xC8];

const DELETED: [u8; 3] = [2, 0, 0];

// How a body of no files stands on a disk with sequence 2, behind a formatted slot.
const AGAIN: [u8; 15] = [0xA5, 0, 0, 0, 0, 0, 0, 0, 2, 0, 0, 0, 2, 0, 0];

// A formatted disk with this log.
fn fresh(alloc: Global, log: &[u8]) -> Result<MemDisk, AllocError> {
    disk_of(alloc, 0, &[(0, FORMATTED.as_slice()), (LOG, log)])
}

// A formatted disk with these bytes in its other slot, and a log at this place behind whose record no two changes fit.
// Where the other slot has an image, the gate of the first is to be closed before a new one.
fn full(alloc: Global, second: &[u8], at: usize) -> Result<MemDisk, AllocError> {
    let runs = [
        (0, FORMATTED.as_slice()),
        (SECOND, second),
        (at, MADE.as_slice()),
        (at.saturating_add(8_217), WRITTEN.as_slice()),
        (at.saturating_add(16_364), DELETED.as_slice()),
    ];
    disk_of(alloc, 0, &runs)
}

// Whether a store has the file of the two changes; none at all, if not.
fn is_after<D: Disk>(store: &Store<D>) -> Result<bool, StoreFault> {
    let files = store.files().ok_or(StoreFault::Off)?;
    match files.bytes(0) {
        None => Ok(false),
        Some(bytes) if files.len() == 1 && bytes == &BODY[8..] => Ok(true),
        Some(_) => Err(StoreFault::Damaged),
    }
}

// A recovery and a commit, each once more where a growth was refused, if nothing had changed then.
fn apply<D: Disk>(store: &mut Store<D>, group: &Group<'_>) -> Result<(), StoreFault> {
    if store.recover() == Err(StoreFault::NoMemory) && store.mode() == Mode::Off {
        store.recover()?;
    }
    match commit(store, group) {
        Err(StoreFault::NoMemory) if is_after(store) == Ok(false) => commit(store, group),
        answer => answer,
    }
}

// A commit of a group, which isn't empty here.
fn commit<D: Disk>(store: &mut Store<D>, group: &Group<'_>) -> Result<(), StoreFault> {
    if group.len() == 0 {
        return Err(StoreFault::Damaged);
    }
    store.commit(group)
}

#[test]
fn a_group_on_the_disk(rt: HostRuntime) -> Result<(), Fail> {
    let alloc = rt.alloc();
    let mut store = Store::new(alloc, fresh(alloc, &[])?);
    apply(&mut store, &decode_group(alloc, &GROUP)?)?;
    assert!(rt; is_after(&store) == Ok(true));
    let bytes = bytes_of(alloc, &mut store.into_disk())?;
    let runs = [
        (LOG, [0xA5, 0, 0, 0, 24].as_slice()),
        (LOG + 5, GROUP.as_slice()),
        (LOG + 29, [0].as_slice()),
        (0, FORMATTED.as_slice()),
        (SECOND, [0].as_slice()),
    ];
    assert!(rt; has_all(&bytes, &runs));
    Ok(())
}

// Creates B and then A, which is there; and writes four bytes of A from place 1 on, and from place 0 on.
const CREATES: [u8; 16] = [0, 2, 1, 1, 0x42, 0, 0, 0, 0, 1, 1, 0x41, 0, 0, 0, 0];

const PASSES_THE_END: [u8; 17] = [0, 1, 4, 0, 0, 0, 0, 0, 1, 0, 0, 0, 4, 1, 2, 3, 4];

const OVERWRITES: [u8; 17] = [0, 1, 4, 0, 0, 0, 0, 0, 0, 0, 0, 0, 4, 1, 2, 3, 4];

// What a commit of the group with these bytes comes to.
fn committed<D: Disk>(alloc: Global, store: &mut Store<D>, text: &[u8]) -> Result<(), StoreFault> {
    let Ok(group) = decode_group(alloc, text) else {
        return Err(StoreFault::NoMemory);
    };
    commit(store, &group)
}

// The disk works for the recovery and one commit alone, so a refusal hasn't called it.
#[test]
fn a_group_that_is_not_applicable(rt: HostRuntime) -> Result<(), Fail> {
    let alloc = rt.alloc();
    let mut store = Store::new(alloc, FuseDisk::new(fresh(alloc, &[])?, 11, 1));
    assert!(rt; committed(alloc, &mut store, &CREATES) == Err(StoreFault::Off));
    apply(&mut store, &decode_group(alloc, &GROUP)?)?;
    for (text, fault) in [
        (CREATES.as_slice(), DirectoryFault::Exists),
        (PASSES_THE_END.as_slice(), DirectoryFault::Range),
    ] {
        assert!(rt; committed(alloc, &mut store, text) == Err(StoreFault::Refused(fault)));
        assert!(rt; is_after(&store) == Ok(true));
    }
    assert!(rt; committed(alloc, &mut store, &OVERWRITES) == Err(StoreFault::Device));
    assert!(rt; store.mode() == Mode::Off);
    Ok(())
}

#[test]
fn a_group_that_does_not_fit(rt: HostRuntime) -> Result<(), Fail> {
    let alloc = rt.alloc();
    let mut store = Store::new(alloc, full(alloc, &[], LOG)?);
    apply(&mut store, &decode_group(alloc, &GROUP)?)?;
    assert!(rt; is_after(&store) == Ok(true));
    let head = [0xA5, 0, 0, 0, 0, 0, 0, 0, 2, 0, 0, 0, 12];
    let bytes = bytes_of(alloc, &mut store.into_disk())?;
    let runs = [
        (SECOND, head.as_slice()),
        (SECOND + 13, BODY.as_slice()),
        (SECOND + LOG, [0].as_slice()),
        (LOG, MADE.as_slice()),
    ];
    assert!(rt; has_all(&bytes, &runs));
    Ok(())
}

// A migration behind a recovery, each once more where a growth was refused, if nothing had changed then.
fn move_files<D: Disk>(store: &mut Store<D>) -> Result<(), StoreFault> {
    if store.recover() == Err(StoreFault::NoMemory) && store.mode() == Mode::Off {
        store.recover()?;
    }
    match store.migrate() {
        Err(StoreFault::NoMemory) if is_after(store) == Ok(true) => store.migrate(),
        answer => answer,
    }
}

// Whether a store has the file of the two changes by layout 2, and can't be moved again.
fn is_moved<D: Disk>(store: &mut Store<D>) -> bool {
    is_after(store) == Ok(true)
        && store.layout() == Layout::Layout2
        && store.migrate() == Err(StoreFault::AlreadyLayout2)
}

#[test]
fn files_that_are_moved(rt: HostRuntime) -> Result<(), Fail> {
    let alloc = rt.alloc();
    let mut store = Store::new(alloc, fresh(alloc, &[])?);
    assert!(rt; store.migrate() == Err(StoreFault::Off));
    apply(&mut store, &decode_group(alloc, &GROUP)?)?;
    move_files(&mut store)?;
    assert!(rt; is_moved(&mut store));
    let bytes = bytes_of(alloc, &mut store.into_disk())?;
    let runs = [
        (
            THIRD,
            [0xA5, 0, 0, 0, 0, 0, 0, 0, 1, 0, 0, 0, 12].as_slice(),
        ),
        (THIRD + 13, BODY.as_slice()),
        (THIRD + 81_920, [0].as_slice()),
        (0, FORMATTED.as_slice()),
        (LOG, [0xA5, 0, 0, 0, 24].as_slice()),
        (SECOND, [0].as_slice()),
    ];
    assert!(rt; has_all(&bytes, &runs));
    Ok(())
}

// Whether a formatted disk with this log has the file of the two changes, or why it isn't recovered.
fn recovered(alloc: Global, log: &[u8]) -> Result<bool, StoreFault> {
    let Ok(disk) = fresh(alloc, log) else {
        return Err(StoreFault::NoMemory);
    };
    let mut store = Store::new(alloc, disk);
    store.recover()?;
    is_after(&store)
}

// No record; one that was torn; one that is a byte too long; an empty group; bytes that are no group; a
// group that isn't applicable.
#[test]
fn disks_with_a_log(rt: HostRuntime) -> Result<(), Fail> {
    let damaged = Err(StoreFault::Damaged);
    for (log, wanted) in [
        ([].as_slice(), Ok(false)),
        ([0, 0, 0, 0, 2, 0, 0].as_slice(), Ok(false)),
        ([0xA5, 0, 0, 0x3F, 0xFB].as_slice(), damaged),
        ([0xA5, 0, 0, 0, 2, 0, 0].as_slice(), damaged),
        ([0xA5, 0, 0, 0, 1, 0].as_slice(), damaged),
        ([0xA5, 0, 0, 0, 5, 0, 1, 2, 0, 0].as_slice(), damaged),
    ] {
        assert_eq!(rt; recovered(rt.alloc(), log), wanted);
    }
    Ok(())
}

// Commits over a disk that fails so often after `pass` calls, behind as many recoveries: whether the commit was
// acknowledged, and the disk within.
fn stop(alloc: Global, disk: MemDisk, pass: u64, fail: u64) -> Result<(bool, MemDisk), Fail> {
    let group = decode_group(alloc, &GROUP)?;
    let mut store = Store::new(alloc, FuseDisk::new(disk, pass, fail));
    for _ in 0..fail {
        let _ = store.recover();
    }
    let is_done = apply(&mut store, &group).is_ok();
    Ok((is_done, store.into_disk().into_inner()))
}

// The stops at each of so many calls over a disk with these bytes in its other slot, and a full log at a place.
fn stop_at_each(
    alloc: Global,
    (second, log): (&[u8], Option<usize>),
    calls: u64,
    fail: u64,
) -> Result<Vec<(bool, MemDisk)>, Fail> {
    let mut stops = Vec::new(alloc);
    for pass in 0..calls {
        let disk = match log {
            None => fresh(alloc, &[])?,
            Some(at) => full(alloc, second, at)?,
        };
        stops.push(stop(alloc, disk, pass, fail)?)?;
    }
    Ok(stops)
}

// How often crashes leave the files before a commit that was acknowledged, after one, before one that wasn't, and after
// one.
fn crash_each(alloc: Global, stops: &[(bool, MemDisk)], fill: Fill) -> Result<[u32; 4], Fail> {
    let mut counts = [0u32; 4];
    for (is_done, disk) in stops {
        let mut store = Store::new(alloc, disk.crash(fill)?);
        store.recover()?;
        let place = 2 * (!*is_done as usize) + is_after(&store)? as usize;
        counts[place] = counts[place].saturating_add(1);
    }
    Ok(counts)
}

// How often crashes of these stops leave what, by how the loose places are filled.
fn crash_by_fill(alloc: Global, stops: &[(bool, MemDisk)]) -> Result<[[u32; 4]; 4], Fail> {
    Ok([
        crash_each(alloc, stops, Fill::Old)?,
        crash_each(alloc, stops, Fill::New)?,
        crash_each(alloc, stops, Fill::Byte(0xA5))?,
        crash_each(alloc, stops, Fill::Byte(0))?,
    ])
}

// A recovery is seven calls, and is tried again. A commit by a record is four, the last two of which open the gate of
// its record: they alone may leave the files after a commit that wasn't acknowledged. One that makes an image is seven
// calls, or nine where a gate is closed first; the last two open the new gate.
#[test]
fn each_stop_of_a_commit(rt: HostRuntime) -> Result<(), Fail> {
    let nothing: &[u8] = &[];
    let (by_record, by_image) = ((nothing, None), (nothing, Some(LOG)));
    let by_later_image: (&[u8], Option<usize>) = (&AGAIN, Some(SECOND + LOG));
    let later = [[0, 7, 9, 0], [0, 7, 8, 1], [0, 7, 7, 2], [0, 7, 9, 0]];
    for (before, calls, fail, wanted) in [
        (
            by_record,
            11,
            1,
            [[0, 7, 4, 0], [0, 7, 3, 1], [0, 7, 2, 2], [0, 7, 4, 0]],
        ),
        (
            by_image,
            14,
            1,
            [[0, 7, 7, 0], [0, 7, 6, 1], [0, 7, 5, 2], [0, 7, 7, 0]],
        ),
        (by_later_image, 16, 1, later),
        (by_later_image, 16, 3, later),
    ] {
        let stops = stop_at_each(rt.alloc(), before, calls, fail)?;
        let counts = crash_by_fill(rt.alloc(), &stops)?;
        assert_eq!(rt; counts, wanted, "{calls} calls, {fail} faults");
    }
    Ok(())
}

// Moves the file of a record over a disk that fails once after `pass` calls, behind a recovery: whether the move was
// acknowledged, and the disk within.
fn stop_move(alloc: Global, pass: u64) -> Result<(bool, MemDisk), Fail> {
    let mut log = Vec::from_slice(alloc, &[0xA5, 0, 0, 0, 24])?;
    log.extend_from_slice(&GROUP)?;
    let mut store = Store::new(alloc, FuseDisk::new(fresh(alloc, &log)?, pass, 1));
    let _ = store.recover();
    let is_done = move_files(&mut store).is_ok();
    Ok((is_done, store.into_disk().into_inner()))
}

// How often a crash leaves the file by layout 1 and by layout 2 after a move that was acknowledged, and after one that
// wasn't.
fn crash_moves(alloc: Global, stops: &[(bool, MemDisk)], fill: Fill) -> Result<[u32; 4], Fail> {
    let mut counts = [0u32; 4];
    for (is_done, disk) in stops {
        let mut store = Store::new(alloc, disk.crash(fill)?);
        store.recover()?;
        let is_moved = store.layout() == Layout::Layout2;
        let place = 2 * (!*is_done as usize) + is_moved as usize;
        counts[place] = counts[place].saturating_add(is_after(&store)? as u32);
    }
    Ok(counts)
}

// A recovery is seven calls, and is tried again. A migration is seven, the last two of which open the gate of the new
// image: they alone may leave layout 2 where it wasn't acknowledged.
#[test]
fn each_stop_of_a_migration(rt: HostRuntime) -> Result<(), Fail> {
    let alloc = rt.alloc();
    let mut stops = Vec::new(alloc);
    for pass in 0..14 {
        stops.push(stop_move(alloc, pass)?)?;
    }
    for (fill, moved) in [
        (Fill::Old, 0),
        (Fill::New, 1),
        (Fill::Byte(0xA5), 2),
        (Fill::Byte(0), 0),
    ] {
        let counts = crash_moves(alloc, &stops, fill)?;
        assert_eq!(rt; counts, [0, 7, 7 - moved, moved]);
    }
    Ok(())
}

#[test]
fn faults_are_told(rt: HostRuntime) -> Result<(), Fail> {
    let no_room = DirectoryFault::NoRoom;
    let text = format!(in rt.alloc();
        "{DiskFault}; {}; {}; {}",
        StoreFault::Refused(no_room),
        StoreFault::Exhausted,
        ImageFault::TooSmall
    )?;
    let wanted =
        "the disk failed; the group is refused: there is no room; the sequences have run out; the disk is too small";
    assert_eq!(rt; text.as_str(), wanted);
    Ok(())
}
