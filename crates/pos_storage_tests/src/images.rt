// Bytes of each layout, and disks that aren't of them.
ghost use Rattle.std.specs.Prelude.{◌≡◌, IfOk};
ghost use Rattle.pos_image.specs.Images.{IsReady};
ghost use Rattle.pos_image.specs.Layout.{layout_of};
ghost use Rattle.pos_image.specs.declared.layout.Layout.TheVariants.{Layout1};

use crate::shared_disks::{FORMATTED, FOURTH, SECOND, SIZE, THIRD, bytes_of, disk_of, has};
use pos_disk::{Disk, Fill, FuseDisk, MemDisk};
use pos_image::{ImageFault, Images, Layout};
use std::alloc::Global;
use std::test::Fail;

// The second image, with the body 1, 2, 3.
const OTHER: [u8; 16] = [0xA5, 0, 0, 0, 0, 0, 0, 0, 2, 0, 0, 0, 3, 1, 2, 3];

fn format(disk: MemDisk) -> Result<MemDisk, ImageFault> {
    match Images::format(disk) {
        Ok(disk) => Ok(disk),
        Err((fault, _)) => Err(fault),
    }
}

fn open<D: Disk + Drop>(alloc: Global, disk: D) -> Result<Images<D>, ImageFault>
    ensures { IfOk result (λ images. IsReady D.Disk images) }
{
    match Images::open(alloc, disk) {
        Ok(images) => Ok(images),
        Err((fault, _)) => Err(fault),
    }
}

// Opens a disk, replaces the body, and gives the disk back.
fn replace_body(alloc: Global, disk: MemDisk, body: &[u8]) -> Result<MemDisk, ImageFault> {
    let mut images = open(alloc, disk)?;
    images.prepare(body)?;
    images.publish()?;
    Ok(images.into_disk())
}

#[test]
fn bytes_of_the_layout(rt: HostRuntime) -> Result<(), Fail> {
    let alloc = rt.alloc();
    let mut disk = format(disk_of(alloc, 0x5A, &[])?)?;
    let bytes = bytes_of(alloc, &mut disk)?;
    assert!(rt; has(&bytes, 0, &FORMATTED) && has(&bytes, 15, &[0x5A]));
    for gate in [16_384, SECOND, 49_152, THIRD, FOURTH] {
        assert!(rt; has(&bytes, gate - 1, &[0x5A, 0, 0x5A]), "{gate}");
    }
    let kept = bytes.iter().filter(|byte| **byte == 0x5A).count();
    assert_eq!(rt; kept, SIZE - 20);
    let mut disk = replace_body(alloc, disk, &[1, 2, 3])?;
    let bytes = bytes_of(alloc, &mut disk)?;
    assert!(rt; has(&bytes, 0, &FORMATTED) && has(&bytes, SECOND, &OTHER));
    let mut disk = replace_body(alloc, disk, &[7; 16_371])?;
    let bytes = bytes_of(alloc, &mut disk)?;
    let third = [0xA5, 0, 0, 0, 0, 0, 0, 0, 3, 0, 0, 0x3F, 0xF3, 7];
    assert!(rt; has(&bytes, 0, &third) && has(&bytes, 16_383, &[7, 0, 0x5A]));
    assert!(rt; has(&bytes, SECOND, &OTHER));
    Ok(())
}

// Opens a disk, prepares an image with this body, and gives the disk back.
fn prepare_body(alloc: Global, disk: MemDisk, body: &[u8]) -> Result<MemDisk, ImageFault> {
    let mut images = open(alloc, disk)?;
    images.prepare(body)?;
    Ok(images.into_disk())
}

#[test]
fn publishing_writes_one_byte(rt: HostRuntime) -> Result<(), Fail> {
    let alloc = rt.alloc();
    let mut disk = prepare_body(alloc, format(disk_of(alloc, 0x5A, &[])?)?, &[1, 2, 3])?;
    let before = bytes_of(alloc, &mut disk)?;
    let mut disk = replace_body(alloc, format(disk_of(alloc, 0x5A, &[])?)?, &[1, 2, 3])?;
    let after = bytes_of(alloc, &mut disk)?;
    assert!(rt; before.len() == SIZE && after.len() == SIZE);
    let pairs = before.iter().zip(after.iter());
    assert_eq!(rt; pairs.filter(|(one, other)| one != other).count(), 1);
    assert!(rt; has(&before, SECOND, &[0]) && has(&after, SECOND, &[0xA5]));
    Ok(())
}

// Makes the first image of layout 2, with this body, the current one.
fn put_layout_2<D: Disk>(images: &mut Images<D>, body: Vec<u8>) -> Result<(), ImageFault>
    requires ready { IsReady D.Disk images.old }
    requires layout { layout_of images.old.slot ≡ Layout1 }
{
    images.prepare_layout2(body)?;
    images.publish()
}

// Opens a disk of layout 1, moves it to layout 2 with this body, and gives it back.
fn move_to_layout_2(alloc: Global, disk: MemDisk, body: &[u8]) -> Result<MemDisk, ImageFault> {
    let mut images = open(alloc, disk)?;
    if images.layout() == Layout::Layout2 {
        return Err(ImageFault::AlreadyFormatted);
    }
    put_layout_2(&mut images, Vec::from_slice(alloc, body)?)?;
    Ok(images.into_disk())
}

#[test]
fn bytes_of_layout_2(rt: HostRuntime) -> Result<(), Fail> {
    let alloc = rt.alloc();
    let disk = format(disk_of(alloc, 0x5A, &[])?)?;
    let mut disk = move_to_layout_2(alloc, disk, &[1, 2, 3])?;
    let bytes = bytes_of(alloc, &mut disk)?;
    let first = [0xA5, 0, 0, 0, 0, 0, 0, 0, 1, 0, 0, 0, 3, 1, 2, 3, 0x5A];
    assert!(rt; has(&bytes, THIRD, &first) && has(&bytes, 147_455, &[0x5A, 0, 0x5A]));
    assert!(rt; has(&bytes, 0, &FORMATTED) && has(&bytes, SECOND - 1, &[0x5A, 0, 0x5A]));
    let longest = vec![in alloc; 7u8; 81_907]?;
    let mut disk = replace_body(alloc, disk, &longest)?;
    let bytes = bytes_of(alloc, &mut disk)?;
    let second = [0xA5, 0, 0, 0, 0, 0, 0, 0, 2, 0, 1, 0x3F, 0xF3, 7];
    assert!(rt; has(&bytes, FOURTH, &second) && has(&bytes, 278_527, &[7, 0, 0x5A]));
    assert!(rt; has(&bytes, THIRD, &first) && has(&bytes, 0, &FORMATTED));
    Ok(())
}

// Writes four bytes at the start of the current log, and syncs it.
fn write_log<D: Disk>(images: &mut Images<D>, bytes: [u8; 4]) -> Result<(), ImageFault>
    requires { IsReady D.Disk images.old }
{
    let (from, _) = images.log_span();
    images.log_write(from, &bytes)?;
    images.log_sync()
}

#[test]
fn bytes_of_a_log(rt: HostRuntime) -> Result<(), Fail> {
    let alloc = rt.alloc();
    let mut images = open(alloc, format(disk_of(alloc, 0x5A, &[])?)?)?;
    write_log(&mut images, [1, 2, 3, 4])?;
    let mut images = open(alloc, replace_body(alloc, images.into_disk(), &[9])?)?;
    write_log(&mut images, [5, 6, 7, 8])?;
    let bytes = bytes_of(alloc, &mut images.into_disk())?;
    assert!(rt; has(&bytes, 16_383, &[0x5A, 1, 2, 3, 4, 0x5A]));
    assert!(rt; has(&bytes, SECOND + 16_383, &[0x5A, 5, 6, 7, 8, 0x5A]));
    Ok(())
}

// The disk behind a log of four bytes that fails once after `pass` calls, of which opening takes six.
fn logged(alloc: Global, pass: u64) -> Result<MemDisk, Fail> {
    let disk = disk_of(alloc, 0x5A, &[(0, FORMATTED.as_slice())])?;
    let mut images = open(alloc, FuseDisk::new(disk, pass, 1))?;
    let _ = write_log(&mut images, [1, 2, 3, 4]);
    Ok(images.into_disk().into_inner())
}

// The write fails half done, the sync fails, or neither: what a crash fills at the log's first places, and the image
// that is found there.
#[test]
fn a_log_that_is_stopped(rt: HostRuntime) -> Result<(), Fail> {
    let alloc = rt.alloc();
    let [old, half, new, nines] = [[0x5A; 4], [1, 2, 0x5A, 0x5A], [1, 2, 3, 4], [9; 4]];
    for (pass, left) in [
        (6, [old, half, nines]),
        (7, [old, new, nines]),
        (8, [new; 3]),
    ] {
        let disk = logged(alloc, pass)?;
        for (fill, wanted) in [
            (Fill::Old, left[0]),
            (Fill::New, left[1]),
            (Fill::Byte(9), left[2]),
        ] {
            let mut crashed = disk.crash(fill)?;
            let bytes = bytes_of(alloc, &mut crashed)?;
            assert!(rt;
                has(&bytes, 16_384, &wanted) && has(&bytes, 0, &FORMATTED),
                "{pass}"
            );
            assert_eq!(rt; open(alloc, crashed)?.sequence(), 1);
        }
    }
    Ok(())
}

// What opening a disk of zero bytes but for these runs answers: the sequence of its image, or the fault. A disk of
// which a gate of layout 2 is open is of layout 2, whatever stands in the slots of layout 1.
fn opened(alloc: Global, runs: &[(usize, &[u8])]) -> Result<u64, ImageFault> {
    let images = open(alloc, disk_of(alloc, 0, runs)?)?;
    Ok(images.sequence())
}

#[test]
fn disks_that_are_opened(rt: HostRuntime) -> Result<(), Fail> {
    let [open, shut] = [[0xA5], [0xA4]];
    let too_long = [0xA5, 0, 0, 0, 0, 0, 0, 0, 1, 0, 0, 0x3F, 0xF4];
    let longer = [0xA5, 0, 0, 0, 0, 0, 0, 0, 3, 0, 1, 0x3F, 0xF4];
    let later = [0xA5, 0, 0, 0, 0, 0, 0, 1, 0, 0, 0, 0, 1, 5];
    let first = (0, FORMATTED.as_slice());
    let second = (SECOND, OTHER.as_slice());
    let damaged = Err(ImageFault::Damaged);
    for (one, other, wanted) in [
        (first, (1, [].as_slice()), Ok(1)),
        (first, second, Ok(2)),
        ((0, later.as_slice()), second, Ok(256)),
        ((0, shut.as_slice()), second, Ok(2)),
        (first, (SECOND, FORMATTED.as_slice()), damaged),
        ((0, too_long.as_slice()), (SECOND, shut.as_slice()), damaged),
        (first, (THIRD, open.as_slice()), Ok(0)),
        (first, (FOURTH, OTHER.as_slice()), Ok(2)),
        (first, (FOURTH, shut.as_slice()), Ok(1)),
        (
            (THIRD, too_long.as_slice()),
            (SECOND, later.as_slice()),
            Ok(1),
        ),
        (
            (THIRD, later.as_slice()),
            (FOURTH, OTHER.as_slice()),
            Ok(256),
        ),
        (
            (THIRD, OTHER.as_slice()),
            (FOURTH, OTHER.as_slice()),
            damaged,
        ),
        (first, (FOURTH, longer.as_slice()), damaged),
    ] {
        assert_eq!(rt; opened(rt.alloc(), &[one, other]), wanted);
    }
    Ok(())
}

#[test]
fn disks_that_are_not_formatted(rt: HostRuntime) -> Result<(), Fail> {
    for gate in [0, SECOND, THIRD, FOURTH] {
        let disk = disk_of(rt.alloc(), 0, &[(gate, [0xA5].as_slice())])?;
        let fault = format(disk).err();
        assert_eq!(rt; fault, Some(ImageFault::AlreadyFormatted), "{gate}");
    }
    Ok(())
}
