//! The current image of a disk, and the next one.
ghost use Rattle.std.specs.Prelude.{◌≡◌, ◌↔◌, ◌<◌, ◌≤◌, ◌+◌, ◌^◌, ◌⊎◌, length, IfOk, IfErr, OnOk, IsErr, IsErrOf, IsSome, Some, None, false};
ghost use Rattle.pos_disk.specs.State.{IsAtRest, LeavesOnly, Watches};
ghost use Rattle.pos_disk.specs.Keeps.{KeepsDisk};
ghost use Rattle.pos_image.specs.Layout.{disk_size, longest, layout_of};
ghost use Rattle.pos_image.specs.NewDisk.{KeepsRest, HasClosedGates, no_files};
ghost use Rattle.pos_image.specs.Standing.{is_marked, ShowsImage, HasNewImage};
ghost use Rattle.pos_image.specs.declared.fault.ImageFault.TheVariants.{NoMemory, Device, TooLarge, TooSmall, Exhausted};

use crate::disk_calls::{place_image, write_through};
use crate::fault::ImageFault;
use crate::image::{Image, find};
use crate::layout::{Layout, OPEN, SIZE};
use crate::new_disks::{is_marked, lay_out};
use crate::slot::Slot;
use pos_disk::Disk;
use std::alloc::Global;
use std::marker::Model;

/// The images of a disk: the current one, and the prepared one if there is one.
///
/// A body has 0 to 16,371 bytes, in layout 2 up to 81,907. A sequence is a `u64`. After a fault of the disk, open the
/// disk again before any call but `into_disk`. docs/reference/totals-file.md, "The layouts".
#[derive(Drop)]
pub struct Images<D: Disk> {
    alloc: Global,
    pub(crate) disk: D,
    pub(crate) current: Image,
    prepared: Option<Image>,
}

impl<D: Disk> Model for Images<D> {
    ghost use Rattle.pos_image.specs.Images.{View, images_of};
    ghost use Rattle.pos_image.specs.Found.{prepared_image};

    ghost Value = { View D };

    ghost view = { λ s. images_of
        s.disk s.current.slot s.current.body.items s.current.sequence (prepared_image s.prepared) };
}

impl<D: Disk> Images<D> {
    ghost use Rattle.pos_image.specs.Images.{IsReady, Prepares, IsPrepareFault, IsFormatFault, IsOpenFault, FindsNone, FindsDamage};
    ghost use Rattle.pos_image.specs.Images.{RefusesMarked, KeepsMarked, FailsWithCause, FailsFor, CountsFaults, KeepsButGate};
    ghost use Rattle.pos_image.specs.Images.{disk_after, handed_back, without_disk, next_of, published, HasEither};
    ghost use Rattle.pos_image.specs.Images.{next_image, migrated_image};
    ghost use Rattle.pos_image.specs.Spans.{IsWritable, span_of};
    ghost use Rattle.pos_image.specs.declared.layout.Layout.TheVariants.{Layout1};

    /// Formats a disk, and returns it at rest: the current image is that of no files, body `0000` and sequence 1 in
    /// layout 1. It takes no memory. Nothing is promised of a disk whose formatting was interrupted.
    /// docs/reference/totals-file.md, "Formatting".
    ///
    /// # Errors
    ///
    /// - `TooSmall` if the disk has fewer than 327,680 bytes; otherwise `AlreadyFormatted` if one of the bytes at 0,
    ///   32,768, 65,536 and 196,608 is 0xA5. Then nothing was written.
    /// - `Device` if the disk failed.
    ///
    /// A refusal returns the disk.
    pub fn format(mut disk: D) -> Result<D, (ImageFault, D)>
        ensures at_rest { D.honest disk → IfOk result (λ formatted. IsAtRest (D.state formatted)) }
        ensures image { D.honest disk
            → IfOk result (λ formatted. HasNewImage Layout1 no_files 1 (D.state formatted).reading) }
        ensures gates { D.honest disk → IfOk result (λ formatted. HasClosedGates (D.state formatted).reading) }
        ensures large { IfOk result (λ formatted. disk_size ≤ D.size formatted) }
        ensures too_small { IfErr result (λ e. e.0 ≡ TooSmall ↔ (D.size disk < disk_size)) }
        ensures unmarked { D.honest disk → IfOk result (λ formatted. is_marked (D.state disk).reading ≡ false) }
        ensures marked { D.honest disk → IfErr result (λ e. RefusesMarked (D.state disk) e.0) }
        ensures kept { D.honest disk → KeepsMarked (D.state disk) (D.state (handed_back result)) }
        ensures device { D.honest disk → IfErr result (λ e. FailsWithCause (D.state disk) (D.state e.1) e.0) }
        ensures counts { D.honest disk →
            CountsFaults (D.state disk) (D.state (handed_back result)) (without_disk result) }
        ensures faults { IfErr result (λ e. IsFormatFault e.0) }
        ensures untouched { IfErr result (λ e. e.0 ≡ TooSmall → e.1 ≡ disk) }

        // Whatever it answers, nothing but the gates and the fields of the first image was written.
        ensures rest { D.honest disk → KeepsRest (D.state disk).reading (D.state (handed_back result)).reading }
        ensures keeps { KeepsDisk D.Disk disk (handed_back result) }
    {
        if disk.len() < SIZE {
            return Err((ImageFault::TooSmall, disk));
        }
        let Ok(marked) = is_marked(&mut disk) else {
            return Err((ImageFault::Device, disk));
        };
        if marked {
            return Err((ImageFault::AlreadyFormatted, disk));
        }
        match lay_out(&mut disk) {
            Ok(()) => Ok(disk),
            Err(_) => Err((ImageFault::Device, disk)),
        }
    }

    /// Opens a disk that a crash may have left, and finds its current image. It writes nothing.
    /// docs/reference/totals-file.md, "Opening and recovery".
    ///
    /// # Errors
    ///
    /// - `TooSmall` if the disk has fewer than 327,680 bytes.
    /// - `Unformatted` if the gates of all four slots are closed.
    /// - `Damaged` if both slots of the disk's layout are open with the same sequence, or the current length is above
    ///   16,371, in layout 2 above 81,907.
    /// - `Device` if the disk failed, and `NoMemory` if memory ran out.
    ///
    /// A refusal returns the disk.
    pub fn open(alloc: Global, mut disk: D) -> Result<Images<D>, (ImageFault, D)>
        ensures ready { IfOk result (λ images. IsReady D.Disk images × (images.prepared ≡ None)) }
        ensures found { D.honest disk → IfOk result
            (λ it. ShowsImage (layout_of it.slot) it.body it.sequence (D.state disk).reading) }
        ensures too_small { IfErr result (λ e. e.0 ≡ TooSmall ↔ (D.size disk < disk_size)) }
        ensures unformatted { D.honest disk → IfErr result (λ e. FindsNone (D.state disk).reading e.0) }
        ensures damaged { D.honest disk → IfErr result (λ e. FindsDamage (D.state disk).reading e.0) }
        ensures device { D.honest disk → IfErr result (λ e. FailsWithCause (D.state disk) (D.state e.1) e.0) }
        ensures counts { D.honest disk →
            CountsFaults (D.state disk) (D.state (disk_after result)) (without_disk result) }
        ensures faults { IfErr result (λ e. IsOpenFault e.0) }
        ensures untouched { IfErr result (λ e. e.0 ≡ TooSmall → e.1 ≡ disk) }

        // What a read gives stays, and a crash at any moment of the call leaves what a crash before it might have left.
        ensures any_moment { D.honest disk → Watches (D.state disk) (D.state (disk_after result)) }
        ensures keeps { KeepsDisk D.Disk disk (disk_after result) }
    {
        if disk.len() < SIZE {
            return Err((ImageFault::TooSmall, disk));
        }
        match find(alloc, &mut disk) {
            Ok(current) => Ok(Images {
                alloc,
                disk,
                current,
                prepared: None,
            }),
            Err(fault) => Err((fault, disk)),
        }
    }

    /// Returns the body of the current image.
    pub fn body(&self) -> &[u8]
        requires { IsWritable D.Disk self.now }
        ensures { result.now ≡ self.now.body }
    {
        &self.current.body
    }

    /// Returns the layout of the current image: 1 after formatting, and 2 once the first image of layout 2 is
    /// published.
    pub fn layout(&self) -> Layout
        ensures { result ≡ layout_of self.now.slot }
    {
        self.current.slot.layout()
    }

    /// Returns the slot of the current image.
    pub fn slot(&self) -> Slot
        ensures { result ≡ self.now.slot }
    {
        self.current.slot
    }

    /// Returns the number of the current image: 1 after formatting, and one more with each image that is published.
    /// That of the first image of layout 2 is 1 again.
    pub fn sequence(&self) -> u64
        requires { IsWritable D.Disk self.now }
        ensures { result ≡ self.now.sequence }
    {
        self.current.sequence
    }

    /// Returns the disk as it is. It takes no memory.
    pub fn into_disk(self) -> D
        ensures { result ≡ self.disk }
    {
        self.disk
    }

    /// Writes a new image beside the current one, which stays the current one. The body is copied once.
    /// docs/reference/totals-file.md, "A new image".
    ///
    /// # Errors
    ///
    /// - `TooLarge` if the body has more bytes than the layout allows; otherwise `Exhausted` if the current sequence is
    ///   the last one; otherwise `NoMemory` if memory ran out. Then nothing has changed.
    /// - `Device` if the disk failed: the images have to be opened again.
    pub fn prepare(&mut self, body: &[u8]) -> Result<(), ImageFault>
        requires { IsWritable D.Disk self.old }
        ensures prepares { Prepares D.Disk self.old (next_image self.old body.now) result self.new }
        ensures faults { IfErr result (λ e. IsPrepareFault e ⊎ (e ≡ NoMemory)) }
    {
        self.check(body.len())?;
        let body = Vec::from_slice(self.alloc, body)?;
        self.put_beside(self.successor(body))
    }

    /// Writes a new image beside the current one, as `prepare` does, but takes the body over: it copies nothing and
    /// takes no memory.
    ///
    /// # Errors
    ///
    /// - `TooLarge` if the body has more bytes than the layout allows; otherwise `Exhausted` if the current sequence is
    ///   the last one. Then nothing has changed.
    /// - `Device` if the disk failed: the images have to be opened again.
    pub fn prepare_owned(&mut self, body: Vec<u8>) -> Result<(), ImageFault>
        requires { IsWritable D.Disk self.old }
        ensures prepares { Prepares D.Disk self.old (next_image self.old body.items) result self.new }
        ensures faults { IfErr result IsPrepareFault }
    {
        self.check(body.len())?;
        self.put_beside(self.successor(body))
    }

    /// Writes the first image of layout 2, with sequence 1, into the slot at 65,536. The current image of layout 1
    /// stays the current one, and no slot of layout 1 is written. It takes the body over, and no memory.
    /// docs/reference/totals-file.md, "The move to layout 2".
    ///
    /// # Errors
    ///
    /// - `TooLarge` if the body has more than 81,907 bytes. Then nothing has changed.
    /// - `Device` if the disk failed: the images have to be opened again.
    pub fn prepare_layout2(&mut self, body: Vec<u8>) -> Result<(), ImageFault>
        requires ready { IsWritable D.Disk self.old }
        requires layout { layout_of self.old.slot ≡ Layout1 }
        ensures prepares { Prepares D.Disk self.old (migrated_image body.items) result self.new }
        ensures faults { IfErr result (λ e. (e ≡ TooLarge) ⊎ (e ≡ Device)) }
    {
        if body.len() > Layout::Layout2.longest() as usize {
            return Err(ImageFault::TooLarge);
        }
        self.put_beside(Image {
            slot: Layout::Layout2.first(),
            body,
            sequence: 1,
        })
    }

    /// Makes the prepared image the current one. From then on the disk has its layout. It takes no memory.
    /// docs/reference/totals-file.md, "A new image" and "The move to layout 2".
    ///
    /// # Errors
    ///
    /// `Device` if the disk failed: the images have to be opened again.
    pub fn publish(&mut self) -> Result<(), ImageFault>
        requires ready { IsWritable D.Disk self.old }
        requires prepared { IsSome self.old.prepared }
        ensures ready { OnOk result (IsReady D.Disk self.new) }
        ensures published { OnOk result (self.new ≡ published self.old self.new.disk) }
        ensures log { D.honest self.old.disk → OnOk result
            (HasNewImage (layout_of self.new.slot) self.new.body self.new.sequence (D.state self.new.disk).reading) }

        // Whatever it answers, nothing but the gate of the prepared image was written.
        ensures rest { D.honest self.old.disk → KeepsButGate self.old (D.state self.old.disk) (D.state self.new.disk) }

        // A crash at any moment of the call leaves the current image, and of its log what a crash before it may leave,
        // or the new image with a closed log.
        ensures any_moment { D.honest self.old.disk → LeavesOnly (D.state self.old.disk) (D.state self.new.disk)
            (HasEither self.old (span_of self.old (D.state self.old.disk)) (next_of self.old)) }

        ensures faults { IsErr result → IsErrOf result Device }
        ensures failed { IsErr result → self.new ≡ record self.old { disk = self.new.disk; prepared = None } }
        ensures device { D.honest self.old.disk → IfErr result (FailsFor D.Disk self.old self.new) }
        ensures counts { D.honest self.old.disk → CountsFaults (D.state self.old.disk) (D.state self.new.disk) result }
        ensures keeps { KeepsDisk D.Disk self.old.disk self.new.disk }
    {
        let Some(next) = self.prepared.take() else {
            unreachable!();
        };
        write_through(&mut self.disk, next.slot.start(), &[OPEN])?;
        self.current = next;
        Ok(())
    }
}

impl<D: Disk> Images<D> {
    ghost use Rattle.pos_image.specs.Images.{Prepares, IsBeside, image_of, next_image};
    ghost use Rattle.pos_image.specs.Spans.{IsWritable};

    // Refuses a body that is too long, and any body after the last sequence.
    fn check(&self, length: usize) -> Result<(), ImageFault>
        ensures too_large { IsErrOf result TooLarge ↔ (longest (layout_of self.now.slot) < length) }
        ensures exhausted { IsErrOf result Exhausted
            ↔ (length ≤ longest (layout_of self.now.slot)) × (self.now.sequence + 1 ≡ 2 ^ 64) }
        ensures faults { IfErr result (λ e. (e ≡ TooLarge) ⊎ (e ≡ Exhausted)) }
    {
        if length > self.layout().longest() as usize {
            return Err(ImageFault::TooLarge);
        }
        if self.current.sequence == u64::MAX {
            return Err(ImageFault::Exhausted);
        }
        Ok(())
    }

    // Returns the next image, with this body.
    fn successor(&self, body: Vec<u8>) -> Image
        requires { self.now.sequence + 1 < 2 ^ 64 }
        ensures { image_of result.slot result.body.items result.sequence ≡ next_image self.now body.items }
    {
        Image {
            slot: self.current.slot.other(),
            body,
            sequence: self.current.sequence + 1,
        }
    }

    // Writes an image beside the current one.
    fn put_beside(&mut self, image: Image) -> Result<(), ImageFault>
        requires ready { IsWritable D.Disk self.old }
        requires short { length image.body.items ≤ longest (layout_of image.slot) }
        requires beside { IsBeside
            self.old.slot self.old.sequence (image_of image.slot image.body.items image.sequence) }
        ensures prepares { Prepares
            D.Disk self.old (image_of image.slot image.body.items image.sequence) result self.new }
        ensures faults { IsErr result → IsErrOf result Device }
    {
        place_image(&mut self.disk, &image)?;
        self.prepared = Some(image);
        Ok(())
    }
}
