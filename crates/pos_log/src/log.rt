//! A log of records after the current image of a disk.
ghost use Rattle.std.specs.Prelude.{◌≢◌, map, ◌≡◌, ◌⊎◌, ◌≤◌, ◌+◌, length, nat_le, IfErr, IfOk};
ghost use Rattle.pos_disk.specs.State.{Rises, Watches};
ghost use Rattle.pos_disk.specs.Keeps.{KeepsDisk};
ghost use Rattle.pos_image.specs.DiskCalls.{KeepsBeside};
ghost use Rattle.pos_image.specs.Layout.{slot_size, other, layout_of};
ghost use Rattle.pos_image.specs.Standing.{log_of};
ghost use Rattle.pos_log.specs.Records.{HoldsRecords, HoldsSome, end_of};

use crate::append::{lay_out_record, write_through};
use crate::fault::LogFault;
use crate::records::{HEAD, OPEN, REST, read_records};
use crate::renewal::{migrate_images, renew_images};
use pos_disk::Disk;
use pos_image::{ImageFault, Images, Layout};
use std::alloc::Global;
use std::marker::Model;

/// The records after the current image of a disk: groups of bytes, which are appended one by one.
///
/// After a fault of the disk, open the disk again before any call but `into_images`. docs/reference/totals-file.md,
/// "The log".
#[derive(Drop)]
pub struct Log<D: Disk> {
    alloc: Global,
    pub(crate) images: Images<D>,
    // As long as the log: what was read at first, then the record that was appended last.
    buffer: Vec<u8>,
    tail: u64,
}

impl<D: Disk> Model for Log<D> {
    ghost use Rattle.std.specs.Prelude.{◌≡◌, ◌≤◌, ◌<◌, length};
    ghost use Rattle.pos_image.specs.Layout.{log_place, log_size, slot_size, layout_of};
    ghost use Rattle.pos_log.specs.Logs.{LogView, log_over};

    ghost Value = { LogView D };

    ghost view = { λ l. log_over l.images l.tail };

    ghost invariant = { λ l. (log_place (layout_of l.images.slot) ≤ l.tail)
        × (l.tail < slot_size (layout_of l.images.slot))
        × (length l.buffer.items ≡ log_size (layout_of l.images.slot)) };
}

impl<D: Disk> Log<D> {
    ghost use Rattle.pos_image.specs.Images.{IsReady, IsPrepareFault};
    ghost use Rattle.pos_image.specs.declared.layout.Layout.TheVariants.{Layout1, Layout2};
    ghost use Rattle.pos_image.specs.declared.slot.Slot.TheVariants.{Third};
    ghost use Rattle.pos_image.specs.declared.fault.ImageFault.TheVariants.{TooLarge, Device, NoMemory};
    ghost use Rattle.pos_log.specs.Logs.{IsLogReady, Appends, Renews, CountsLogFaults, IsOpenFault};
    ghost use Rattle.pos_log.specs.Logs.{images_after, without_images, room_of};

    /// Opens the log after the current image, and returns it with the groups of its records, in order. It writes
    /// nothing, and reads the log in one piece.
    ///
    /// # Errors
    ///
    /// - `Damaged` if a record that is open doesn't fit.
    /// - `Device` if the disk failed: the images have to be opened again.
    /// - `NoMemory` if memory ran out.
    ///
    /// A refusal returns the images.
    pub fn open(
        alloc: Global,
        mut images: Images<D>,
    ) -> Result<(Log<D>, Vec<Vec<u8>>), (LogFault, Images<D>)>
        requires { IsReady D.Disk images }
        ensures ready { IfOk result (λ r. IsLogReady D.Disk r.0) }
        ensures records { D.honest images.disk → IfOk result
            (λ r. HoldsRecords (map (λ g. g.items) r.1.items) (log_of (D.state images.disk).reading)) }
        ensures damaged { D.honest images.disk → IfErr result
            (λ e. e.0 ≡ LogFault.Damaged → ¬ (HoldsSome (log_of (D.state images.disk).reading))) }
        ensures same { images_after result ≡ record images { disk = (images_after result).disk } }
        ensures any_moment { D.honest images.disk → Watches (D.state images.disk) (D.state (images_after result).disk) }
        ensures device { D.honest images.disk → IfErr result (λ e. e.0 ≡ LogFault.Device
            → Rises (D.state images.disk).failures (D.state e.1.disk).failures) }
        ensures counts { D.honest images.disk
            → CountsLogFaults (D.state images.disk) (D.state (images_after result).disk) (without_images result) }
        ensures faults { IfErr result (λ e. IsOpenFault e.0) }
        ensures handed { IfErr result (λ e. e.0 ≢ LogFault.Device → IsReady D.Disk e.1) }
        ensures keeps { KeepsDisk D.Disk images.disk (images_after result).disk }
    {
        let (first, end) = images.log_span();
        let Ok(mut buffer) = vec![in alloc; 0; (end - first) as usize] else {
            return Err((LogFault::NoMemory, images));
        };
        let Ok(()) = images.log_read(first, buffer.as_mut_slice()) else {
            return Err((LogFault::Device, images));
        };
        match read_records(alloc, &buffer) {
            Ok((groups, length)) => Ok((
                Log {
                    alloc,
                    images,
                    buffer,
                    tail: first + length as u64,
                },
                groups,
            )),
            Err(fault) => Err((fault, images)),
        }
    }

    /// Returns how many bytes the longest group has that fits, or `None` if not even an empty one fits.
    pub fn room(&self) -> Option<u64>
        ensures { result ≡ room_of (layout_of self.now.images.slot) self.now.tail }
    {
        let (_, end) = self.images.log_span();
        if self.tail > end - HEAD as u64 - 1 {
            return None;
        }
        Some(end - HEAD as u64 - 1 - self.tail)
    }

    /// Returns whether a record with a group of so many bytes fits, with the gate after it.
    pub fn fits(&self, length: usize) -> bool
        ensures { result ≡ nat_le (end_of self.now.tail length) (slot_size (layout_of self.now.images.slot)) }
    {
        let (_, end) = self.images.log_span();
        let left = (end - self.tail) as usize;
        if length >= left {
            return false;
        }
        HEAD + length < left
    }

    /// Appends a record with this group: two writes, each with its sync. It takes no memory.
    ///
    /// # Errors
    ///
    /// - `Full` if the record and the gate after it don't fit. Then nothing has changed.
    /// - `Device` if the disk failed: the log has to be opened again.
    pub fn append(&mut self, group: &[u8]) -> Result<(), LogFault>
        requires { IsLogReady D.Disk self.old }
        ensures appends { Appends D.Disk self.old group.now result self.new }
        ensures faults { IfErr result (λ e. (e ≡ LogFault.Full) ⊎ (e ≡ LogFault.Device)) }
    {
        if !self.fits(group.len()) {
            return Err(LogFault::Full);
        }
        self.append_fitting(group)
    }

    /// Appends a record with this group as `append` does, without asking whether it fits. The caller knows that it
    /// does, by `fits`.
    ///
    /// # Errors
    ///
    /// `Device` if the disk failed: the log has to be opened again.
    pub fn append_fitting(&mut self, group: &[u8]) -> Result<(), LogFault>
        requires ready { IsLogReady D.Disk self.old }
        requires fits { end_of self.old.tail (length group.now) ≤ slot_size (layout_of self.old.images.slot) }
        ensures appends { Appends D.Disk self.old group.now result self.new }
        ensures faults { IfErr result (λ e. e ≡ LogFault.Device) }
    {
        lay_out_record(&mut self.buffer, group);
        let behind = &self.buffer[..REST + group.len()];
        let Ok(()) = write_through(&mut self.images, self.tail + 1, behind) else {
            return Err(LogFault::Device);
        };
        let Ok(()) = write_through(&mut self.images, self.tail, &[OPEN]) else {
            return Err(LogFault::Device);
        };
        self.tail += (HEAD + group.len()) as u64;
        Ok(())
    }

    /// Makes an image with this body the current one, with the next sequence and no records after it. It takes no
    /// memory.
    ///
    /// # Errors
    ///
    /// - `TooLarge` if the body has more bytes than the layout allows; otherwise `Exhausted` if the current sequence is
    ///   the last one. Then nothing has changed.
    /// - `Device` if the disk failed: the log has to be opened again.
    pub fn renew(&mut self, body: Vec<u8>) -> Result<(), ImageFault>
        requires { IsLogReady D.Disk self.old }
        ensures renews { Renews D.Disk self.old (layout_of self.old.images.slot) body.items
            (self.old.images.sequence + 1) result self.new }

        // Whatever it answers, nothing but the new image was written, in the slot beside the current one.
        ensures rest { D.honest self.old.images.disk → KeepsBeside (other self.old.images.slot) (length body.items)
            (D.state self.old.images.disk) (D.state self.new.images.disk) }

        ensures faults { IfErr result IsPrepareFault }
    {
        match renew_images(&mut self.images, body) {
            Ok(()) => {
                self.tail = self.images.log_span().0;
                Ok(())
            }
            Err(fault) => Err(fault),
        }
    }

    /// Makes an image of layout 2 with this body the current one, with sequence 1 and no records after it. It takes
    /// memory for a buffer as long as a log of layout 2, before anything is written. docs/reference/totals-file.md,
    /// "The move to layout 2".
    ///
    /// # Errors
    ///
    /// - `TooLarge` if the body has more than 81,907 bytes, and `NoMemory` if memory ran out. Then nothing has changed.
    /// - `Device` if the disk failed: the log has to be opened again.
    pub fn migrate(&mut self, body: Vec<u8>) -> Result<(), ImageFault>
        requires ready { IsLogReady D.Disk self.old }
        requires layout { layout_of self.old.images.slot ≡ Layout1 }
        ensures migrates { Renews D.Disk self.old Layout2 body.items 1 result self.new }

        // Whatever it answers, nothing but the new image was written: no slot of layout 1, and no gate of one.
        ensures rest { D.honest self.old.images.disk → KeepsBeside Third (length body.items)
            (D.state self.old.images.disk) (D.state self.new.images.disk) }

        ensures faults { IfErr result (λ e. (e ≡ TooLarge) ⊎ (e ≡ NoMemory) ⊎ (e ≡ Device)) }
    {
        if body.len() > Layout::Layout2.longest() as usize {
            return Err(ImageFault::TooLarge);
        }
        let buffer = vec![in self.alloc; 0; Layout::Layout2.log_size()]?;
        match migrate_images(&mut self.images, body) {
            Ok(()) => {
                self.buffer = buffer;
                self.tail = self.images.log_span().0;
                Ok(())
            }
            Err(fault) => Err(fault),
        }
    }

    /// Returns the layout of the current image.
    pub fn layout(&self) -> Layout
        ensures { result ≡ layout_of self.now.images.slot }
    {
        self.images.layout()
    }

    /// Returns the number of the current image.
    pub fn sequence(&self) -> u64
        requires { IsLogReady D.Disk self.now }
        ensures { result ≡ self.now.images.sequence }
    {
        self.images.sequence()
    }

    /// Returns the images as they are. It takes no memory.
    pub fn into_images(self) -> Images<D>
        ensures { result ≡ self.images }
    {
        self.images
    }
}
