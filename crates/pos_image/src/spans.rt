//! The calls of a log on the span after the current image.
ghost use Rattle.std.specs.Prelude.{◌≡◌, ◌+◌, ◌-◌, length, IfErr, OnOk, IsErr, IsErrOf};
ghost use Rattle.pos_disk.specs.State.{Watches, part};
ghost use Rattle.pos_disk.specs.Keeps.{KeepsDisk};
ghost use Rattle.pos_image.specs.Layout.{log_place, slot_size, start, layout_of};
ghost use Rattle.pos_image.specs.Spans.{IsInSpan};
ghost use Rattle.pos_image.specs.Standing.{log_of};
ghost use Rattle.pos_image.specs.declared.fault.ImageFault.TheVariants.{Device};

use crate::fault::ImageFault;
use crate::images::Images;
use pos_disk::Disk;

/// The log of the current slot. Places are counted from the gate of the slot, and each range is within `log_span`. A
/// call leaves the rest of the slot's log, and all else of the disk, as it is. docs/reference/totals-file.md, "The log
/// span".
impl<D: Disk> Images<D> {
    ghost use Rattle.pos_image.specs.Images.{IsReady, FailsFor, CountsFaults};
    ghost use Rattle.pos_image.specs.Spans.{IsWritable, WritesSpan, WritesOnly, CrashKeepsImage, span_of};

    /// Returns where the log is in a slot, as its first place and the place after its last: 16,384 and 32,768, in
    /// layout 2 81,920 and 131,072.
    pub fn log_span(&self) -> (u64, u64)
        ensures { result ≡ (log_place (layout_of self.now.slot), slot_size (layout_of self.now.slot)) }
    {
        let layout = self.current.slot.layout();
        (layout.log(), layout.slot_size())
    }

    /// Reads bytes of the log, as many as `out` holds. It takes no memory.
    ///
    /// # Errors
    ///
    /// `Device` if the disk failed: the images have to be opened again.
    pub fn log_read(&mut self, at: u64, out: &mut [u8]) -> Result<(), ImageFault>
        requires writable { IsWritable D.Disk self.old }
        requires inside { IsInSpan (layout_of self.old.slot) at (length out.old) }
        ensures writable { OnOk result (IsWritable D.Disk self.new) }
        ensures ready { IsReady D.Disk self.old → OnOk result (IsReady D.Disk self.new) }
        ensures same { self.new ≡ record self.old { disk = self.new.disk } }
        ensures bytes { D.honest self.old.disk → OnOk result (out.new ≡ part
            (at - log_place (layout_of self.old.slot)) (length out.new) (log_of (D.state self.old.disk).reading)) }
        ensures any_moment { D.honest self.old.disk → Watches (D.state self.old.disk) (D.state self.new.disk) }
        ensures faults { IsErr result → IsErrOf result Device }
        ensures device { D.honest self.old.disk → IfErr result (FailsFor D.Disk self.old self.new) }
        ensures counts { D.honest self.old.disk → CountsFaults (D.state self.old.disk) (D.state self.new.disk) result }
        ensures keeps { KeepsDisk D.Disk self.old.disk self.new.disk }
    {
        self.disk.read(self.current.slot.start() + at, out)?;
        Ok(())
    }

    /// Writes bytes into the log. They stay from the next `log_sync` on; until then a crash may leave any bytes in
    /// their places. It takes no memory.
    ///
    /// # Errors
    ///
    /// `Device` if the disk failed: the images have to be opened again.
    pub fn log_write(&mut self, at: u64, bytes: &[u8]) -> Result<(), ImageFault>
        requires writable { IsWritable D.Disk self.old }
        requires inside { IsInSpan (layout_of self.old.slot) at (length bytes.now) }
        ensures writable { OnOk result (IsWritable D.Disk self.new) }
        ensures same { self.new ≡ record self.old { disk = self.new.disk } }
        ensures span { D.honest self.old.disk → WritesSpan (span_of self.old (D.state self.old.disk))
            (span_of self.old (D.state self.new.disk)) (at - log_place (layout_of self.old.slot)) bytes.now result }

        // Whatever it answers, nothing but these bytes was written, and their places alone became loose.
        ensures rest { D.honest self.old.disk → WritesOnly (start self.old.slot + at) (length bytes.now)
            (D.state self.old.disk) (D.state self.new.disk) }

        // A crash at any moment of the call leaves the current image, and of its log what a crash after it may leave.
        ensures any_moment { D.honest self.old.disk →
            CrashKeepsImage self.old (span_of self.old (D.state self.new.disk))
            (D.state self.old.disk) (D.state self.new.disk) }

        ensures faults { IsErr result → IsErrOf result Device }
        ensures device { D.honest self.old.disk → IfErr result (FailsFor D.Disk self.old self.new) }
        ensures counts { D.honest self.old.disk → CountsFaults (D.state self.old.disk) (D.state self.new.disk) result }
        ensures keeps { KeepsDisk D.Disk self.old.disk self.new.disk }
    {
        self.disk.write(self.current.slot.start() + at, bytes)?;
        Ok(())
    }

    /// Makes what was written into the log stay. It takes no memory.
    ///
    /// # Errors
    ///
    /// `Device` if the disk failed: the images have to be opened again.
    pub fn log_sync(&mut self) -> Result<(), ImageFault>
        requires { IsWritable D.Disk self.old }
        ensures ready { OnOk result (IsReady D.Disk self.new) }
        ensures same { self.new ≡ record self.old { disk = self.new.disk } }
        ensures reading { D.honest self.old.disk → (D.state self.new.disk).reading ≡ (D.state self.old.disk).reading }

        // A crash at any moment of the call leaves the current image, and of its log what a crash before it may leave.
        ensures any_moment { D.honest self.old.disk →
            CrashKeepsImage self.old (span_of self.old (D.state self.old.disk))
            (D.state self.old.disk) (D.state self.new.disk) }

        ensures faults { IsErr result → IsErrOf result Device }
        ensures device { D.honest self.old.disk → IfErr result (FailsFor D.Disk self.old self.new) }
        ensures counts { D.honest self.old.disk → CountsFaults (D.state self.old.disk) (D.state self.new.disk) result }
        ensures keeps { KeepsDisk D.Disk self.old.disk self.new.disk }
    {
        self.disk.sync()?;
        Ok(())
    }
}
