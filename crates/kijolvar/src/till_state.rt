//! What a till is between two calls.
ghost use Rattle.std.specs.Prelude.{◌≡◌};
ghost use Rattle.kijolvar.specs.Errands.{WritesOldest};
ghost use Rattle.kijolvar.specs.TillDisks.{DoesTold, IsInFile, errands_of};
ghost use Rattle.kijolvar.specs.Tills.{AnswersNextErrand, WritesNext, disk_of, settlement_of, with_disk};
ghost use Rattle.kijolvar.specs.declared.till_disk.Settlement.TheVariants.{Owed, Settled};

use crate::codes::{DISK_FAILED, OK, SHORT};
use crate::device::Device;
use crate::errands::write_one_errand;
use crate::till_disk::{Settlement, TillDisk};
use pos_counter::Counter;
use pos_profile::Profile;
use pos_run::{LineProgress, Names, Spares};
use pos_streams::{MemorySink, WriteFault};
use std::collections::VecDeque;

/// What a till is between two calls.
pub struct TillState {
    /// The profile.
    pub profile: Profile,
    /// The counter of simulated devices over a disk.
    pub counter: Counter<TillDisk, Device>,
    /// The names that lines have for the controls.
    pub names: Names,
    /// The spares that lines attach.
    pub spares: Spares<Device>,
    /// The answer to the lines that were carried out last.
    pub answer: MemorySink,
    /// Whether there was memory for all of that answer.
    pub outcome: Result<(), WriteFault>,
    /// Whether the host was given the oldest errand.
    pub told: bool,
    /// Whether the host said that an errand failed.
    pub failed: bool,
    /// The lines of the orders that the host gets next.
    pub orders: VecDeque<Vec<u8>>,
    /// Whether a device's orders wait for the host.
    pub is_driven: bool,
    /// The lines that are not carried out yet. The first waits for the host.
    pub held: VecDeque<Vec<u8>>,
    /// How the lines ended that were carried out last.
    pub left: LineProgress,
}

impl TillState {
    /// Returns whether its changes are in its host's file. If no errand is left and none failed, the file equals the
    /// totals' disk.
    pub fn settlement(&self) -> Settlement
        ensures settlement { result ≡ settlement_of self.now }
        ensures in_file { result ≡ Settled → IsInFile (disk_of self.now) }
    {
        let disk = self.counter.disk();
        disk.is_in_step();
        disk.settlement(self.failed)
    }

    /// Writes the next errand, and takes it that the one that was given is done. It returns WRITE or SYNC, or OK if no
    /// errand is left.
    ///
    /// # Errors
    ///
    /// - SHORT if `bytes` has less room than `needed` says. The errand stays the next one.
    /// - DISK_FAILED if an errand failed or was lost.
    pub fn next_errand(&mut self, at: &mut u64, bytes: &mut [u8], needed: &mut usize) -> u32
        ensures { AnswersNextErrand self.old at.old at.new bytes.old bytes.new needed.old needed.new result self.new }
    {
        match self.settlement() {
            Settlement::InMemory | Settlement::Settled => OK,
            Settlement::Failed => DISK_FAILED,
            Settlement::Owed => self.write_next(at, bytes, needed),
        }
    }

    // Writes the next errand. The one that was given is done.
    fn write_next(&mut self, at: &mut u64, bytes: &mut [u8], needed: &mut usize) -> u32
        requires { settlement_of self.old ≡ Owed }
        ensures { WritesNext self.old at.old at.new bytes.old bytes.new needed.old needed.new result self.new }
    {
        self.do_told();
        let code = self.write_oldest(at, bytes, needed);
        self.counter.disk().is_in_step();
        code
    }

    // Removes the errand that was given, if one was: it is done.
    fn do_told(&mut self)
        ensures done { DoesTold self.old.told (disk_of self.old) (disk_of self.new) }
        ensures stays { self.new ≡ record self.old { counter = with_disk self.old.counter (disk_of self.new) } }
    {
        if self.told {
            self.counter.next();
        }
    }

    // Writes the oldest errand, if there is one.
    fn write_oldest(&mut self, at: &mut u64, bytes: &mut [u8], needed: &mut usize) -> u32
        ensures tells { WritesOldest (errands_of (disk_of self.old).work) at.old at.new bytes.old bytes.new needed.old
            needed.new result self.new.told }
        ensures stays { self.new ≡ record self.old { told = self.new.told } }
    {
        let Some(errand) = self.counter.disk().oldest() else {
            self.told = false;
            return OK;
        };
        let code = write_one_errand(errand, at, bytes, needed);
        self.told = code != SHORT;
        code
    }
}
