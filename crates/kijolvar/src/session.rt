//! What is behind a till's pointer.
ghost use Rattle.std.specs.Prelude.{◌≡◌, [], IfOk};
ghost use Rattle.pos_run.specs.Names.{names_of, number_named};
ghost use Rattle.kijolvar.specs.Controls.{FindsNumber, NextEvent};
ghost use Rattle.kijolvar.specs.Hosts.{Drives, IsHostCode};
ghost use Rattle.kijolvar.specs.LineAnswers.{AnswersAs, TakesLines};
ghost use Rattle.kijolvar.specs.NextOrders.{NextOrder};
ghost use Rattle.kijolvar.specs.Paper.{TearsOff};
ghost use Rattle.kijolvar.specs.Reports.{TakesReport};
ghost use Rattle.kijolvar.specs.Tills.{Begins, RunsText, Fails, HandsOver, AnswersNextErrand, settlement_of};
ghost use Rattle.kijolvar.specs.WireCalls.{AnswersOrderBytes, AnswersReplies};

use crate::answers::write_answer;
use crate::codes::{DISK_FAILED, ERRANDS, NO_MEMORY, WAITS, code_of};
use crate::controls::{find_number, next_event};
use crate::device::Device;
use crate::hosted_devices::{drive_device, host_device, next_order};
use crate::order_queue::OrderQueue;
use crate::paper::tear_off;
use crate::till_disk::{Settlement, TillDisk};
use crate::till_state::TillState;
use crate::wire_calls::{write_order_bytes, write_reply};
use pos_disk::Disk;
use pos_drive::Awaits;
use pos_profile::Profile;
use pos_run::{LineProgress, Names, end_counter, run_given_lines, simulate_profile};
use pos_script::LineBuffer;
use pos_service::{NoMemory, Peripheral};
use pos_streams::{MemorySink, WriteFault};
use pos_wire::WireSettings;
use std::alloc::Global;
use std::collections::VecDeque;
use std::marker::Model;

/// A till that the library keeps between calls, with room for a line, and what its devices have for its host. Its
/// counter and its spares are sound.
pub struct Session {
    alloc: Global,
    till_state: TillState,
    buffer: LineBuffer,
    order_queue: OrderQueue,
}

impl Model for Session {
    ghost use Rattle.kijolvar.specs.HeldLines.{IsTillSound};
    ghost use Rattle.kijolvar.specs.contracts.till_state.TillState as kept_row;
    ghost use Rattle.kijolvar.specs.declared.till_state.TillState.{TillState as KeptTill};

    ghost Value = { KeptTill };

    ghost coded = { kept_row.the_row.coded };

    ghost view = { λ s. s.till_state };

    ghost invariant = { λ s. IsTillSound ⟦<Device as Peripheral>⟧ s.till_state };
}

impl Session {
    /// Returns a till of a profile over a disk.
    ///
    /// # Errors
    ///
    /// [`NoMemory`] if memory ran out. Then the disk is dropped.
    pub fn new(alloc: Global, profile: Profile, disk: TillDisk) -> Result<Session, NoMemory>
        ensures { IfOk result (λ till. Begins ⟦<Device as Peripheral>⟧ profile disk till) }
    {
        let Ok(buffer) = LineBuffer::new(alloc) else {
            return Err(NoMemory);
        };
        let order_queue = OrderQueue::new(alloc)?;
        let (counter, spares) = match simulate_profile(alloc, &profile, disk, &order_queue) {
            Ok(made) => made,
            Err((want, _)) => return Err(want),
        };
        let till_state = TillState {
            profile,
            counter,
            names: Names::new(alloc),
            spares,
            answer: MemorySink::new(alloc),
            outcome: Ok(()),
            told: false,
            failed: false,
            orders: VecDeque::new(alloc),
            is_driven: false,
            held: VecDeque::new(alloc),
            left: LineProgress::Printed,
        };
        Ok(Session {
            alloc,
            till_state,
            buffer,
            order_queue,
        })
    }

    /// Returns whether its changes are in its host's file.
    pub fn settlement(&self) -> Settlement
        ensures { result ≡ settlement_of self.now }
    {
        self.till_state.settlement()
    }

    /// Carries out the lines of a text, and keeps what they print as the answer. If memory runs out for what a line
    /// prints, that line was carried out, and no later one, and a front of the answer is kept.
    fn run_at_once(&mut self, lines: &[u8])
        requires { self.old.held.items ≡ [] }
        ensures { RunsText ⟦<TillDisk as Disk>⟧ ⟦<Device as Peripheral>⟧ self.old lines.now self.new }
    {
        self.till_state.left = LineProgress::Printed;
        self.till_state.told = false;
        self.till_state.answer.clear();
        self.till_state.outcome = run_given_lines(
            self.alloc,
            lines,
            &mut self.buffer,
            &mut self.till_state.answer,
            &mut self.till_state.counter,
            &mut self.till_state.names,
            &mut self.till_state.spares,
        );
        self.till_state.counter.disk().is_in_step();
    }

    /// Carries out the lines of a text, and keeps what they print as the answer. With a driven device it carries them
    /// out up to one that waits.
    ///
    /// # Errors
    ///
    /// WAITS if a line of an earlier text waits. NO_MEMORY if a device is driven and memory ran out for the lines. Then
    /// nothing changes.
    pub fn run_text(&mut self, lines: &[u8]) -> Result<(), u32>
        ensures { TakesLines ⟦<TillDisk as Disk>⟧ ⟦<Device as Awaits>⟧.course ⟦<Device as Peripheral>⟧ self.old
            lines.now result self.new }
    {
        if !self.till_state.held.is_empty() {
            return Err(WAITS);
        }
        if self.till_state.is_driven {
            return self
                .till_state
                .run_driven(self.alloc, &mut self.buffer, lines);
        }
        self.run_at_once(lines);
        Ok(())
    }

    /// Takes the host's report of an order, with the inputs that belong to it, and carries out the lines that it lets
    /// go on.
    ///
    /// # Errors
    ///
    /// NO_ORDER if the host has no order, and NO_MEMORY if memory ran out for the inputs. Then nothing changes.
    pub fn take_report(&mut self, outcome: u32, inputs: &[u8]) -> Result<(), u32>
        ensures { TakesReport ⟦<TillDisk as Disk>⟧ ⟦<Device as Awaits>⟧.course ⟦<Device as Peripheral>⟧ self.old outcome
            inputs.now result self.new }
    {
        self.till_state
            .take_report(self.alloc, &mut self.buffer, outcome, inputs)
    }

    /// Writes the answer to the lines that were carried out last, and how many bytes it has, and returns OK.
    ///
    /// # Errors
    ///
    /// - SHORT if `text` has less room, and CUT if memory ran out for the answer. Then a front of it is written.
    /// - WAITS if the next line waits for the host, and NO_MEMORY if it found no memory. The answer is written.
    /// - ERRANDS if errands are left, and DISK_FAILED if one failed. Then nothing is written.
    pub fn hand_over(&self, text: &mut [u8], needed: &mut usize) -> u32
        ensures { HandsOver self.now text.old text.new needed.old needed.new result }
    {
        match self.till_state.settlement() {
            Settlement::Owed => ERRANDS,
            Settlement::Failed => DISK_FAILED,
            Settlement::InMemory | Settlement::Settled => code_of(
                self.till_state.outcome,
                write_answer(self.till_state.answer.as_slice(), text, needed),
                self.till_state.left,
            ),
        }
    }

    /// Writes the answer to lines, or returns the code that says why none was carried out. If memory ran out, the
    /// answer has no bytes.
    pub fn answer(&self, taken: Result<(), u32>, text: &mut [u8], needed: &mut usize) -> u32
        ensures { AnswersAs taken self.now text.old text.new needed.old needed.new result }
    {
        match taken {
            Ok(()) => self.hand_over(text, needed),
            Err(code) => {
                if code == NO_MEMORY {
                    *needed = 0;
                }
                code
            }
        }
    }

    /// Writes the next errand, and takes it that the one before is done. It returns WRITE or SYNC, or OK if no errand
    /// is left.
    ///
    /// # Errors
    ///
    /// SHORT if `bytes` has less room than `needed` says, and DISK_FAILED if an errand failed.
    pub fn next_errand(&mut self, at: &mut u64, bytes: &mut [u8], needed: &mut usize) -> u32
        ensures { AnswersNextErrand self.old at.old at.new bytes.old bytes.new needed.old needed.new result self.new }
    {
        self.till_state.next_errand(at, bytes, needed)
    }

    /// Keeps the orders of the device of a name for the host from now on, and returns OK.
    ///
    /// # Errors
    ///
    /// NO_DEVICE if no device of the name may have a peripheral, and NO_MEMORY if memory ran out. Then nothing changes.
    pub fn host(&self, name: &[u8]) -> u32
        ensures { IsHostCode self.now.profile.devices name.now result }
    {
        host_device(&self.till_state.profile, &self.order_queue, name)
    }

    /// Makes the orders of the device of a name wait for the host from now on, and returns OK.
    ///
    /// # Errors
    ///
    /// NO_DEVICE if no device of the name may be driven, or nothing serves it. Then nothing changes.
    pub fn drive(&mut self, name: &[u8]) -> u32
        ensures { Drives ⟦<Device as Awaits>⟧.course ⟦<Device as Peripheral>⟧ self.old name.now result self.new }
    {
        drive_device(&mut self.till_state, name)
    }

    /// Takes the printed paper of the device of a name away, and returns OK.
    ///
    /// # Errors
    ///
    /// NO_DEVICE if no device has the name or nothing serves it, and NO_MEMORY if memory ran out. Then nothing changes.
    pub fn tear_off(&mut self, name: &[u8]) -> u32
        ensures { TearsOff ⟦<Device as Awaits>⟧.course ⟦<Device as Peripheral>⟧ self.old name.now result self.new }
    {
        tear_off(&mut self.till_state, name)
    }

    /// Writes the next order of the devices that the host has, and removes it. It returns ORDER, or OK if none is left.
    ///
    /// # Errors
    ///
    /// - SHORT if `text` has less room than `needed` says. The order stays the next one.
    /// - ERRANDS if errands are left, and DISK_FAILED if one failed. Then nothing is written.
    /// - NO_MEMORY if memory ran out for the line of a driven device. Then nothing is written.
    pub fn next_order(&mut self, text: &mut [u8], needed: &mut usize) -> u32
        ensures { NextOrder ⟦<Device as Awaits>⟧.course ⟦<Device as Peripheral>⟧ self.old text.old text.new needed.old
            needed.new result self.new }
    {
        next_order(&mut self.till_state, &self.order_queue, text, needed)
    }

    /// Writes the bytes of the order that waits or that the host has, and returns OK.
    ///
    /// # Errors
    ///
    /// SHORT, NO_ORDER, BAD_SETTINGS and NO_MEMORY as `write_order_bytes` has them.
    pub fn order_bytes(
        &self,
        settings: &WireSettings,
        is_new: u32,
        end: u32,
        bytes: &mut [u8],
        needed: &mut usize,
    ) -> u32
        ensures { AnswersOrderBytes ⟦<Device as Awaits>⟧.course self.now settings.now is_new end bytes.old bytes.new
            needed.old needed.new result }
    {
        write_order_bytes(
            &self.till_state,
            self.alloc,
            settings,
            is_new,
            end,
            bytes,
            needed,
        )
    }

    /// Reads what a printer sent up to the end of the first reply, writes its lines for the device of a name, and
    /// returns OK.
    ///
    /// # Errors
    ///
    /// SHORT, NO_DEVICE, BAD_SETTINGS and NO_MEMORY as `write_reply` has them.
    pub fn replies(
        &self,
        name: &[u8],
        settings: &WireSettings,
        asked: u32,
        bytes: &[u8],
        used: &mut usize,
        skipped: &mut usize,
        text: &mut [u8],
        needed: &mut usize,
    ) -> u32
        ensures { AnswersReplies ⟦<Device as Peripheral>⟧ self.now settings.now name.now asked bytes.now used.old
            used.new skipped.old skipped.new text.old text.new needed.old needed.new result }
    {
        write_reply(
            &self.till_state,
            self.alloc,
            name,
            settings,
            asked,
            bytes,
            used,
            skipped,
            text,
            needed,
        )
    }

    /// Writes the number of the control of a name, and returns OK.
    ///
    /// # Errors
    ///
    /// NO_CONTROL if no control has the name. Then nothing is written.
    pub fn find_number(&self, name: &[u8], control: &mut usize) -> u32
        ensures { FindsNumber (number_named (names_of self.now.names) name.now) control.old control.new result }
    {
        find_number(&self.till_state.names, name, control)
    }

    /// Writes the lowest number, `from` or above, of a control that has an event to deliver, and returns EVENT; or
    /// returns OK if no such control has one.
    ///
    /// # Errors
    ///
    /// ERRANDS if errands are left, and DISK_FAILED if one failed. Then nothing is written, and neither with OK.
    pub fn next_event(&self, from: usize, control: &mut usize) -> u32
        ensures { NextEvent ⟦<Device as Peripheral>⟧ self.now from control.old control.new result }
    {
        next_event(&self.till_state, from, control)
    }

    /// Notes that an errand failed.
    pub fn fail(&mut self)
        ensures { Fails self.old self.new }
    {
        self.till_state.failed = true;
    }
}

impl Drop for Session {
    fn drop(self) {
        let Session {
            alloc: _,
            till_state,
            buffer: _,
            order_queue: _,
        } = self;
        let TillState {
            profile: _,
            counter,
            names: _,
            spares,
            answer: _,
            outcome: _,
            told: _,
            failed: _,
            orders: _,
            is_driven: _,
            held: _,
            left: _,
        } = till_state;
        end_counter(counter);
        spares.park_all();
    }
}
