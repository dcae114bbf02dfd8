//! Lines of a till with driven devices. An order of such a device is answered only after the host's report.
ghost use Rattle.std.specs.Prelude.{◌≡◌, ◌⊎◌, MatchResult, false};
ghost use Rattle.pos_streams.specs.Transfers.{given_to};
ghost use Rattle.kijolvar.specs.Codes.{no_memory};
ghost use Rattle.kijolvar.specs.HeldLines.{BeginsAnswer, DropsHeld, EndsLines, GoesOn, IsTillSound};
ghost use Rattle.kijolvar.specs.LineAnswers.{RunsDriven};
ghost use Rattle.kijolvar.specs.Reports.{CutsInputs, TakesDone, TakesFailure, TakesReport};
ghost use Rattle.kijolvar.specs.Tills.{KeepsRest, session_in};

use crate::codes::{NO_MEMORY, NO_ORDER};
use crate::device::Device;
use crate::held_lines::{insert_behind_first, split_lines};
use crate::till_disk::TillDisk;
use crate::till_state::TillState;
use pos_disk::Disk;
use pos_drive::{Awaits, Progress};
use pos_run::{LineProgress, carry_on, run_given_lines};
use pos_script::LineBuffer;
use pos_service::Peripheral;
use pos_streams::WriteFault;
use std::alloc::Global;

/// The outcome of an order that the host's hardware has done.
const DONE: u32 = 0;

impl TillState {
    /// Forgets the answer to earlier lines.
    fn begin_answer(&mut self)
        requires { IsTillSound ⟦<Device as Peripheral>⟧ self.old }
        ensures begins { BeginsAnswer self.old self.new }
        ensures sound { IsTillSound ⟦<Device as Peripheral>⟧ self.new }
    {
        self.told = false;
        self.answer.clear();
    }

    /// Drops the lines that are held, and what the host has of their order.
    fn drop_held(&mut self)
        requires { IsTillSound ⟦<Device as Peripheral>⟧ self.old }
        ensures drops { DropsHeld ⟦<Device as Awaits>⟧.course ⟦<Device as Peripheral>⟧ self.old self.new }
        ensures sound { IsTillSound ⟦<Device as Peripheral>⟧ self.new }
    {
        self.held.clear();
        self.left = LineProgress::Printed;
        self.counter.settle();
    }

    /// Notes how lines ended. If memory ran out for what one prints, none is held any more.
    fn end_lines(&mut self, went: Result<LineProgress, WriteFault>)
        requires { IsTillSound ⟦<Device as Peripheral>⟧ self.old }
        ensures ends { EndsLines went self.old self.new }
        ensures sound { IsTillSound ⟦<Device as Peripheral>⟧ self.new }
    {
        match went {
            Ok(left) => {
                self.outcome = Ok(());
                self.left = left;
            }
            Err(fault) => {
                self.outcome = Err(fault);
                self.left = LineProgress::Printed;
                self.held.clear();
            }
        }
    }

    /// Carries out the lines that are held, up to one that waits, and adds what they print to the answer.
    #[tactic(auto, using(crate::proofs::HostedLemmas::file_follows))]
    fn go_on(&mut self, alloc: Global, buffer: &mut LineBuffer)
        requires told { self.old.told ≡ false }
        requires sound { IsTillSound ⟦<Device as Peripheral>⟧ self.old }
        ensures go_on { GoesOn ⟦<TillDisk as Disk>⟧ ⟦<Device as Awaits>⟧.course ⟦<Device as Peripheral>⟧
            self.old.counter (session_in ⟦<Device as Peripheral>⟧ self.old) (given_to self.old.answer)
            self.old.held.items self.new }
        ensures rest { KeepsRest self.old self.new }
        ensures sound { IsTillSound ⟦<Device as Peripheral>⟧ self.new }
    {
        let went = carry_on(
            alloc,
            &mut self.held,
            buffer,
            &mut self.answer,
            &mut self.counter,
            &mut self.names,
            &mut self.spares,
        );
        self.end_lines(went);
        self.counter.disk().is_in_step();
    }

    /// Carries out the lines of a text up to one that waits, and keeps what they print as the answer. No line is held
    /// before.
    ///
    /// # Errors
    ///
    /// NO_MEMORY if memory ran out for the lines. Then nothing changes.
    pub fn run_driven(
        &mut self,
        alloc: Global,
        buffer: &mut LineBuffer,
        text: &[u8],
    ) -> Result<(), u32>
        requires { IsTillSound ⟦<Device as Peripheral>⟧ self.old }
        ensures carries { MatchResult result (λ u. RunsDriven ⟦<TillDisk as Disk>⟧ ⟦<Device as Awaits>⟧.course
            ⟦<Device as Peripheral>⟧ self.old text.now self.new) (λ why. (why ≡ no_memory) × (self.new ≡ self.old)) }
        ensures sound { IsTillSound ⟦<Device as Peripheral>⟧ self.new }
    {
        let Ok(lines) = split_lines(alloc, text) else {
            return Err(NO_MEMORY);
        };
        self.held = lines;
        self.begin_answer();
        self.go_on(alloc, buffer);
        Ok(())
    }

    /// Takes the report that the host has done the order. Then the line that waits goes on, then the inputs, and then
    /// the others.
    ///
    /// # Errors
    ///
    /// NO_MEMORY if memory ran out for the inputs. Then nothing changes.
    fn take_done(
        &mut self,
        alloc: Global,
        buffer: &mut LineBuffer,
        inputs: &[u8],
    ) -> Result<(), u32>
        requires { IsTillSound ⟦<Device as Peripheral>⟧ self.old }
        ensures takes { MatchResult result (λ u. TakesDone ⟦<TillDisk as Disk>⟧ ⟦<Device as Awaits>⟧.course
            ⟦<Device as Peripheral>⟧ self.old inputs.now self.new) (λ why. (why ≡ no_memory) × (self.new ≡ self.old)) }
        ensures sound { IsTillSound ⟦<Device as Peripheral>⟧ self.new }
    {
        let Ok(lines) = split_lines(alloc, inputs) else {
            return Err(NO_MEMORY);
        };
        let Ok(()) = insert_behind_first(&mut self.held, lines) else {
            return Err(NO_MEMORY);
        };
        self.begin_answer();
        self.counter.report(true);
        self.go_on(alloc, buffer);
        Ok(())
    }

    /// Carries out the inputs, and takes the report that the host could not do the order. Then the line that waits goes
    /// on, and then the others. If memory runs out for what an input prints, none of them does.
    fn take_failure(&mut self, alloc: Global, buffer: &mut LineBuffer, inputs: &[u8])
        requires { IsTillSound ⟦<Device as Peripheral>⟧ self.old }
        ensures takes { TakesFailure ⟦<TillDisk as Disk>⟧ ⟦<Device as Awaits>⟧.course ⟦<Device as Peripheral>⟧ self.old
            inputs.now self.new ⊎ CutsInputs ⟦<TillDisk as Disk>⟧ ⟦<Device as Awaits>⟧.course ⟦<Device as Peripheral>⟧
            self.old inputs.now self.new }
        ensures sound { IsTillSound ⟦<Device as Peripheral>⟧ self.new }
    {
        self.begin_answer();
        self.outcome = run_given_lines(
            alloc,
            inputs,
            buffer,
            &mut self.answer,
            &mut self.counter,
            &mut self.names,
            &mut self.spares,
        );
        if self.outcome.is_ok() {
            self.counter.report(false);
            self.go_on(alloc, buffer);
        } else {
            self.drop_held();
            self.counter.disk().is_in_step();
        }
    }

    /// Takes the host's report of an order, with the inputs that belong to it, and carries out the lines that it lets
    /// go on. Lines that found no memory go on whatever the report says.
    ///
    /// # Errors
    ///
    /// NO_ORDER if the host has no order, and NO_MEMORY if memory ran out for the inputs. Then nothing changes.
    pub fn take_report(
        &mut self,
        alloc: Global,
        buffer: &mut LineBuffer,
        outcome: u32,
        inputs: &[u8],
    ) -> Result<(), u32>
        requires { IsTillSound ⟦<Device as Peripheral>⟧ self.old }
        ensures takes { TakesReport ⟦<TillDisk as Disk>⟧ ⟦<Device as Awaits>⟧.course ⟦<Device as Peripheral>⟧ self.old
            outcome inputs.now result self.new }
        ensures sound { IsTillSound ⟦<Device as Peripheral>⟧ self.new }
    {
        if self.left == LineProgress::NoMemory {
            self.begin_answer();
            self.go_on(alloc, buffer);
            return Ok(());
        }
        if self.counter.progress() != Progress::HandedOut {
            return Err(NO_ORDER);
        }
        if outcome == DONE {
            return self.take_done(alloc, buffer, inputs);
        }
        self.take_failure(alloc, buffer, inputs);
        Ok(())
    }
}
