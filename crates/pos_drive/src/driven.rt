//! Simulated peripherals that stand for a host's.
ghost use Rattle.std.specs.Prelude.{◌≡◌, ◌≢◌, true, false, Ok, MatchResult};
ghost use Rattle.pos_service.specs.Peripherals.{Asked, Fed, Parks, input_fits, order_fits};
ghost use Rattle.pos_drive.specs.Courses.{MovesOn, settled_course};
ghost use Rattle.pos_drive.specs.DrivenPeripherals.{Answers, Keeps, Passes, PutsOff, driven_of, driven_state, has_order};

use crate::awaits::Awaits;
use crate::courses::{Course, Progress};
use crate::hosted::Hosted;
use crate::paper::Tears;
use crate::preview::Preview;
use pos_service::{Ends, Input, Kind, NoMemory, Order, Peripheral, Reply, Signs, Snapshot, Taken};
use std::alloc::Global;
use std::mem::swap;

/// A simulated peripheral, the twin, that stands for a host's. Once it is driven, an order that the twin would carry
/// out is kept for the host and answers that there is no memory, until the host has reported what became of it and it
/// is given again. An order that the twin would refuse is refused at once, and the host never has it.
///
/// An order that is reported as done is passed to the twin. One that is reported as not done meets a line fault, if the
/// twin would still carry it out; otherwise the twin refuses it. A report is of one order: an order that differs from
/// it waits in its place.
pub struct Driven<P: Peripheral> {
    alloc: Global,
    twin: P,
    asks: u64,
    faults: u64,
    course: Course,
}

impl<P: Peripheral> Driven<P> {
    /// Returns a peripheral that has no host, and that was given no order.
    pub fn new(alloc: Global, twin: P) -> Self
        ensures { result ≡ driven_of alloc twin }
    {
        Driven {
            alloc,
            twin,
            asks: 0,
            faults: 0,
            course: Course::Free,
        }
    }

    /// Returns the twin.
    pub fn twin(&self) -> &P
        ensures { result.now ≡ self.now.twin }
    {
        &self.twin
    }

    /// Returns the twin, which has no host any more.
    pub fn into_twin(self) -> P
        ensures { result ≡ self.twin }
    {
        let Driven {
            alloc: _,
            twin,
            asks: _,
            faults: _,
            course: _,
        } = self;
        twin
    }

    /// Exchanges how it stands to its host, and returns how it stood.
    fn exchange(&mut self, course: Course) -> Course
        ensures old { result ≡ self.old.course }
        ensures new { self.new ≡ record self.old { course = course } }
    {
        let mut other = course;
        swap(&mut self.course, &mut other);
        other
    }
}

impl<P: Preview> Peripheral for Driven<P> {
    ghost state = { λ driven. driven_state P.Peripheral driven };

    fn kind(&self) -> Kind {
        self.twin.kind()
    }

    fn signs(&self) -> Signs {
        self.twin.signs()
    }

    fn ask(&mut self, order: &Order) -> Result<Reply, NoMemory>
        ensures asked { let state = driven_state P.Peripheral in
            (state self.old).is_parked ≡ false → order_fits (state self.old).kind order.now ≡ true →
            Asked (state self.old) order.now result (state self.new) }
        ensures only_reported { let state = driven_state P.Peripheral in
            (state self.old).is_parked ≡ false → order_fits (state self.old).kind order.now ≡ true →
            self.old.course ≢ Course.Free → result ≡ Ok Reply.Done → self.old.course ≡ Course.Reported order.now true }
        ensures answers { let state = driven_state P.Peripheral in
            (state self.old).is_parked ≡ false → order_fits (state self.old).kind order.now ≡ true →
            (said : Reply) → result ≡ Ok said → Answers P.Peripheral self.old order.now result self.new }
        ensures done { let state = driven_state P.Peripheral in
            (state self.old).is_parked ≡ false → order_fits (state self.old).kind order.now ≡ true →
            self.old.course ≡ Course.Reported order.now true → Passes P.Peripheral self.old order.now result self.new }
        ensures free { let state = driven_state P.Peripheral in
            (state self.old).is_parked ≡ false → order_fits (state self.old).kind order.now ≡ true →
            self.old.course ≡ Course.Free → Passes P.Peripheral self.old order.now result self.new }
        ensures puts_off { has_order self.old ≡ true → PutsOff self.old result self.new }
        ensures keeps { let state = driven_state P.Peripheral in
            (state self.old).is_parked ≡ false → order_fits (state self.old).kind order.now ≡ true →
            has_order self.old ≡ false → has_order self.new ≡ true →
            Keeps P.Peripheral self.old order.now result self.new }
        ensures settles { MatchResult result
            (λ said. self.new.course ≡ settled_course self.old.course)
            (λ want. has_order self.new ≡ false → self.new.course ≡ self.old.course) }
        ensures moves_on { MovesOn self.old.course order.now result self.new.course }
    {
        self.asks = self.asks.saturating_add(1);
        if self.course.waiting().is_some() {
            return Err(NoMemory);
        }
        if self.course.progress() == Progress::Free {
            return self.twin.ask(order);
        }
        let verdict = self.course.verdict(order);
        if verdict != Some(true) && self.twin.would(order) == Reply::Done {
            if verdict == Some(false) {
                self.faults = self.faults.saturating_add(1);
                self.course = Course::Ready;
                return Ok(Reply::LineFault);
            }
            self.course = Course::Waits(order.copy(self.alloc)?);
            return Err(NoMemory);
        }
        let reply = self.twin.ask(order)?;
        self.course = Course::Ready;
        Ok(reply)
    }

    fn feed(&mut self, input: &Input) -> Result<Taken, NoMemory>
        ensures fed { let state = driven_state P.Peripheral in
            (state self.old).is_parked ≡ false → input_fits (state self.old).kind input.now ≡ true →
            Fed (state self.old) input.now result (state self.new) }
        ensures course { self.new.course ≡ self.old.course }
    {
        self.twin.feed(input)
    }

    fn snapshot(&self) -> Result<Snapshot, NoMemory> {
        self.twin.snapshot()
    }

    fn park(&mut self)
        ensures parked { Parks (driven_state P.Peripheral self.old) (driven_state P.Peripheral self.new) }
        ensures course { self.new.course ≡ self.old.course }
    {
        self.twin.park();
    }

    fn is_parked(&self) -> bool {
        self.twin.is_parked()
    }
}

impl<P: Preview> Awaits for Driven<P> {
    ghost course = { λ driven. driven.course };

    fn progress(&self) -> Progress {
        self.course.progress()
    }

    fn waiting(&self) -> Option<&Order> {
        self.course.waiting()
    }

    fn settle(&mut self) {
        let course = self.exchange(Course::Ready);
        self.course = course.settled();
    }
}

impl<P: Preview + Tears> Hosted for Driven<P> {
    fn drive(&mut self) {
        let course = self.exchange(Course::Ready);
        self.course = course.driven();
    }

    fn hand_out(&mut self) {
        let course = self.exchange(Course::Ready);
        self.course = course.handed_out();
    }

    fn report(&mut self, is_done: bool) {
        let course = self.exchange(Course::Ready);
        self.course = course.reported(is_done);
    }

    fn tear_off(&mut self) -> Result<(), NoMemory> {
        self.twin.tear_off()
    }
}

impl<P: Preview + Ends> Ends for Driven<P> {
    fn end(self) {
        self.into_twin().end();
    }
}
