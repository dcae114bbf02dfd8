//! What the lines of a script ask of their session, by what was read of their words.
ghost use Rattle.std.specs.Prelude.{List, ℕ};
ghost use Rattle.pos_counter.specs.Steps.{NewControl, InputTo, Deliver, Attach};
ghost use Rattle.pos_script.specs.Commands.{LineRequest, asked_of};
ghost use Rattle.pos_run.specs.LineRuns.{RunsAsking};
ghost use Rattle.pos_run.specs.Sessions.{IsSessionSound, KeepsSession, session_in};

use crate::names::Names;
use crate::spares::Spares;
use pos_counter::Counter;
use pos_counter::responses::{of_control, of_input, of_snapshot, of_work};
use pos_disk::Disk;
use pos_script::{DeviceVerb, LineReply};
use pos_service::{Category, Ends, ErrorReply, Input, Peripheral, Response};

/// What runs the lines of a script: a counter, the names of its controls, and the spares beside it.
#[derive(Drop)]
pub(crate) struct Session<'a, D: Disk, P> {
    pub(crate) counter: &'a mut Counter<D, P>,
    pub(crate) names: &'a mut Names,
    pub(crate) spares: &'a mut Spares<P>,
}

/// What is read of a line's words after a name, by which the line asks something of a session.
pub(crate) trait Asks<D: Disk, P: Peripheral>: Sized + Drop {
    ghost asked: { List ℕ → Self → LineRequest };

    /// Asks it, with the name of a control or a device, and returns the reply.
    fn ask(&self, name: &[u8], session: &mut Session<'_, D, P>) -> LineReply
        requires { IsSessionSound P.Peripheral session.old }
        ensures asks { RunsAsking D.Disk P.Peripheral session.old.counter.now
            (session_in P.Peripheral session.old) (asked name.now self.now) result
            (session_in P.Peripheral session.new) session.new.counter.now }
        ensures session { KeepsSession P.Peripheral session.old session.new };
}

/// Makes a control, under a name that no control has.
impl<D: Disk, P: Peripheral> Asks<D, P> for Category {
    ghost asked = { λ name category. NewControl name category };

    #[tactic(auto, using(crate::proofs::SessionLemmas::asks_none, crate::proofs::SessionLemmas::asks_unkept))]
    #[inline(always)]
    fn ask(&self, name: &[u8], session: &mut Session<'_, D, P>) -> LineReply {
        if session.names.find(name).is_some() {
            return LineReply::BadControl;
        }
        let Ok(copy) = session.names.make_room(name) else {
            return LineReply::Memory;
        };
        match session.counter.control(*self) {
            Ok(number) => {
                session.names.add(copy, number);
                LineReply::Responded(Response::Made(number))
            }
            Err(fault) => LineReply::Responded(of_control(Err(fault))),
        }
    }
}

/// Delivers an event to the control of a name.
impl<D: Disk, P: Peripheral> Asks<D, P> for ErrorReply {
    ghost asked = { λ name reply. Deliver name reply };

    #[tactic(auto, using(crate::proofs::SessionLemmas::asks_none))]
    #[inline(always)]
    fn ask(&self, name: &[u8], session: &mut Session<'_, D, P>) -> LineReply {
        match session.names.find(name) {
            Some(number) => LineReply::Responded(Response::Delivered(
                session.counter.deliver(number, *self),
            )),
            None => LineReply::BadControl,
        }
    }
}

/// Passes an input on to a device.
impl<D: Disk, P: Peripheral> Asks<D, P> for Input {
    ghost asked = { λ name input. InputTo name input };

    #[inline(always)]
    fn ask(&self, name: &[u8], session: &mut Session<'_, D, P>) -> LineReply {
        LineReply::Responded(of_input(session.counter.input(name, self)))
    }
}

/// Attaches the spare of a number to a device. One that is refused goes back to its place.
impl<D: Disk, P: Peripheral> Asks<D, P> for u32 {
    ghost asked = { λ name number. Attach name number };

    #[inline(always)]
    fn ask(&self, name: &[u8], session: &mut Session<'_, D, P>) -> LineReply {
        let Some(peripheral) = session.spares.take(*self) else {
            return LineReply::BadSpare;
        };
        match session.counter.attach(name, peripheral) {
            Ok(()) => LineReply::Responded(Response::Attached),
            Err((fault, peripheral)) => {
                session.spares.put(*self, peripheral);
                LineReply::Responded(Response::NotAttached(fault, ()))
            }
        }
    }
}

/// Does what a line's verb asks of a device. A peripheral that is detached is out of service, and is ended.
impl<D: Disk, P: Peripheral + Ends> Asks<D, P> for DeviceVerb {
    ghost asked = { λ name by. asked_of by name };

    #[inline(always)]
    fn ask(&self, name: &[u8], session: &mut Session<'_, D, P>) -> LineReply {
        match self {
            DeviceVerb::Show => LineReply::Responded(of_snapshot(session.counter.snapshot(name))),
            DeviceVerb::Work => LineReply::Responded(of_work(session.counter.work(name))),
            DeviceVerb::Detach => match session.counter.detach(name) {
                Ok(peripheral) => {
                    peripheral.end();
                    LineReply::Responded(Response::Detached(()))
                }
                Err(fault) => LineReply::Responded(Response::NotDetached(fault)),
            },
        }
    }
}
