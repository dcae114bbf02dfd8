//! The counter, its requests, and its end.
ghost use Rattle.std.specs.Prelude.{◌≡◌, [], length, All, IfOk, IfErr, None, OnErr, replicate};
ghost use Rattle.pos_disk.specs.State.{IsAtRest};
ghost use Rattle.pos_profile.specs.Registries.{AreParked, devices_of as registered_in, planned_of};
ghost use Rattle.pos_totals.specs.Views.{WhenReady};
ghost use Rattle.pos_counter.specs.Steps.{NewControl, Deliver, Delivered};
ghost use Rattle.pos_counter.specs.KeptDevices.{HandsOver, totals_name};
ghost use Rattle.pos_counter.specs.Responses.{HandsOut, OffersInService, made, request_of, response_of, steps_of};
ghost use Rattle.pos_counter.specs.Totals.{TotalsPart};
ghost use Rattle.pos_counter.specs.Counters.{machine, Begins, IsStep, IsStepBeside, IsRun, Stays, IsCounterSound};
ghost use Rattle.pos_counter.specs.NextEvent.{IsNextEvent};

use crate::devices::Devices;
use crate::faults::ControlFault;
use crate::host_tally::HostTally;
use crate::responses;
use pos_common::{Claims, Control};
use pos_disk::Disk;
use pos_profile::{Profile, Slot, end_all};
use pos_service::{
    Bytes, Category, Ends, ErrorReply, Event, NoMemory, Peripheral, Request, Response,
};
use pos_totals::Totals;
use std::alloc::Global;

/// How many controls there may be.
const MOST_CONTROLS: usize = 4096;

/// The handle of a new counter's first file.
const FIRST_HANDLE: u64 = 1;

/// The controls of all applications, the devices that they share, and the totals on a disk. Only `shutdown` ends it.
///
/// Each call is a step of the device machine that the counter stands for, so each list of calls is a run of it. For
/// calls at Hard Totals that use the disk, and for what a crash leaves, this holds over an honest disk. Everything else
/// is a step over any disk. See docs/reference/model.md, "Over any disk".
pub struct Counter<D: Disk, P> {
    pub(crate) alloc: Global,
    pub(crate) controls: Vec<Control>,
    pub(crate) claims: Claims,
    pub(crate) devices: Devices<P>,
    /// The name of the Hard Totals, if the profile has them.
    pub(crate) totals_name: Option<Bytes>,
    pub(crate) totals: Totals<D>,
    /// What has passed between it and the host of its devices.
    pub(crate) tally: HostTally,
}

/// What is left of a counter that was ended.
pub struct Ended<D: Disk, P> {
    /// The disk of the totals, at rest if they were ready.
    pub disk: D,
    /// The devices, each once, in the profile's order. Each has the peripheral that served it, out of service.
    pub entries: Vec<Slot<P>>,
}

impl<D: Disk, P: Ends> Ended<D, P> {
    /// Ends what served the devices, which is out of service, and returns the disk.
    pub fn end(self) -> D
        requires { AreParked (registered_in P.Peripheral self.entries.items) }
        ensures { result ≡ self.disk }
    {
        let Ended { disk, entries } = self;
        end_all(entries);
        disk
    }
}

/// Returns the claims of a profile's devices, none of which is held, and the name of its Hard Totals, if it has them.
///
/// # Errors
///
/// [`NoMemory`] if memory ran out.
fn prepare(alloc: Global, profile: &Profile) -> Result<(Claims, Option<Bytes>), NoMemory>
    ensures claims { IfOk result (λ made. made.0 ≡ replicate (length (planned_of profile.now.devices)) None) }
    ensures name { IfOk result (λ made. made.1 ≡ totals_name profile.now.devices) }
{
    let claims = Claims::new(alloc, profile.count_places())?;
    let Some(entry) = profile.totals() else {
        return Ok((claims, None));
    };
    let name = Bytes::from_slice(alloc, entry.name.as_bytes())?;
    Ok((claims, Some(name)))
}

impl<D: Disk, P: Peripheral> Counter<D, P> {
    /// Returns a counter without controls, over a disk and the devices of a profile, each vacant. The totals are off
    /// until a control of Hard Totals is enabled. The slots are an empty list, which becomes a part of the counter.
    ///
    /// # Errors
    ///
    /// [`NoMemory`] if memory ran out. Then the list is ended, and the disk is returned as it was.
    pub fn new(
        alloc: Global,
        profile: &Profile,
        slots: Vec<Slot<P>>,
        disk: D,
    ) -> Result<Self, (NoMemory, D)>
        requires empty { slots.items ≡ [] }
        ensures begins { IfOk result (λ counter. Begins P.Peripheral profile.now.devices disk counter) }
        ensures sound { IfOk result (λ counter. IsCounterSound P.Peripheral counter) }
        ensures handed_back { IfErr result (λ refusal. refusal.1 ≡ disk) }
    {
        let Ok((claims, totals_name)) = prepare(alloc, profile) else {
            slots.destroy_empty();
            return Err((NoMemory, disk));
        };
        match Devices::new(alloc, profile, slots) {
            Ok(devices) => Ok(Counter {
                alloc,
                controls: Vec::new(alloc),
                claims,
                devices,
                totals_name,
                totals: Totals::new(alloc, disk, FIRST_HANDLE),
                tally: HostTally::none(),
            }),
            Err(want) => Err((want, disk)),
        }
    }

    /// Makes a closed control of a category, and returns its number, counted from 0.
    ///
    /// # Errors
    ///
    /// `Full` if there are 4,096 controls, closed ones included, and `NoMemory` if memory ran out. Then nothing has
    /// changed.
    pub fn control(&mut self, category: Category) -> Result<usize, ControlFault>
        requires sound { IsCounterSound P.Peripheral self.old }
        ensures step { IsStep D.Disk P.Peripheral self.old (NewControl tt category) (made result) self.new }
        ensures sound { IsCounterSound P.Peripheral self.new }
    {
        let number = self.controls.len();
        if number >= MOST_CONTROLS {
            return Err(ControlFault::Full);
        }
        if self.controls.reserve(1).is_err() {
            return Err(ControlFault::NoMemory);
        }
        match self.totals.add_control() {
            Ok(()) => {
                self.controls
                    .push_reserved(Control::new(self.alloc, category));
                Ok(number)
            }
            Err(NoMemory) => Err(ControlFault::NoMemory),
        }
    }

    /// Takes the event that may be delivered to a control, and returns it (common chapter, event queue). The reply is
    /// the application's, if it is an ErrorEvent. It is `None` if there is no such event, or no control of this number.
    #[inline(always)]
    pub fn deliver(&mut self, number: usize, reply: ErrorReply) -> Option<Event>
        requires sound { IsCounterSound P.Peripheral self.old }
        ensures step { IsStepBeside P.Peripheral self.old (Deliver number reply) (Delivered result) self.new }
        ensures sound { IsCounterSound P.Peripheral self.new }
    {
        if number >= self.controls.len() {
            return None;
        }
        self.controls[number].deliver(reply)
    }

    /// Carries out requests one after another, and returns their responses in order. Each peripheral that is to be
    /// attached is in service. A request that finds no memory has the response `OutOfMemory`.
    ///
    /// # Errors
    ///
    /// [`NoMemory`] if there is none for the list of responses. Then nothing has changed, and the requests are
    /// returned.
    pub fn perform<'a>(
        &mut self,
        requests: Vec<Request<'a, (), usize, P>>,
    ) -> Result<Vec<Response<P>>, (NoMemory, Vec<Request<'a, (), usize, P>>)>
        requires sound { IsCounterSound P.Peripheral self.old }
        requires in_service { All (OffersInService P.Peripheral) requests.items }
        ensures run { IfOk result (λ responses.
            IsRun D.Disk P.Peripheral self.old (steps_of P.Peripheral requests.entry.items responses.items) self.new) }
        ensures whole { IfOk result (λ responses. length responses.items ≡ length requests.entry.items) }
        ensures handed_out { IfOk result (λ responses. All (HandsOut P.Peripheral) responses.items) }
        ensures handed_back { IfErr result (λ refusal. refusal.1 ≡ requests.entry) }
        ensures unchanged { OnErr result (Stays P.Peripheral self.old self.new) }
        ensures tally { OnErr result (self.new.tally ≡ self.old.tally) }
        ensures sound { IsCounterSound P.Peripheral self.new }
    {
        let Ok(mut responses) = Vec::with_capacity(self.alloc, requests.len()) else {
            return Err((NoMemory, requests));
        };
        let mut waiting = requests;
        waiting.reverse();
        while let Some(request) = waiting.pop() {
            let response = self.respond(request);
            responses.push_reserved(response);
        }
        waiting.destroy_empty();
        Ok(responses)
    }

    /// Carries out a request, and returns its response. A peripheral that is to be attached is in service.
    fn respond(&mut self, request: Request<'_, (), usize, P>) -> Response<P>
        requires sound { IsCounterSound P.Peripheral self.old }
        requires in_service { OffersInService P.Peripheral request }
        ensures step { IsStep D.Disk P.Peripheral self.old (request_of P.Peripheral request.entry)
            (response_of P.Peripheral result) self.new }
        ensures handed_out { HandsOut P.Peripheral result }
        ensures sound { IsCounterSound P.Peripheral self.new }
    {
        match request {
            Request::NewControl(_, category) => responses::of_control(self.control(category)),
            Request::CallOf(number, call) => responses::of_call(self.call(number, &call)),
            Request::InputTo(device, input) => {
                responses::of_input(self.input(device.as_slice(), &input))
            }
            Request::WorkOn(device) => responses::of_work(self.work(device.as_slice())),
            Request::Deliver(number, reply) => Response::Delivered(self.deliver(number, reply)),
            Request::Snapshot(device) => responses::of_snapshot(self.snapshot(device.as_slice())),
            Request::Attach(device, peripheral) => {
                responses::of_attach(self.attach(device.as_slice(), peripheral))
            }
            Request::Detach(device) => responses::of_detach(self.detach(device.as_slice())),
        }
    }

    /// Ends the counter, and returns the disk and the devices, each once, in the profile's order. Their peripherals are
    /// taken out of service, and are otherwise as they were. It takes no memory.
    pub fn shutdown(self) -> Ended<D, P>
        requires sound { IsCounterSound P.Peripheral self }
        ensures disk { result.disk ≡ self.totals.disk }
        ensures at_rest { D.honest result.disk → WhenReady self.totals.totals.mode (IsAtRest (D.state result.disk)) }
        ensures parked { AreParked (registered_in P.Peripheral result.entries.items) }
        ensures entries { (part : TotalsPart)
            → HandsOver (machine P.Peripheral self part) (registered_in P.Peripheral result.entries.items) }
    {
        let Counter {
            alloc: _,
            controls: _,
            claims: _,
            devices,
            totals_name: _,
            totals,
            tally: _,
        } = self;
        Ended {
            disk: totals.into_disk(),
            entries: devices.into_entries(),
        }
    }
}

impl<D: Disk, P: Peripheral> Counter<D, P> {
    /// Returns the lowest number, `from` or above, of a control to which `deliver` would give an event now, or `None`
    /// if there is no such control. It takes no memory.
    pub fn next_event(&self, from: usize) -> Option<usize>
        ensures { (part : TotalsPart) → IsNextEvent (machine P.Peripheral self.now part) from result }
    {
        for number in from..self.controls.len() {
            if self.controls[number].has_deliverable() {
                return Some(number);
            }
        }
        None
    }
}
