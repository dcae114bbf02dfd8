//! A counter that is made, and a list of requests that are carried out. Where one of them finds no memory it is asked
//! once more, and each request that takes memory stands twice: so with one growth refused all else is as with none.
//! With ample memory nothing is asked again, and no request is refused: tests with names in `ample_` say so.
ghost use Rattle.std.specs.Prelude.{IfOk, All};
ghost use Rattle.pos_counter.specs.Counters.{IsCounterSound};
ghost use Rattle.pos_counter.specs.Responses.{OffersInService};

use pos_counter::{Counter, Ended};
use pos_disk::{Disk, MemDisk};
use pos_image::new_disk;
use pos_profile::{Profile, Slot};
use pos_service::{
    Answer, Bytes, Call, Category, ErrorReply, LentBytes, NoMemory, Peripheral, Property, Request,
    Response, Value,
};
use pos_sims::PlainDrawer;
use std::alloc::Global;
use std::test::Fail;

type Requests<'a> = Vec<Request<'a, (), usize, PlainDrawer>>;

/// A counter over the devices of a profile, for which memory may be refused once or not. A refusal hands its disk back.
fn made<D: Disk, P: Peripheral>(
    alloc: Global,
    profile: &Profile,
    disk: D,
    is_ample: bool,
) -> Result<Counter<D, P>, (NoMemory, D)>
    ensures { IfOk result (λ counter. IsCounterSound P.Peripheral counter) }
{
    match Counter::new(alloc, profile, Vec::new(alloc), disk) {
        Err((NoMemory, disk)) => {
            if is_ample {
                return Err((NoMemory, disk));
            }
            Counter::new(alloc, profile, Vec::new(alloc), disk)
        }
        made => made,
    }
}

/// A call that sets DeviceEnabled.
fn enable<'a>(number: usize) -> Request<'a, (), usize, PlainDrawer>
    ensures { OffersInService ⟦<PlainDrawer as Peripheral>⟧ result }
{
    Request::CallOf(
        number,
        Call::Set(Property::DeviceEnabled, Value::Truth(true)),
    )
}

/// A call that sets PowerNotify to PN_ENABLED.
fn notify<'a>(number: usize) -> Request<'a, (), usize, PlainDrawer>
    ensures { OffersInService ⟦<PlainDrawer as Peripheral>⟧ result }
{
    Request::CallOf(number, Call::Set(Property::PowerNotify, Value::Number(1)))
}

/// Two controls each of Hard Totals and of the drawer, which is attached, opened and detached; its power is told as it
/// is enabled.
fn requests<'a>(alloc: Global) -> Result<Requests<'a>, NoMemory>
    ensures { IfOk result (λ requests. All (OffersInService ⟦<PlainDrawer as Peripheral>⟧) requests.items) }
{
    let totals = Bytes::from_slice(alloc, b"t1")?;
    let drawer = Bytes::from_slice(alloc, b"d1")?;
    let peripheral = PlainDrawer::new();
    let listed = vec![in alloc;
        Request::NewControl((), Category::HardTotals),
        Request::NewControl((), Category::HardTotals),
        Request::NewControl((), Category::CashDrawer),
        Request::NewControl((), Category::CashDrawer),
        Request::CallOf(0, Call::Open(totals)),
        enable(0),
        enable(0),
        Request::Attach(LentBytes::from_slice(b"d1"), peripheral),
        Request::CallOf(2, Call::Open(drawer)),
        notify(2),
        enable(2),
        enable(2),
        Request::CallOf(2, Call::OpenDrawer),
        Request::CallOf(2, Call::OpenDrawer),
        Request::Snapshot(LentBytes::from_slice(b"d1")),
        Request::Deliver(2, ErrorReply::Default),
        Request::CallOf(2, Call::Close),
        Request::Detach(LentBytes::from_slice(b"d1")),
    ];
    match listed {
        Ok(listed) => Ok(listed),
        Err(_) => Err(NoMemory),
    }
}

const WANTED: [&str; 18] = [
    "made",
    "made",
    "made",
    "made",
    "done",
    "done",
    "done",
    "attached",
    "done",
    "done",
    "done",
    "done",
    "done",
    "done",
    "shown",
    "delivered",
    "done",
    "detached",
];

/// What a response is.
fn word<P>(response: &Response<P>) -> &'static str {
    match response {
        Response::Made(_) => "made",
        Response::Answered(Answer::Done(_)) => "done",
        Response::Attached => "attached",
        Response::Shown(_) => "shown",
        Response::Delivered(Some(_)) => "delivered",
        Response::Detached(_) => "detached",
        Response::OutOfMemory => "memory",
        _ => "refused",
    }
}

/// Carries requests out, for which memory may be refused once or not. A refusal hands them back.
fn performed<'a>(
    counter: &mut Counter<MemDisk, PlainDrawer>,
    requests: Requests<'a>,
    is_ample: bool,
) -> Result<Vec<Response<PlainDrawer>>, (NoMemory, Requests<'a>)>
    requires sound { IsCounterSound ⟦<PlainDrawer as Peripheral>⟧ counter.old }
    requires in_service { All (OffersInService ⟦<PlainDrawer as Peripheral>⟧) requests.items }
    ensures { IsCounterSound ⟦<PlainDrawer as Peripheral>⟧ counter.new }
{
    match counter.perform(requests) {
        Err((NoMemory, requests)) => {
            if is_ample {
                return Err((NoMemory, requests));
            }
            counter.perform(requests)
        }
        done => done,
    }
}

/// How many responses aren't those wanted: none, or one that found no memory.
fn count_others(responses: &[Response<PlainDrawer>]) -> usize {
    let mut others = 0usize;
    for (response, wanted) in responses.iter().zip(WANTED) {
        if word(response) != wanted {
            others = others.saturating_add(if word(response) == "memory" { 1 } else { 2 });
        }
    }
    others
}

/// Ends devices and their drawers.
fn end_drawers(mut entries: Vec<Slot<PlainDrawer>>) {
    while let Some(entry) = entries.pop() {
        let Slot {
            name: _,
            kind: _,
            peripheral: _,
        } = entry;
    }
    entries.destroy_empty();
}

/// How many responses to the requests aren't those wanted.
fn count_refused(alloc: Global, is_ample: bool) -> Result<usize, Fail> {
    let profile = Profile::built(alloc)?;
    let Ok(mut counter) = made(alloc, &profile, new_disk(alloc)?, is_ample) else {
        return Err(Fail::new("no memory for a counter"));
    };
    let outcome = match requests(alloc) {
        Ok(requests) => performed(&mut counter, requests, is_ample),
        Err(_) => Err((NoMemory, Vec::new(alloc))),
    };
    let Ended { disk: _, entries } = counter.shutdown();
    end_drawers(entries);
    let Ok(responses) = outcome else {
        return Err(Fail::new("no memory for a list"));
    };
    if responses.len() != WANTED.len() {
        return Err(Fail::new("requests without a response"));
    }
    Ok(count_others(&responses))
}

#[test]
fn requests_are_performed(rt: HostRuntime) -> Result<(), Fail> {
    assert!(rt; count_refused(rt.alloc(), false)? < 2);
    Ok(())
}

#[test]
fn ample_memory_refuses_no_request(rt: HostRuntime) -> Result<(), Fail> {
    assert_eq!(rt; count_refused(rt.alloc(), true)?, 0);
    Ok(())
}
