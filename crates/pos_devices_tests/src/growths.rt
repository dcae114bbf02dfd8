use crate::steps::control;
use pos_common::{Claims, room_all};
use pos_events::EventQueue;
use pos_output::{OutputQueue, PutFault};
use pos_service::{Category, ErrorReply, NoMemory, Order};
use std::test::Fail;

#[test]
fn texts_of_faults(rt: HostRuntime) -> Result<(), Fail> {
    let (memory, last) = (PutFault::NoMemory, PutFault::Exhausted);
    let told = format!(in rt.alloc(); "{NoMemory}; {memory}; {last}")?;
    assert_eq!(rt; told.as_str(), "no memory; no memory; no OutputID is left");
    Ok(())
}

#[test]
fn more_than_memory_holds_is_refused(rt: HostRuntime) {
    let mut controls = [control(rt.alloc(), Category::Scanner)];
    assert!(rt; room_all(&mut controls, 0, usize::MAX).is_err());
    assert!(rt; Claims::new(rt.alloc(), usize::MAX).is_err());
}

#[test]
fn a_refused_growth_enqueues_nothing(rt: HostRuntime) {
    let mut queue = EventQueue::new(rt.alloc());
    let mut enqueued: u32 = 0;
    for _ in 0..100 {
        if let Ok(()) = queue.room(2) {
            queue.status(7);
            enqueued = enqueued.saturating_add(1);
        }
    }
    assert!(rt; enqueued >= 99 && queue.room(usize::MAX).is_err());
    let mut told: u32 = 0;
    for _ in 0..101 {
        if queue.deliver(false, false, ErrorReply::Default).is_some() {
            told = told.saturating_add(1);
        }
    }
    assert_eq!(rt; told, enqueued);
}

#[test]
fn a_refused_growth_queues_nothing(rt: HostRuntime) {
    let mut queue = OutputQueue::starting(rt.alloc(), 1);
    let mut last = 0;
    for _ in 0..100 {
        match queue.put(Order::OpenDrawer) {
            Ok(id) => last = id,
            Err((fault, order)) => {
                assert_eq!(rt; fault, PutFault::NoMemory);
                assert!(rt; matches!(order, Order::OpenDrawer));
            }
        }
    }
    let mut done = 0;
    for _ in 0..100 {
        if queue.first().is_some() {
            done = queue.done();
        }
    }
    assert!(rt; last >= 99 && done == last && queue.is_empty());
}
