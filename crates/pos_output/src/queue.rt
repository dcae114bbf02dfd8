//! The outstanding output of one control.
ghost use Rattle.std.specs.Prelude.{◌≡◌, ◌==◌, ◌<◌, true, Some, length, option_map, IsSome, IfOk, IfErr};
ghost use Rattle.pos_service.specs.Output.{last_output_id, no_output, output_deleted, request_done, request_failed, request_retried, request_to_do, with_request};

use pos_service::Order;
use std::alloc::Global;
use std::collections::VecDeque;
use std::marker::Model;
use thiserror::Error;

/// The outstanding output of a control: its requests with their OutputIDs, oldest first (common chapter, OutputID). It
/// also has whether the first has failed, and the OutputID of the next. Contracts see these.
#[derive(Drop)]
pub struct OutputQueue {
    requests: VecDeque<(u64, Order)>,
    is_failed: bool,
    next: u64,
}

impl Model for OutputQueue {
    ghost use Rattle.pos_service.specs.Output.{Output};

    ghost Value = { Output };

    ghost view = { λ a. record { requests = a.requests.items; is_failed = a.is_failed; next = a.next } };
}

impl OutputQueue {
    /// Returns a queue without output, with the OutputID that the first request gets.
    pub fn starting(alloc: Global, next_id: u64) -> Self
        ensures { result ≡ no_output next_id }
    {
        OutputQueue {
            requests: VecDeque::new(alloc),
            is_failed: false,
            next: next_id,
        }
    }

    /// Returns whether no request is held, whether or not the first has failed.
    pub fn is_empty(&self) -> bool
        ensures { result ≡ (length self.now.requests == 0) }
    {
        self.requests.is_empty()
    }

    /// Returns the OutputID that the next request gets. 18446744073709551615 means that none is left.
    pub fn next_id(&self) -> u64
        ensures { result ≡ self.now.next }
    {
        self.next
    }

    /// Queues a request after the others, and returns its OutputID. A failed first request stays the first.
    ///
    /// # Errors
    ///
    /// `NoMemory` if memory ran out, and `Exhausted` if no OutputID is left. Then nothing has changed, and the order is
    /// returned.
    pub fn put(&mut self, order: Order) -> Result<u64, (PutFault, Order)>
        ensures given { IfOk result (λ id. id ≡ self.old.next) }
        ensures queued { IfOk result (λ _. self.new ≡ with_request order self.old) }
        ensures left { IfOk result (λ _. self.old.next < last_output_id) }
        ensures exhausted { IfErr result (λ back. back.0 ≡ PutFault.Exhausted → self.old.next ≡ last_output_id) }
        ensures handed_back { IfErr result (λ back. back.1 ≡ order) }
        ensures unchanged { IfErr result (λ _. self.new ≡ self.old) }
    {
        if self.requests.reserve(1).is_err() {
            return Err((PutFault::NoMemory, order));
        }
        if self.next == u64::MAX {
            return Err((PutFault::Exhausted, order));
        }
        let id = self.next;
        self.requests.push_back_reserved((id, order));
        self.next += 1;
        Ok(id)
    }

    /// Returns the request that is to be done now, with its OutputID: the first one, or `None` if it has failed or
    /// there is none.
    pub fn first(&self) -> Option<(u64, &Order)>
        ensures { option_map (λ request. (request.0, request.1.now)) result ≡ request_to_do self.now }
    {
        if self.is_failed {
            return None;
        }
        match self.requests.front() {
            Some((id, order)) => Some((*id, order)),
            None => None,
        }
    }

    /// Removes the request that was to be done, because it is done, and returns its OutputID.
    pub fn done(&mut self) -> u64
        requires { IsSome (request_to_do self.old) }
        ensures id { option_map (λ request. request.0) (request_to_do self.old) ≡ Some result }
        ensures removed { self.new ≡ request_done self.old }
    {
        match self.requests.pop_front() {
            Some((id, _)) => id,
            None => unreachable!(),
        }
    }

    /// Notes that the request that was to be done has failed. It stays the first, and nothing is to be done until it is
    /// retried or cleared.
    pub fn failed(&mut self)
        requires { IsSome (request_to_do self.old) }
        ensures { self.new ≡ request_failed self.old }
    {
        self.is_failed = true;
    }

    /// Returns whether the first request has failed, so that the control is in the output error state (common chapter,
    /// error handling).
    pub fn is_failed(&self) -> bool
        ensures { result ≡ self.now.is_failed }
    {
        self.is_failed
    }

    /// Makes the failed request the one to be done again, with the OutputID that it has (common chapter, ER_RETRY).
    pub fn retry(&mut self)
        requires { self.old.is_failed ≡ true }
        ensures { self.new ≡ request_retried self.old }
    {
        // the first request keeps its OutputID
        self.is_failed = false;
    }

    /// Deletes all requests, and ends the error (common chapter, clearOutput, ER_CLEAR). OutputIDs go on.
    pub fn clear(&mut self)
        ensures { self.new ≡ output_deleted self.old }
    {
        self.requests.clear();
        self.is_failed = false;
    }
}

/// Why a request was not queued. Nothing has changed then.
#[derive(Clone, Copy, Debug, PartialEq, Eq, Error)]
pub enum PutFault {
    /// No OutputID is left: the next one would be 18,446,744,073,709,551,615.
    #[error("no OutputID is left")]
    Exhausted,
    /// Memory ran out.
    #[error("no memory")]
    NoMemory,
}
