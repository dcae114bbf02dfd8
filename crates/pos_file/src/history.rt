//! The calls of a file so far, and their kinds. Only contracts and proofs read a history; it takes no memory.
ghost use Rattle.std.specs.Prelude.{◌≡◌, ◌++◌, [], ◌∷◌, cond, List, None, Option, Some};
ghost use Rattle.std.specs.Borrow.{ftrue};
ghost use Rattle.pos_file.specs.Calls.{Call, call_of};

use std::marker::Model;

/// The calls of a file so far, the first one first. Only contracts see them, and they take no memory.
#[derive(Drop)]
pub struct CallHistory {
    /// The calls, the first one first.
    pub ghost calls: { List Call },
}

impl Model for CallHistory {
    ghost also_owns = { λ _. ftrue };
}

impl CallHistory {
    /// Returns the history of a file that was asked nothing yet.
    pub fn new() -> CallHistory
        ensures { result.calls ≡ [] }
    {
        CallHistory {}
    }

    // Returns the history with one more call, which failed or answered a number.
    fn and(
        &self,
        _kind: &CallKind,
        _at: &u64,
        _bytes: &[u8],
        _done: &bool,
        _number: &u64,
    ) -> CallHistory
        ensures { result.calls ≡ self.now.calls
            ++ call_of _kind.now _at.now _bytes.now (cond _done.now (Some _number.now) None) ∷ [] }
    {
        CallHistory {}
    }

    /// Adds one call, with the number that it answered, or `None` if it failed.
    pub fn note(&mut self, kind: CallKind, at: u64, bytes: &[u8], answer: Option<u64>)
        ensures { self.new.calls ≡ self.old.calls ++ call_of kind at bytes.now answer ∷ [] }
    {
        match answer {
            Some(number) => *self = self.and(&kind, &at, bytes, &true, &number),
            None => *self = self.and(&kind, &at, bytes, &false, &0),
        }
    }
}

/// What a file is asked for.
#[derive(Clone, Copy, PartialEq, Eq)]
pub enum CallKind {
    /// A lock for this program alone.
    Lock,
    /// A lock for reading.
    Share,
    /// Its length.
    Measure,
    /// A read.
    Read,
    /// A write.
    Write,
    /// A sync.
    Sync,
}
