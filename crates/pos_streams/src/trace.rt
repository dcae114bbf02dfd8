//! What went through a stream. Only contracts and proofs read it; it takes no memory.
ghost use Rattle.std.specs.Prelude.{◌≡◌, ◌++◌, ◌+◌, [], List, ℕ};
ghost use Rattle.std.specs.Borrow.{ftrue};

use std::marker::Model;

// Bytes, the first first.
#[derive(Drop)]
pub(crate) struct Trace {
    pub ghost bytes: { List ℕ },
}

impl Model for Trace {
    ghost also_owns = { λ _. ftrue };
}

impl Trace {
    // No bytes.
    pub(crate) fn new() -> Trace
        ensures { result.bytes ≡ [] }
    {
        Trace {}
    }

    // These bytes, and then those.
    pub(crate) fn and(&self, _bytes: &[u8]) -> Trace
        ensures { result.bytes ≡ self.now.bytes ++ _bytes.now }
    {
        Trace {}
    }
}

// How often something happened.
#[derive(Drop)]
pub(crate) struct Count {
    pub ghost count: { ℕ },
}

impl Model for Count {
    ghost also_owns = { λ _. ftrue };
}

impl Count {
    // Never.
    pub(crate) fn new() -> Count
        ensures { result.count ≡ 0 }
    {
        Count {}
    }

    // Once more.
    pub(crate) fn once_more(&self) -> Count
        ensures { result.count ≡ self.now.count + 1 }
    {
        Count {}
    }
}
