//! Bytes that are owned.
ghost use Rattle.std.specs.Prelude.{◌≡◌, ◌+◌, ◌++◌, ◌≤◌, drop, length, replicate, take, IfOk};

use std::alloc::{AllocError, Global};
use std::marker::Model;

/// A list of bytes that are owned: a name, the data of a call, the bytes of a file. Contracts see the list.
#[derive(Drop)]
pub struct Bytes {
    items: Vec<u8>,
}

impl Model for Bytes {
    ghost use Rattle.std.specs.Prelude.{List, ℕ};

    ghost Value = { List ℕ };

    ghost view = { λ bytes. bytes.items.items };
}

impl Bytes {
    /// Returns these bytes. It takes no memory.
    pub fn from_vec(items: Vec<u8>) -> Self
        ensures { result ≡ items.items }
    {
        Bytes { items }
    }

    /// Returns a copy of these bytes.
    ///
    /// # Errors
    ///
    /// [`AllocError`] if memory ran out.
    pub fn from_slice(alloc: Global, bytes: &[u8]) -> Result<Self, AllocError>
        ensures { IfOk result (λ copy. copy ≡ bytes.now) }
    {
        Ok(Bytes::from_vec(Vec::from_slice(alloc, bytes)?))
    }

    /// Returns the bytes as a `Vec`. It takes no memory.
    pub fn into_vec(self) -> Vec<u8>
        ensures { result.items ≡ self }
    {
        let Bytes { items } = self;
        items
    }

    /// Returns the bytes in order.
    pub fn as_slice(&self) -> &[u8]
        ensures { result.now ≡ self.now }
    {
        self.items.as_slice()
    }

    /// Puts bytes in the place of those from an offset on. The offset is counted from 0, and the bytes end within the
    /// list.
    pub fn overwrite(&mut self, offset: usize, bytes: &[u8])
        requires { offset + length bytes.now ≤ length self.old }
        ensures { self.new ≡ take offset self.old ++ bytes.now ++ drop (offset + length bytes.now) self.old }
    {
        self.items[offset..offset + bytes.len()].copy_from_slice(bytes);
    }

    /// Makes each byte the same.
    pub fn fill(&mut self, value: u8)
        ensures { self.new ≡ replicate (length self.old) value }
    {
        self.items.fill(value);
    }
}
