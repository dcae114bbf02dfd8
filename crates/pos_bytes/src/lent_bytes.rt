//! Bytes that are lent.
ghost use Rattle.std.specs.Prelude.{◌≡◌};

use std::marker::Model;

/// A list of bytes that are lent: the name of a device or a control, the name or the bytes of a change. Contracts see
/// the list.
#[derive(Drop)]
pub struct LentBytes<'a> {
    items: &'a [u8],
}

impl<'a> Model for LentBytes<'a> {
    ghost use Rattle.std.specs.Prelude.{List, ℕ};

    ghost Value = { List ℕ };

    ghost view = { λ bytes. bytes.items.now };
}

impl<'a> LentBytes<'a> {
    /// Returns these bytes. It takes no memory.
    pub fn from_slice(items: &'a [u8]) -> Self
        ensures { result ≡ items.now }
    {
        LentBytes { items }
    }

    /// Returns the bytes in order.
    pub fn as_slice(&self) -> &[u8]
        ensures { result.now ≡ self.now }
    {
        self.items
    }
}
