//! Items read from the bytes that spell them, one after the other.
ghost use Rattle.std.specs.Prelude.{◌≡◌, List, ℕ, Option, Some, IsSome, IfSome, MatchResult};
ghost use Rattle.pos_dir.specs.Reading.{items_at};

use crate::fault::DirectoryFault;
use std::alloc::Global;

/// What bytes spell one after the other: files, or changes.
pub(crate) trait Item<'a>: Drop + Sized {
    /// The item at the front of bytes, and the bytes after it.
    ghost item_at: { List ℕ → Option (Self × List ℕ) };

    /// Returns that item, and the bytes after it.
    ///
    /// # Errors
    ///
    /// `NoMemory` if memory ran out.
    fn read_first(alloc: Global, bytes: &'a [u8]) -> Result<(Self, &'a [u8]), DirectoryFault>
        requires { IsSome (item_at bytes.now) }
        ensures { MatchResult result (λ x. item_at bytes.now ≡ Some (x.0, x.1.now))
            (λ fault. fault ≡ DirectoryFault.NoMemory) };
}

/// Reads so many items.
#[tactic(auto, using(crate::proofs::ItemLemmas::collecting))]
pub(crate) fn collect_items<'a, T: Item<'a>>(
    alloc: Global,
    count: u16,
    bytes: &'a [u8],
) -> Result<Vec<T>, DirectoryFault>
    requires { IsSome (items_at T.item_at count bytes.now) }
    ensures { MatchResult result (λ items. IfSome (items_at T.item_at count bytes.now) (λ x. items.items ≡ x.0))
        (λ fault. fault ≡ DirectoryFault.NoMemory) }
{
    let mut items = Vec::with_capacity(alloc, count as usize)?;
    let mut rest = bytes;
    for _ in 0..count {
        let (item, after) = T::read_first(alloc, rest)?;
        items.push(item)?;
        rest = after;
    }
    Ok(items)
}
