//! The numbers of calls, as bytes and as ranges.
ghost use Rattle.std.specs.Prelude.{◌≡◌, ◌<◌, pos, false, MatchOption};
ghost use Rattle.pos_totals.specs.Ranges.{is_range};
ghost use Rattle.pos_service.specs.Numbers.{is_up_to};
ghost use Rattle.pos_totals.specs.Checks.{IsRange};

use pos_service::numbers::{to_count, to_natural};

/// Returns a number of a call as a byte, or `None` if it isn't 0 to 255.
pub(crate) fn to_byte(number: i128) -> Option<u8>
    ensures { MatchOption result (is_up_to 255 number ≡ false) (λ n. (number ≡ pos n) × (n < 256)) }
{
    let Some(number) = to_count(number, 255) else {
        return None;
    };
    Some(number as u8)
}

/// Returns the offset and the count of a range of bytes, or `None` if it isn't within `size` bytes.
pub(crate) fn to_range(size: usize, offset: i128, count: i128) -> Option<(usize, usize)>
    ensures { MatchOption result (is_range size offset count ≡ false) (λ r. IsRange size offset count r.0 r.1) }
{
    let Some(offset) = to_natural(offset) else {
        return None;
    };
    let Some(count) = to_natural(count) else {
        return None;
    };
    let size = size as u128;
    if offset > size {
        return None;
    }
    if count > size - offset {
        return None;
    }
    Some((offset as usize, count as usize))
}
