//! The numbers that are arguments of calls and values of properties.
ghost use Rattle.std.specs.Prelude.{◌≡◌, ◌<◌, ◌≤◌, pos, false, MatchOption};
ghost use Rattle.pos_service.specs.Numbers.{is_natural, is_index, is_up_to};

/// Returns a number, or `None` if it is below 0.
pub fn to_natural(number: i128) -> Option<u128>
    ensures { MatchOption result (is_natural number ≡ false) (λ n. number ≡ pos n) }
{
    if number < 0 {
        return None;
    }
    Some(number as u128)
}

/// Returns a number, or `None` if it is no index of so many places: at least 0, and less than their number.
pub fn to_index(number: i128, length: u32) -> Option<u32>
    ensures { MatchOption result (is_index length number ≡ false) (λ n. (number ≡ pos n) × (n < length)) }
{
    let Some(number) = to_natural(number) else {
        return None;
    };
    if number >= length as u128 {
        return None;
    }
    Some(number as u32)
}

/// Returns a number, or `None` if it isn't 0 to a limit.
pub fn to_count(number: i128, limit: u32) -> Option<u32>
    ensures { MatchOption result (is_up_to limit number ≡ false) (λ n. (number ≡ pos n) × (n ≤ limit)) }
{
    let Some(number) = to_natural(number) else {
        return None;
    };
    if number > limit as u128 {
        return None;
    }
    Some(number as u32)
}
