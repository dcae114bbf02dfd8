//! Claims: who holds a claim, and how long one may be waited for (common chapter, methods claim and release).
ghost use Rattle.std.specs.Prelude.{◌≡◌};
ghost use Rattle.pos_service.specs.Claims.{is_foreign, is_own, is_timeout};

/// Returns whether the control with a number is the holder.
pub fn is_own(number: usize, holder: Option<usize>) -> bool
    ensures { result ≡ is_own number holder }
{
    match holder {
        Some(holder) => holder == number,
        None => false,
    }
}

/// Returns whether there is a holder, and it is another control than the one with a number.
pub fn is_foreign(number: usize, holder: Option<usize>) -> bool
    ensures { result ≡ is_foreign number holder }
{
    match holder {
        Some(holder) => holder != number,
        None => false,
    }
}

/// Returns whether a number is a timeout: 0 or more milliseconds, or -1 for no end.
pub fn is_timeout(number: i128) -> bool
    ensures { result ≡ is_timeout number }
{
    number >= -1
}
