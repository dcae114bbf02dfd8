//! The power of a simulated peripheral.
ghost use Rattle.std.specs.Prelude.{◌≡◌};
ghost use Rattle.pos_sims.specs.Powers.{off_reply, passes_by, power_after, reply_while};

use pos_service::{Input, Reply};

/// Takes an input if it is one of the power. Returns whether nothing more comes of the input: the power has moved, or
/// is off.
pub(crate) fn passes_by(powered: &mut bool, input: &Input) -> bool
    ensures power { powered.new ≡ power_after input.now powered.old }
    ensures passes { result ≡ passes_by powered.old input.now }
{
    if let Input::PowerMoved(is_on) = input {
        *powered = *is_on;
        return true;
    }
    !*powered
}

/// Returns what a peripheral that is off replies to an order, or none if it is on.
pub(crate) fn off_reply(powered: bool) -> Option<Reply>
    ensures { result ≡ off_reply powered }
{
    if powered { None } else { Some(Reply::Offline) }
}

/// Returns what a peripheral replies: what it replies while it is on, or that it is off.
pub(crate) fn reply_while(powered: bool, on: Reply) -> Reply
    ensures { result ≡ reply_while powered on }
{
    if powered { on } else { Reply::Offline }
}
