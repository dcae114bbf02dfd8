//! The answers of a file's calls, as the list of its calls has them.
ghost use Rattle.std.specs.Prelude.{◌≡◌};
ghost use Rattle.pos_file.specs.Calls.{done_of, locks_of, number_of};

use std::fs::TryLockError;
use std::io;

/// Returns the number that stands for the answer to a call for a lock: 1 if it is given, 0 if another program has it.
/// It returns `None` if the call failed.
pub(crate) fn locks(answer: &Result<(), TryLockError>) -> Option<u64>
    ensures { result ≡ locks_of answer.now }
{
    match answer {
        Ok(()) => Some(1),
        Err(TryLockError::WouldBlock) => Some(0),
        Err(TryLockError::Error(_)) => None,
    }
}

/// Returns the number that a call answered, or `None` if the call failed.
pub(crate) fn number(answer: &io::Result<usize>) -> Option<u64>
    ensures { result ≡ number_of answer.now }
{
    match answer {
        Ok(number) => Some(*number as u64),
        Err(_) => None,
    }
}

/// Returns 0 for a call that answers no number, or `None` if the call failed.
pub(crate) fn done(answer: &io::Result<()>) -> Option<u64>
    ensures { result ≡ done_of answer.now }
{
    match answer {
        Ok(()) => Some(0),
        Err(_) => None,
    }
}
