//! A script that comes by a stream.
ghost use Rattle.pos_program.specs.Answers.{bytes_of};
ghost use Rattle.pos_shell.specs.Input.{TakesRest};

use crate::runs::RunFault;
use crate::scripts::ScriptsFault;
use pos_streams::Source;
use std::alloc::Global;

// How many bytes are read at once, at most, and how often.
const PIECE: usize = 65_536;

const MOST: u64 = 1_073_741_824;

/// Takes all that a source has left, up to its end.
///
/// # Errors
///
/// `Input` if a read failed, was interrupted, or there were too many. `Stopped` for want of memory.
pub(crate) fn read_rest<'a, R: Source>(
    alloc: Global,
    reader: &mut R,
) -> Result<Vec<u8>, RunFault<'a>>
    ensures { TakesRest (R.taken reader.old) (R.taken reader.new) (bytes_of result) }
{
    let mut text = Vec::new(alloc);
    let mut piece = [0u8; PIECE];
    for _turn in 0..MOST {
        let Ok(count) = reader.read(&mut piece) else {
            return Err(RunFault::Input);
        };
        if count == 0 {
            return Ok(text);
        }
        let Ok(()) = text.extend_from_slice(&piece[..count]) else {
            return Err(RunFault::Stopped(ScriptsFault::NoMemory));
        };
    }
    Err(RunFault::Input)
}
