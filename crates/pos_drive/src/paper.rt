//! Taking away the paper that a peripheral has printed.
ghost use Rattle.pos_drive.specs.Papers.{TearsOff};

use pos_service::{NoMemory, Peripheral};

/// A peripheral that forgets what it has printed when its paper is taken away.
pub trait Tears: Peripheral {
    /// Takes the printed paper away: a printer keeps no line and no cut, only the line that has begun. Nothing else
    /// changes, and another device stays as it is.
    ///
    /// # Errors
    ///
    /// [`NoMemory`] if memory ran out. Then nothing has changed.
    fn tear_off(&mut self) -> Result<(), NoMemory>
        ensures { TearsOff (Self.Peripheral.state self.old) result (Self.Peripheral.state self.new) };
}
