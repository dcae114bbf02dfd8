//! What a host does with a peripheral.
ghost use Rattle.std.specs.Prelude.{◌≡◌};
ghost use Rattle.pos_drive.specs.Papers.{TearsOff};
ghost use Rattle.pos_drive.specs.Courses.{driven_course, handed_out_course, reported_course};

use crate::awaits::Awaits;
use pos_service::NoMemory;

/// A peripheral whose orders may wait for a host, in the host's hands. What the host does with it changes nothing that
/// a counter sees of it.
pub trait Hosted: Awaits {
    /// Makes each order wait for the host from now on.
    fn drive(&mut self)
        ensures state { Self.Peripheral.state self.new ≡ Self.Peripheral.state self.old }
        ensures course { Self.Awaits.course self.new ≡ driven_course (Self.Awaits.course self.old) };

    /// Gives the order that waits to the host. Nothing changes if none waits.
    fn hand_out(&mut self)
        ensures state { Self.Peripheral.state self.new ≡ Self.Peripheral.state self.old }
        ensures course { Self.Awaits.course self.new ≡ handed_out_course (Self.Awaits.course self.old) };

    /// Takes what the host reports of the order that it has: it is done, or not done. Nothing changes if it has none.
    fn report(&mut self, is_done: bool)
        ensures state { Self.Peripheral.state self.new ≡ Self.Peripheral.state self.old }
        ensures course { Self.Awaits.course self.new ≡ reported_course is_done (Self.Awaits.course self.old) };

    /// Takes the printed paper away: a printer keeps no line and no cut, only the line that has begun.
    ///
    /// # Errors
    ///
    /// [`NoMemory`] if memory ran out. Then nothing has changed.
    fn tear_off(&mut self) -> Result<(), NoMemory>
        ensures state { TearsOff (Self.Peripheral.state self.old) result (Self.Peripheral.state self.new) }
        ensures course { Self.Awaits.course self.new ≡ Self.Awaits.course self.old };
}
