//! Whether a peripheral waits for its host.
ghost use Rattle.std.specs.Prelude.{◌≡◌, option_map};
ghost use Rattle.pos_drive.specs.Courses.{order_in, progress_of, settled_course};

use crate::courses::Progress;
use pos_service::{Order, Peripheral};

/// A peripheral whose orders may wait for a host: what whoever carries out lines sees of that, and may do. It can make
/// no report, and can give no order to the host: only a [`Hosted`](crate::Hosted) one can.
pub trait Awaits: Peripheral {
    ghost use Rattle.pos_drive.specs.declared.courses.Course.{Course};

    /// How it stands to its host.
    ghost course: { Self → Course };

    /// Returns how far the host is with its order.
    fn progress(&self) -> Progress
        ensures { result ≡ progress_of (course self.now) };

    /// Returns the order that waits or that the host has, or `None` if there is none.
    fn waiting(&self) -> Option<&Order>
        ensures { option_map (λ order. order.now) result ≡ order_in (course self.now) };

    /// Forgets the order that waits or that the host has, and what the host reported. Nothing changes if there is no
    /// host.
    fn settle(&mut self)
        ensures state { Self.Peripheral.state self.new ≡ Self.Peripheral.state self.old }
        ensures course { course self.new ≡ settled_course (course self.old) };
}
