//! How a peripheral stands to its host.
ghost use Rattle.std.specs.Prelude.{◌≡◌, Bool, Some, option_map};
ghost use Rattle.pos_drive.specs.Courses.{driven_course, handed_out_course, order_in, progress_of, reported_course, settled_course};

use pos_service::Order;

/// How a peripheral stands to its host.
#[derive(Drop)]
pub enum Course {
    /// It has no host: it answers at once.
    Free,
    /// Each order waits for the host, and none does now.
    Ready,
    /// This order waits, and the host doesn't have it yet.
    Waits(Order),
    /// The host has this order, and hasn't reported what became of it.
    HandedOut(Order),
    /// The host has reported whether this order is done. The order is to be given again.
    Reported(Order, bool),
}

/// How far the host of a peripheral is with its order.
#[derive(Clone, Copy, PartialEq, Eq)]
pub enum Progress {
    /// There is no host: the peripheral answers at once.
    Free,
    /// Each order waits for the host, and none does now.
    Ready,
    /// An order waits, and the host doesn't have it yet.
    Waits,
    /// The host has the order, and hasn't reported what became of it.
    HandedOut,
    /// The host has reported what became of the order, which is to be given again.
    Reported,
}

impl Course {
    /// Returns how far the host is with its order.
    pub fn progress(&self) -> Progress
        ensures { result ≡ progress_of self.now }
    {
        match self {
            Course::Free => Progress::Free,
            Course::Ready => Progress::Ready,
            Course::Waits(_) => Progress::Waits,
            Course::HandedOut(_) => Progress::HandedOut,
            Course::Reported(_, _) => Progress::Reported,
        }
    }

    /// Returns the order that waits or that the host has, or `None` if there is none.
    pub fn waiting(&self) -> Option<&Order>
        ensures { option_map (λ order. order.now) result ≡ order_in self.now }
    {
        match self {
            Course::Waits(order) | Course::HandedOut(order) => Some(order),
            _ => None,
        }
    }

    /// Returns whether the host has done this order, or `None` if it reported nothing of it.
    pub fn verdict(&self, order: &Order) -> Option<bool>
        ensures reported { (is_done : Bool) → self.now ≡ Course.Reported order.now is_done → result ≡ Some is_done }
        ensures only { (is_done : Bool) → result ≡ Some is_done → self.now ≡ Course.Reported order.now is_done }
    {
        match self {
            Course::Reported(kept, is_done) if kept.is_same(order) => Some(*is_done),
            _ => None,
        }
    }

    /// Returns what it is once each order waits for the host.
    pub(crate) fn driven(self) -> Course
        ensures { result ≡ driven_course self }
    {
        match self {
            Course::Free => Course::Ready,
            other => other,
        }
    }

    /// Returns what it is once the host has the order that waits.
    pub(crate) fn handed_out(self) -> Course
        ensures { result ≡ handed_out_course self }
    {
        match self {
            Course::Waits(order) => Course::HandedOut(order),
            other => other,
        }
    }

    /// Returns what it is once the host has reported whether the order that it has is done.
    pub(crate) fn reported(self, is_done: bool) -> Course
        ensures { result ≡ reported_course is_done self }
    {
        match self {
            Course::HandedOut(order) => Course::Reported(order, is_done),
            other => other,
        }
    }

    /// Returns what it is once the order and what the host reported of it are forgotten.
    pub(crate) fn settled(self) -> Course
        ensures { result ≡ settled_course self }
    {
        match self {
            Course::Free => Course::Free,
            _ => Course::Ready,
        }
    }
}
