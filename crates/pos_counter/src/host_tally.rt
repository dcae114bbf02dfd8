//! What passes between a counter and its host.
ghost use Rattle.std.specs.Prelude.{◌≡◌};
ghost use Rattle.pos_counter.specs.HostTallies.{drives, forgets, gives, hears};

use pos_drive::Progress;

/// How often a counter gave a device to its host, gave the host an order, heard of one, and forgot one. No count goes
/// beyond the largest u64.
#[derive(Clone, Copy)]
pub(crate) struct HostTally {
    /// How often it made a device's orders wait for the host.
    pub(crate) driven: u64,
    /// How often it gave the host an order.
    pub(crate) given: u64,
    /// How often the host reported that an order is done.
    pub(crate) done: u64,
    /// How often the host reported that an order isn't done.
    pub(crate) not_done: u64,
    /// How often orders were settled while the first one was still pending.
    pub(crate) forgotten: u64,
}

impl HostTally {
    /// Returns that of a host that had no order.
    pub(crate) fn none() -> HostTally
        ensures { result ≡ record { driven = 0; given = 0; done = 0; not_done = 0; forgotten = 0 } }
    {
        HostTally {
            driven: 0,
            given: 0,
            done: 0,
            not_done: 0,
            forgotten: 0,
        }
    }

    /// Returns this after a device's orders were to wait for the host. It counts if there is such a device.
    pub(crate) fn drive(mut self, is_found: bool) -> HostTally
        ensures { result ≡ drives is_found self }
    {
        if is_found {
            self.driven = self.driven.saturating_add(1);
        }
        self
    }

    /// Returns this after an order was handed out to a host that is so far with it. It counts if the order waits.
    pub(crate) fn give(mut self, progress: Progress) -> HostTally
        ensures { result ≡ gives progress self }
    {
        if progress == Progress::Waits {
            self.given = self.given.saturating_add(1);
        }
        self
    }

    /// Returns this after a report of a host that is so far with the order. It counts if the host has the order.
    pub(crate) fn hear(mut self, is_done: bool, progress: Progress) -> HostTally
        ensures { result ≡ hears is_done progress self }
    {
        if progress == Progress::HandedOut {
            if is_done {
                self.done = self.done.saturating_add(1);
            } else {
                self.not_done = self.not_done.saturating_add(1);
            }
        }
        self
    }

    /// Returns this after orders were settled, where the host is so far with the first. It counts if one is pending:
    /// it waits, the host has it, or has reported what became of it.
    pub(crate) fn forget(mut self, progress: Progress) -> HostTally
        ensures { result ≡ forgets progress self }
    {
        match progress {
            Progress::Free | Progress::Ready => {}
            Progress::Waits | Progress::HandedOut | Progress::Reported => {
                self.forgotten = self.forgotten.saturating_add(1);
            }
        }
        self
    }
}
