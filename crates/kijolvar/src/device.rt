//! The devices of a till.
ghost use Rattle.std.specs.Prelude.{◌≡◌, ◌≢◌, false, true, Ok};
ghost use Rattle.pos_service.specs.Peripherals.{Asked, Fed, Parks, input_fits, order_fits};
ghost use Rattle.pos_drive.specs.Courses.{MovesOn};
ghost use Rattle.pos_drive.specs.declared.courses.Course.TheVariants.{Free, Reported};
ghost use Rattle.kijolvar.specs.Hosts.{has_steady_line};
ghost use Rattle.kijolvar.specs.Orders.{device_course, device_state, mounts_device};

use crate::order_queue::{OrderQueue, OrderSender};
use pos_drive::{Awaits, Driven, Hosted, Progress};
use pos_profile::Entry;
use pos_run::{Mount, Wrapped};
use pos_service::{
    Ends, Input, Kind, NoMemory, Order, Peripheral, Reply, Signs, Snapshot, Taken, park_and_end,
};

/// A device of a till, or a spare: a simulated peripheral. If the host has the hardware, it is one of these:
///
/// - The simulated one answers for it at once, and each order that it carries out is queued for the host. A
///   spare has no name, and none of its orders is kept.
/// - It is driven: an order is answered only after the host has reported what became of it. None of its orders is kept.
///
/// It ends only out of service: whoever ends it must show that.
pub struct Device {
    driven: Driven<Wrapped>,
    asks: u64,
    order_sender: Option<OrderSender>,
}

impl Device {
    /// Returns the simulated peripheral in it.
    pub(crate) fn twin(&self) -> &Wrapped
        ensures { result.now ≡ self.now.driven.twin }
    {
        self.driven.twin()
    }

    /// Returns whether the line of the simulated peripheral doesn't fail.
    pub(crate) fn is_steady(&self) -> bool
        ensures { result ≡ has_steady_line self.now.driven.twin }
    {
        match self.driven.twin() {
            Wrapped::Bare(_) | Wrapped::Recorded(_) => true,
            Wrapped::Flaky(_) | Wrapped::Both(_) => false,
        }
    }
}

impl Peripheral for Device {
    ghost state = { λ device. device_state device };

    fn kind(&self) -> Kind {
        self.driven.kind()
    }

    fn signs(&self) -> Signs {
        self.driven.signs()
    }

    fn ask(&mut self, order: &Order) -> Result<Reply, NoMemory>
        ensures asked { (device_state self.old).is_parked ≡ false
            → order_fits (device_state self.old).kind order.now ≡ true
            → Asked (device_state self.old) order.now result (device_state self.new) }
        ensures only_reported { (device_state self.old).is_parked ≡ false
            → order_fits (device_state self.old).kind order.now ≡ true
            → device_course self.old ≢ Free → result ≡ Ok Reply.Done
            → device_course self.old ≡ Reported order.now true }
        ensures stays_free { (device_state self.old).is_parked ≡ false
            → order_fits (device_state self.old).kind order.now ≡ true
            → device_course self.old ≡ Free → device_course self.new ≡ Free }
        ensures moves_on { device_course self.old ≢ Free
            → MovesOn (device_course self.old) order.now result (device_course self.new) }
    {
        self.asks = self.asks.saturating_add(1);
        match &self.order_sender {
            Some(order_sender) if self.driven.progress() == Progress::Free => {
                order_sender.ask(&mut self.driven, order)
            }
            _ => self.driven.ask(order),
        }
    }

    fn feed(&mut self, input: &Input) -> Result<Taken, NoMemory>
        ensures fed { (device_state self.old).is_parked ≡ false
            → input_fits (device_state self.old).kind input.now ≡ true
            → Fed (device_state self.old) input.now result (device_state self.new) }
        ensures course { device_course self.new ≡ device_course self.old }
    {
        self.driven.feed(input)
    }

    fn snapshot(&self) -> Result<Snapshot, NoMemory> {
        self.driven.snapshot()
    }

    fn park(&mut self)
        ensures parked { Parks (device_state self.old) (device_state self.new) }
        ensures course { device_course self.new ≡ device_course self.old }
    {
        self.driven.park();
    }

    fn is_parked(&self) -> bool {
        self.driven.is_parked()
    }
}

impl Awaits for Device {
    ghost course = { device_course };

    fn progress(&self) -> Progress {
        self.driven.progress()
    }

    fn waiting(&self) -> Option<&Order> {
        self.driven.waiting()
    }

    fn settle(&mut self) {
        self.driven.settle();
    }
}

impl Hosted for Device {
    fn drive(&mut self) {
        self.driven.drive();
    }

    fn hand_out(&mut self) {
        self.driven.hand_out();
    }

    fn report(&mut self, is_done: bool) {
        self.driven.report(is_done);
    }

    fn tear_off(&mut self) -> Result<(), NoMemory> {
        self.driven.tear_off()
    }
}

impl Ends for Device {
    fn end(self) {
        let Device {
            driven,
            asks: _,
            order_sender: _,
        } = self;
        driven.end();
    }
}

impl Mount<Device> for OrderQueue {
    ghost mounts = { mounts_device };

    fn mount(&self, entry: &Entry, simulation: Wrapped) -> Result<Device, NoMemory> {
        let name = entry.name.as_bytes();
        let order_sender = if name.is_empty() {
            None
        } else {
            let Ok(order_sender) = self.order_sender(name) else {
                park_and_end(simulation);
                return Err(NoMemory);
            };
            Some(order_sender)
        };
        Ok(Device {
            driven: Driven::new(self.allocator(), simulation),
            asks: 0,
            order_sender,
        })
    }
}
