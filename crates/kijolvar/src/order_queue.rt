//! What a till's devices have for its host.
ghost use Rattle.std.specs.Prelude.{◌≡◌, IfOk};
ghost use Rattle.kijolvar.specs.Orders.{AsksTwin};

use crate::orders::ask_keeping;
use pos_drive::Driven;
use pos_run::Wrapped;
use pos_service::{NoMemory, Order, Peripheral, Reply};
use std::alloc::{AllocError, Global};
use std::cell::RefCell;
use std::collections::VecDeque;
use std::mem::swap;
use std::rc::Rc;

/// The names of the devices that the host has, and the lines of their orders, the oldest first.
#[derive(Drop)]
struct Shared {
    hosted: RefCell<Vec<Vec<u8>>>,
    lines: RefCell<VecDeque<Vec<u8>>>,
}

/// What a till's devices have for its host, in order. A device that the host has adds its orders, and the till takes
/// them.
#[derive(Drop)]
pub struct OrderQueue {
    alloc: Global,
    shared: Rc<Shared>,
}

impl OrderQueue {
    /// Returns a queue without orders. The host has no device.
    ///
    /// # Errors
    ///
    /// [`AllocError`] if memory ran out.
    pub fn new(alloc: Global) -> Result<OrderQueue, AllocError> {
        let shared = Shared {
            hosted: RefCell::new(Vec::new(alloc)),
            lines: RefCell::new(VecDeque::new(alloc)),
        };
        match Rc::new(alloc, shared) {
            Ok(shared) => Ok(OrderQueue { alloc, shared }),
            Err(_) => Err(AllocError),
        }
    }

    /// Returns where it takes memory.
    pub fn allocator(&self) -> Global {
        self.alloc
    }

    /// Returns the same queue for another owner.
    ///
    /// # Errors
    ///
    /// [`AllocError`] if the queue has as many owners as it may have.
    pub fn share(&self) -> Result<OrderQueue, AllocError> {
        Ok(OrderQueue {
            alloc: self.alloc,
            shared: self.shared.clone()?,
        })
    }

    /// Keeps the orders of the device of this name for the host from now on.
    ///
    /// # Errors
    ///
    /// [`NoMemory`] if memory ran out. Then nothing changes.
    pub fn host(&self, device: &[u8]) -> Result<(), NoMemory> {
        if self.is_hosted(device) {
            return Ok(());
        }
        let name = Vec::from_slice(self.alloc, device)?;
        match self.shared.hosted.try_borrow_mut() {
            Ok(mut hosted) => match hosted.push(name) {
                Ok(()) => Ok(()),
                Err(_) => Err(NoMemory),
            },
            Err(_) => Err(NoMemory),
        }
    }

    /// Returns whether the host has the device of this name.
    pub fn is_hosted(&self, device: &[u8]) -> bool {
        match self.shared.hosted.try_borrow() {
            Ok(hosted) => hosted.iter().any(|name| name.as_slice() == device),
            Err(_) => false,
        }
    }

    /// Returns the sender by which the device of this name queues its orders.
    ///
    /// # Errors
    ///
    /// [`NoMemory`] if memory ran out.
    pub fn order_sender(&self, device: &[u8]) -> Result<OrderSender, NoMemory>
        ensures { IfOk result (λ order_sender. order_sender.device.items ≡ device.now) }
    {
        Ok(OrderSender {
            device: Vec::from_slice(self.alloc, device)?,
            order_queue: self.share()?,
        })
    }

    /// Exchanges all orders for these.
    pub fn exchange(&self, orders: &mut VecDeque<Vec<u8>>) {
        if let Ok(mut lines) = self.shared.lines.try_borrow_mut() {
            swap(&mut *lines, orders);
        }
    }
}

/// Where a device puts its orders, and its name.
#[derive(Drop)]
pub struct OrderSender {
    device: Vec<u8>,
    order_queue: OrderQueue,
}

impl OrderSender {
    /// Passes an order to the simulated peripheral of the device, and returns its reply. If the host has the device and
    /// the order was carried out, it is kept for the host.
    ///
    /// # Errors
    ///
    /// [`NoMemory`] if memory ran out. For the host's line it is taken before the order is passed on.
    pub fn ask(&self, twin: &mut Driven<Wrapped>, order: &Order) -> Result<Reply, NoMemory>
        ensures { AsksTwin twin.old order.now result twin.new }
    {
        let device = self.device.as_slice();
        if !self.order_queue.is_hosted(device) {
            return twin.ask(order);
        }
        match self.order_queue.shared.lines.try_borrow_mut() {
            Ok(mut lines) => ask_keeping(self.order_queue.alloc, &mut lines, device, twin, order),
            Err(_) => Err(NoMemory),
        }
    }
}
