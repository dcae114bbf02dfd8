//! Images on a disk, in one of two layouts: whole copies of the totals, of which one is the current one at every
//! moment.
//!
//! [`Images`] formats and opens a disk, writes the next image beside the current one, and then publishes it. It also
//! reads and writes the log span of the current slot. [`Layout`] and [`Slot`] say where the parts are, and
//! [`ImageFault`] why a call is refused.
//!
//! The layer above relies on this: a crash at any moment leaves the current image or the one that is being published,
//! never a mixture. `Device` is reported only if the disk failed, and any other refusal writes nothing.
#![tactic(auto)]

mod disk_calls;
mod fault;
mod heads;
mod image;
mod images;
mod layout;
mod new_disks;
mod relay;
mod slot;
mod spans;

pub use fault::ImageFault;
pub use heads::{Head, Heads, read_heads};
pub use images::Images;
pub use layout::{BODY, LENGTH, Layout, SEQUENCE};
pub use new_disks::new_disk;
pub use slot::Slot;
