//! The devices of a shop counter: the profile that lists them, and the registry of the peripherals that serve them.
//!
//! - [`Profile`] is read from TOML, and each [`Entry`] is a device or a spare. [`ProfileFault`] says why a text is no
//!   profile, and [`find_mistake`] what its writer has to change.
//! - [`Registry`] has a [`Slot`] for each device with a peripheral. It finds a device by its name, and attaches and
//!   detaches peripherals.
//!
//! The layer above relies on this: each profile is sound (`laws::is_profile`), so names are distinct and numbers in
//! their ranges. A device is served only by a peripheral of its kind that is in service, and one that isn't attached is
//! returned.
#![tactic(auto)]

mod built;
mod category;
mod entry;
mod entry_list;
mod entry_reader;
mod explanation;
pub mod laws;
mod mistake;
mod number;
mod optional;
mod places;
mod plans;
mod profile;
mod registry;
mod root;
mod slot;
mod table;
mod text;
mod variation;

pub use entry::{Entry, Role};
pub use explanation::find_mistake;
pub use mistake::{Mistake, Place, Reason};
pub use number::NumberKey;
pub use optional::OptionalKey;
pub use places::find_name;
pub use profile::{Profile, ProfileFault};
pub use registry::Registry;
pub use slot::{Slot, end_all};
pub use text::Text;
