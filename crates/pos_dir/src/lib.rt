//! The files of Hard Totals, changes of them, and the one spelling of each as bytes.
//!
//! A [`Directory`] holds named files of fixed sizes within [`Limits`]. A [`Group`] is a list of [`Change`]s that is
//! applied whole or not at all. [`encode`] and [`decode`] write and read a directory, [`encode_group`] and
//! [`decode_group`] a group. [`DirectoryFault`] and [`Flaw`] say why something is refused.
//!
//! The layer above relies on this: each call's result is exactly the model's, and a refused call changes nothing. What
//! was encoded decodes to the same files, and no two directories are spelled alike.
#![tactic(auto)]

mod change;
mod changes;
mod decoder;
mod directory;
mod encoder;
mod fault;
mod fields;
mod file;
mod files;
mod flaw;
mod flaws;
mod group;
mod items;
pub mod laws;
mod names;
mod outlines;
mod supplies;
mod updates;

pub use change::Change;
pub use decoder::{decode, decode_group};
pub use directory::Directory;
pub use encoder::{encode, encode_changes, encode_group, measure_group};
pub use fault::DirectoryFault;
pub use file::{File, LAYOUT_1, LAYOUT_2, Limits};
pub use flaw::Flaw;
pub use flaws::find_flaw;
pub use group::Group;
pub use names::is_name;
pub use outlines::check_group;
pub use pos_bytes::{Bytes, LentBytes};
pub use updates::{apply_and_encode, apply_applicable, apply_group};
