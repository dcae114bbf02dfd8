//! Lists of bytes, which contracts see as lists of numbers: [`Bytes`] owns its bytes, and [`LentBytes`] borrows them.
//!
//! The layer above compares names, data and file contents by these lists, and never by how they are kept. Each function
//! says its exact result. Only [`Bytes::from_slice`] takes memory.
#![tactic(auto)]

mod bytes;
mod lent_bytes;

pub use bytes::Bytes;
pub use lent_bytes::LentBytes;
