//! Streams of bytes that count: a [`Source`], from which bytes are taken, and a [`Sink`], to which they are given.
//!
//! Each has one record that only contracts see: all bytes so far, and how often the stream failed. So a contract above
//! can say what was read and what was written, and that a fault is reported only if there was one. This holds of
//! streams outside memory too.
//!
//! - [`ReaderSource`] and [`WriterSink`] adapt any reader and writer of the standard library (src/adapters.rt).
//! - [`MemorySource`] and [`MemorySink`] are in memory.
#![tactic(auto)]

mod adapters;
mod memory;
mod sink;
mod source;
mod trace;
mod transfers;

pub use adapters::{ReaderSource, WriterSink};
pub use memory::{MemorySink, MemorySource};
pub use sink::{Sink, WriteFault};
pub use source::{ReadFault, Source};
