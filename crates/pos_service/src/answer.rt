//! Values of properties, and what a call answers.

use crate::code::Code;
use pos_bytes::Bytes;

/// A value of a property, or what a call returns.
#[derive(Drop)]
pub enum Value {
    /// Nothing.
    Empty,
    /// A truth value.
    Truth(bool),
    /// A number.
    Number(i128),
    /// Two numbers.
    Pair(i128, i128),
    /// Bytes.
    Bytes(Bytes),
}

/// What a call answers.
#[derive(Drop)]
pub enum Answer {
    /// The call did what it does, and returns this.
    Done(Value),
    /// The call was refused with this code and extended code. The extended code is 0 unless the code is E_EXTENDED.
    Refused(Code, u32),
}

/// What comes of work on a device's output (common chapter, asynchronous output).
#[derive(Clone, Copy, PartialEq, Eq)]
pub enum WorkResult {
    /// There is nothing to do.
    Idle,
    /// The request with this OutputID is done.
    Done(u64),
    /// The first request has failed, with this code and extended code, and stays the first.
    Failed(Code, u32),
}
