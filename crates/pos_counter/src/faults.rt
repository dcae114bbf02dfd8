//! Why requests to a counter do nothing.
use thiserror::Error;

/// Why no control was made.
#[derive(Clone, Copy, Debug, PartialEq, Eq, Error)]
pub enum ControlFault {
    /// There are 4,096 controls already, closed ones included.
    #[error("there are as many controls as there may be")]
    Full,
    /// Memory ran out, and nothing has changed.
    #[error("no memory")]
    NoMemory,
}

/// Why an input did nothing.
#[derive(Clone, Copy, Debug, PartialEq, Eq, Error)]
pub enum InputFault {
    /// No device has the name, or it has no peripheral.
    #[error("there is no such device")]
    NoDevice,
    /// A peripheral of this kind has no such input.
    #[error("the device has no such input")]
    WrongInput,
    /// Memory ran out, and nothing has changed.
    #[error("no memory")]
    NoMemory,
}

/// Why a device's output wasn't worked on.
#[derive(Clone, Copy, Debug, PartialEq, Eq, Error)]
pub enum WorkFault {
    /// No device has the name, or it has no peripheral.
    #[error("there is no such device")]
    NoDevice,
    /// Memory ran out, and nothing has changed.
    #[error("no memory")]
    NoMemory,
}

/// Why there is no snapshot of a device.
#[derive(Clone, Copy, Debug, PartialEq, Eq, Error)]
pub enum SnapshotFault {
    /// No device has the name, or it has no peripheral.
    #[error("there is no such device")]
    NoDevice,
    /// Memory ran out.
    #[error("no memory")]
    NoMemory,
}
