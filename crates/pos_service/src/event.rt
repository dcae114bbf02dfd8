//! Events, as an application gets them.
ghost use Rattle.std.specs.Prelude.{◌≡◌};
ghost use Rattle.pos_service.specs.Codes.{locus_number_of};

use crate::code::Code;

/// An event as it is delivered to an application (common chapter).
#[derive(Clone, Copy, PartialEq, Eq)]
pub enum Event {
    /// StatusUpdateEvent: the device has this status now.
    StatusUpdate(u32),
    /// DataEvent: input has come.
    Data,
    /// ErrorEvent: the code, the extended code, and where the error is.
    Error(Code, u32, Locus),
    /// OutputCompleteEvent: the output with this OutputID is done.
    OutputComplete(u64),
}

/// Where an error is (common chapter, ErrorLocus).
#[derive(Clone, Copy, PartialEq, Eq)]
pub enum Locus {
    /// EL_OUTPUT.
    Output,
    /// EL_INPUT: no input is held any more.
    Input,
    /// EL_INPUT_DATA: input from before the error is held.
    InputData,
}

impl Locus {
    /// Returns its number in the standard.
    pub fn number(self) -> u32
        ensures { result ≡ locus_number_of self }
    {
        match self {
            Locus::Output => 1,
            Locus::Input => 2,
            Locus::InputData => 3,
        }
    }
}

/// What an application answers to an ErrorEvent (common chapter, ErrorResponse). It is passed in with the delivery, and
/// no other event looks at it.
#[derive(Clone, Copy, PartialEq, Eq)]
pub enum ErrorReply {
    /// The default of the locus.
    Default,
    /// ER_RETRY: try the output again.
    Retry,
    /// ER_CLEAR: delete what is held.
    Clear,
    /// ER_CONTINUEINPUT: deliver the input that is held.
    ContinueInput,
}
