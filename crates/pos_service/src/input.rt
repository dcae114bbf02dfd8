//! What happens at a peripheral from outside.
ghost use Rattle.std.specs.Prelude.{◌≡◌};
ghost use Rattle.pos_service.specs.Peripherals.{input_fits, input_number, input_words};

use crate::kind::Kind;
use pos_bytes::Bytes;

/// What happens at a peripheral from outside.
#[derive(Drop)]
pub enum Input {
    /// A drawer is open from now on if this is true, otherwise closed.
    DrawerMoved(bool),
    /// A scanner reads a bar code.
    Scan {
        /// Its type, as a number of 0 to 999.
        kind: u32,
        /// All that was read.
        bytes: Bytes,
        /// The label in it.
        label: Bytes,
    },
    /// A scanner fails to read.
    ScanFault,
    /// A printer's cover is open from now on if this is true, otherwise closed.
    CoverMoved(bool),
    /// A printer has so many lines of paper left from now on, at most 100,000.
    PaperLoaded(u32),
    /// A peripheral of any kind is on from now on if this is true, otherwise off.
    PowerMoved(bool),
}

impl Input {
    /// Returns whether it can happen at a peripheral of this kind.
    pub fn fits(&self, kind: Kind) -> bool
        ensures { result ≡ input_fits kind self.now }
    {
        match (self, kind) {
            (Input::PowerMoved(_), _) => true,
            (Input::DrawerMoved(_), Kind::Drawer) => true,
            (
                Input::Scan {
                    kind: number,
                    bytes: _,
                    label: _,
                },
                Kind::Scanner,
            ) => *number <= 999,
            (Input::ScanFault, Kind::Scanner) => true,
            (Input::CoverMoved(_), Kind::Printer { chars: _, near: _ }) => true,
            (Input::PaperLoaded(lines), Kind::Printer { chars: _, near: _ }) => *lines <= 100_000,
            _ => false,
        }
    }

    /// Returns the words that tell it, if it is one of a printer or of a drawer; otherwise none.
    pub fn words(&self) -> &'static str
        ensures { result.now ≡ input_words self.now }
    {
        match self {
            Input::PowerMoved(true) => "power on",
            Input::PowerMoved(false) => "power off",
            Input::CoverMoved(true) => "cover open",
            Input::CoverMoved(false) => "cover closed",
            Input::DrawerMoved(true) => "open",
            Input::DrawerMoved(false) => "closed",
            Input::PaperLoaded(_) => "paper",
            _ => "",
        }
    }

    /// Returns the number that it is told with behind its words, if there is one.
    pub fn number(&self) -> Option<u32>
        ensures { result ≡ input_number self.now }
    {
        match self {
            Input::PaperLoaded(lines) => Some(*lines),
            _ => None,
        }
    }
}

/// How a peripheral has taken an input.
#[derive(Clone, Copy, PartialEq, Eq)]
pub enum Taken {
    /// There is nothing to report but the signs.
    Quiet,
    /// A scan.
    Scan,
    /// A scan that failed.
    Fault,
}

/// What a scanner read: the type of the bar code, all that was read, and the label in it (chapter Scanner). The range
/// of the type is checked when the scan comes in.
#[derive(Drop)]
pub struct Scan {
    /// The type of the bar code, as a number of 0 to 999.
    pub kind: u32,
    /// All that was read.
    pub bytes: Bytes,
    /// The label without what surrounds it.
    pub label: Bytes,
}
