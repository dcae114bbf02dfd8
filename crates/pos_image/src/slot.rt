//! The places of an image: two in each layout.
ghost use Rattle.std.specs.Prelude.{◌≡◌};
ghost use Rattle.pos_image.specs.Layout.{start, other, layout_of};

use crate::layout::{FOURTH, Layout, SECOND, THIRD};

/// A place of an image on the disk. The first two are of layout 1, the others of layout 2.
#[derive(Clone, Copy, PartialEq, Eq)]
pub enum Slot {
    /// The slot at 0.
    First,
    /// The slot at 32,768.
    Second,
    /// The slot at 65,536.
    Third,
    /// The slot at 196,608.
    Fourth,
}

impl Slot {
    /// Returns where it begins on the disk, in bytes.
    pub fn start(self) -> u64
        ensures { result ≡ start self }
    {
        match self {
            Slot::First => 0,
            Slot::Second => SECOND,
            Slot::Third => THIRD,
            Slot::Fourth => FOURTH,
        }
    }

    /// Returns its layout.
    pub fn layout(self) -> Layout
        ensures { result ≡ layout_of self }
    {
        match self {
            Slot::First | Slot::Second => Layout::Layout1,
            Slot::Third | Slot::Fourth => Layout::Layout2,
        }
    }

    /// Returns the other slot of its layout.
    pub fn other(self) -> Slot
        ensures { result ≡ other self }
    {
        match self {
            Slot::First => Slot::Second,
            Slot::Second => Slot::First,
            Slot::Third => Slot::Fourth,
            Slot::Fourth => Slot::Third,
        }
    }
}
