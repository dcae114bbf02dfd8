//! What a peripheral shows of itself.
ghost use Rattle.std.specs.Prelude.{◌≡◌};
ghost use Rattle.std.specs.Prelude.{None};
ghost use Rattle.pos_service.specs.Hardware.{signs_in};
ghost use Rattle.pos_service.specs.Receipts.{paper_level, is_empty, is_near_end};

/// How much paper a printer has (chapter POS Printer).
#[derive(Clone, Copy, PartialEq, Eq)]
pub enum PaperLevel {
    /// More than near the end.
    Good,
    /// Near the end.
    NearEnd,
    /// No line is left.
    Empty,
}

impl PaperLevel {
    /// Returns how much paper there is with `left` lines, if the paper is near its end at `near` lines or fewer.
    pub fn of_lines(near: u32, left: u32) -> Self
        ensures { result ≡ paper_level near left }
    {
        if left == 0 {
            return PaperLevel::Empty;
        }
        if left <= near {
            return PaperLevel::NearEnd;
        }
        PaperLevel::Good
    }

    /// Returns whether no line is left (chapter POS Printer, RecEmpty).
    pub fn is_empty(self) -> bool
        ensures { result ≡ is_empty self }
    {
        match self {
            PaperLevel::Good | PaperLevel::NearEnd => false,
            PaperLevel::Empty => true,
        }
    }

    /// Returns whether the paper is near its end, or no line is left (chapter POS Printer, RecNearEnd).
    pub fn is_near_end(self) -> bool
        ensures { result ≡ is_near_end self }
    {
        match self {
            PaperLevel::Good => false,
            PaperLevel::NearEnd | PaperLevel::Empty => true,
        }
    }
}

/// What a peripheral shows of itself, on or off. A sign that its kind lacks is false, or good.
#[derive(Clone, Copy, PartialEq, Eq)]
pub struct Signs {
    /// Whether the peripheral is on.
    pub powered: bool,
    /// Whether the drawer is open.
    pub drawer_open: bool,
    /// Whether the printer's cover is open.
    pub cover_open: bool,
    /// How much paper the printer has.
    pub paper: PaperLevel,
}

impl Signs {
    /// Returns the signs of a device without a peripheral: it is on, nothing is open, and the paper is good.
    pub fn vacant() -> Self
        ensures { result ≡ signs_in None }
    {
        Signs {
            powered: true,
            drawer_open: false,
            cover_open: false,
            paper: PaperLevel::Good,
        }
    }
}
