//! The numbers of an entry.
ghost use Rattle.std.specs.Prelude.{◌≡◌};
ghost use Rattle.pos_profile.specs.Numbers.{has_number, key_of_number, least_of, most_of};

use pos_service::Category;

/// The key of a number of a display or of a printer.
#[derive(Clone, Copy, PartialEq, Eq)]
pub enum NumberKey {
    /// The rows of a display, 1 to 8.
    Rows,
    /// The columns of a display, 1 to 80.
    Columns,
    /// The characters of a printer's line, 1 to 255.
    Chars,
    /// The lines of paper that a printer begins with, 0 to 100,000.
    Lines,
    /// How many lines of paper are left when a printer's paper is near its end, 0 to 100,000.
    Near,
}

/// All numbers.
pub(crate) const ALL_NUMBERS: [NumberKey; 5] = [
    NumberKey::Rows,
    NumberKey::Columns,
    NumberKey::Chars,
    NumberKey::Lines,
    NumberKey::Near,
];

impl NumberKey {
    /// Returns whether entries of a category have it: a display its rows and columns, a printer the others.
    pub(crate) fn is_of(self, category: Category) -> bool
        ensures { result ≡ has_number category self }
    {
        match self {
            NumberKey::Rows | NumberKey::Columns => category == Category::LineDisplay,
            NumberKey::Chars | NumberKey::Lines | NumberKey::Near => {
                category == Category::PosPrinter
            }
        }
    }

    /// Returns its key in an entry.
    pub fn key(self) -> &'static str
        ensures { result.now ≡ key_of_number self }
    {
        match self {
            NumberKey::Rows => "rows",
            NumberKey::Columns => "columns",
            NumberKey::Chars => "chars",
            NumberKey::Lines => "lines",
            NumberKey::Near => "near",
        }
    }

    /// Returns the least that it may be.
    pub fn least(self) -> u32
        ensures { result ≡ least_of self }
    {
        match self {
            NumberKey::Rows | NumberKey::Columns | NumberKey::Chars => 1,
            NumberKey::Lines | NumberKey::Near => 0,
        }
    }

    /// Returns the most that it may be.
    pub fn most(self) -> u32
        ensures { result ≡ most_of self }
    {
        match self {
            NumberKey::Rows => 8,
            NumberKey::Columns => 80,
            NumberKey::Chars => 255,
            NumberKey::Lines | NumberKey::Near => 100_000,
        }
    }
}
