//! The optional keys of an entry.
ghost use Rattle.std.specs.Prelude.{◌≡◌};
ghost use Rattle.pos_profile.specs.OptionalKeys.{has_option, key_of_option};

use pos_service::Category;

/// A key that an entry may have or lack.
#[derive(Clone, Copy, PartialEq, Eq)]
pub enum OptionalKey {
    /// Whether a display's rows are a ring: a truth value.
    Ring,
    /// Which orders fail: two numbers, each 0 to 1,000,000.
    Flaky,
    /// Whether the orders are counted: a truth value.
    Record,
}

/// All optional keys.
pub(crate) const ALL_OPTIONS: [OptionalKey; 3] = [
    OptionalKey::Ring,
    OptionalKey::Flaky,
    OptionalKey::Record,
];

impl OptionalKey {
    /// Returns its name in an entry.
    pub fn key(self) -> &'static str
        ensures { result.now ≡ key_of_option self }
    {
        match self {
            OptionalKey::Ring => "ring",
            OptionalKey::Flaky => "flaky",
            OptionalKey::Record => "record",
        }
    }

    /// Returns whether entries of a category may have it: displays have all, Hard Totals none, others all but a ring.
    pub(crate) fn is_of(self, category: Category) -> bool
        ensures { result ≡ has_option category self }
    {
        match category {
            Category::LineDisplay => true,
            Category::HardTotals => false,
            _ => self != OptionalKey::Ring,
        }
    }
}
