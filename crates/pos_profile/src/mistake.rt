//! What isn't sound in a profile.
use crate::entry::Role;
use crate::number::NumberKey;
use crate::optional::OptionalKey;
use crate::table::MOST_ORDERS;
use crate::text::Text;
use std::fmt;

/// The place in a profile that isn't sound.
#[derive(Clone, Copy, PartialEq, Eq)]
pub enum Place {
    /// At its root.
    Root,
    /// At the entry of a list with this number, counted from 1 in its own list.
    Listed(Role, usize),
}

/// Why a place of a profile isn't sound.
#[derive(Drop)]
pub enum Reason {
    /// The value of the root's key is no array.
    NotAnArray(Role),
    /// The root, or the entry, has a key that it may not have.
    UnknownKey(Text),
    /// The entry is no table.
    NotATable,
    /// The category is missing, or none that an entry of this list may have.
    BadCategory(Role),
    /// The name is missing, or isn't 1 to 16 ASCII letters, digits or hyphens.
    BadName,
    /// A number of the category is missing, or isn't in its range.
    BadNumber(NumberKey),
    /// The value of an optional key is none that it may have.
    BadOption(OptionalKey),
    /// There is an earlier device of Hard Totals.
    SecondHardTotals,
}

/// The first thing in a profile that isn't sound, for its writer.
#[derive(Drop)]
pub struct Mistake {
    /// The number that the refusal of the profile has.
    pub number: usize,
    /// Where it is.
    pub place: Place,
    /// What it is.
    pub reason: Reason,
}

impl fmt::Display for Place {
    fn fmt<W: fmt::Write>(&self, f: &mut fmt::Formatter<W>) -> fmt::Result {
        match self {
            Place::Root => write!(f, "profile"),
            Place::Listed(Role::Device, number) => write!(f, "device {number}"),
            Place::Listed(Role::Spare, number) => write!(f, "spare {number}"),
        }
    }
}

impl fmt::Display for Reason {
    fn fmt<W: fmt::Write>(&self, f: &mut fmt::Formatter<W>) -> fmt::Result {
        match self {
            Reason::NotAnArray(role) => {
                let key = role.key();
                write!(f, "{key} must be an array of tables")
            }
            Reason::UnknownKey(key) => write!(f, "unknown key: {key}"),
            Reason::NotATable => write!(f, "must be a table"),
            Reason::BadCategory(role) => {
                let categories = role.categories();
                write!(f, "category must be {categories}")
            }
            Reason::BadName => write!(f, "name must be 1 to 16 letters, digits or hyphens"),
            Reason::BadNumber(number) => {
                let (key, least, most) = (number.key(), number.least(), number.most());
                write!(f, "{key} must be {least} to {most}")
            }
            Reason::BadOption(OptionalKey::Flaky) => {
                write!(
                    f,
                    "flaky must be an array of two numbers, each 0 to {MOST_ORDERS}"
                )
            }
            Reason::BadOption(option) => {
                let key = option.key();
                write!(f, "{key} must be true or false")
            }
            Reason::SecondHardTotals => write!(f, "a second device of category HardTotals"),
        }
    }
}

impl fmt::Display for Mistake {
    fn fmt<W: fmt::Write>(&self, f: &mut fmt::Formatter<W>) -> fmt::Result {
        let (place, reason) = (self.place, &self.reason);
        write!(f, "{place}: {reason}")
    }
}
