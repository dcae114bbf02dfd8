//! The entries of a list of a profile.
ghost use Rattle.std.specs.Prelude.{◌≡◌, IfOk, map};
ghost use Rattle.std.specs.List.{list_any};
ghost use Rattle.toml.specs.View.{view};
ghost use Rattle.pos_profile.specs.Categories.{is_totals};
ghost use Rattle.pos_profile.specs.Mistakes.{ReadsList};
ghost use Rattle.pos_profile.specs.Profiles.{FindsRepeated, is_refused_after, names_of};

use crate::category::is_totals;
use crate::entry::{Entry, Role};
use crate::entry_reader::{EntryFault, read_value};
use crate::mistake::Reason;
use indexmap::IndexSet;
use pos_service::NoMemory;
use std::alloc::Global;
use toml::Value;

/// The first value of a list that isn't sound.
#[derive(Drop)]
pub(crate) struct Flaw {
    /// Its place, counted from 0.
    pub(crate) place: usize,
    /// What is wrong with it.
    pub(crate) reason: Reason,
}

/// Why values are read as no list of entries.
#[derive(Drop)]
pub(crate) enum ListFault {
    /// One of them isn't sound.
    Flawed(Flaw),
    /// Memory ran out.
    NoMemory,
}

/// Returns whether one of them is an entry of Hard Totals.
fn has_totals(entries: &[Entry]) -> bool
    ensures { result ≡ list_any (λ entry. is_totals entry.category) entries.now }
{
    entries.iter().any(|entry| is_totals(entry.category))
}

/// Returns whether an entry is a second one of Hard Totals.
fn is_second_totals(earlier: &[Entry], entry: &Entry) -> bool
    ensures { result ≡ is_refused_after (map (λ entry. Some entry) earlier.now) (Some (Some entry.now)) }
{
    is_totals(entry.category) && has_totals(earlier)
}

/// Returns the entries that values are, or the first value that isn't sound.
pub(crate) fn read_entries(
    alloc: Global,
    role: Role,
    values: &[Value],
) -> Result<Vec<Entry>, ListFault>
    ensures { ReadsList role (map (λ value. view value) values.now) result }
{
    let Ok(mut entries) = Vec::with_capacity(alloc, values.len()) else {
        return Err(ListFault::NoMemory);
    };
    for (place, value) in values.iter().enumerate() {
        let entry = match read_value(alloc, role, value) {
            Ok(entry) => entry,
            Err(EntryFault::Flawed(reason)) => {
                return Err(ListFault::Flawed(Flaw { place, reason }));
            }
            Err(EntryFault::NoMemory) => return Err(ListFault::NoMemory),
        };
        if is_second_totals(&entries, &entry) {
            let reason = Reason::SecondHardTotals;
            return Err(ListFault::Flawed(Flaw { place, reason }));
        }
        entries.push_reserved(entry);
    }
    Ok(entries)
}

/// Returns the first place whose name is also at an earlier one.
pub(crate) fn first_repeated(alloc: Global, entries: &[Entry]) -> Result<Option<usize>, NoMemory>
    ensures { IfOk result (FindsRepeated (names_of entries.now)) }
{
    let mut names = IndexSet::with_capacity(alloc, entries.len())?;
    for (place, entry) in entries.iter().enumerate() {
        let Ok(is_new) = names.insert(entry.name.as_str()) else {
            return Err(NoMemory);
        };
        if !is_new {
            return Ok(Some(place));
        }
    }
    Ok(None)
}
