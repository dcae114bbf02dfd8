//! The places of a registry's devices by their names.
ghost use Rattle.std.specs.Prelude.{◌≡◌, IfOk, OnOk, bytes_eq, map};
ghost use Rattle.pos_profile.specs.Places.{IsIndexOf, IsNoted, found_in, looked_up};

use crate::plans::Planned;
use indexmap::IndexMap;
use pos_service::NoMemory;
use std::alloc::Global;
use std::cell::Cell;

/// The place of each name, and where among them the one is that was found last.
#[derive(Drop)]
pub(crate) struct Places {
    places: IndexMap<Vec<u8>, usize>,
    last: Cell<usize>,
}

/// Returns whether two names are the same. It is inlined, since names are short.
#[inline(always)]
fn is_same(one: &[u8], other: &[u8]) -> bool
    ensures { result ≡ bytes_eq one.now other.now }
{
    if one.len() != other.len() {
        return false;
    }
    for place in 0..one.len() {
        if one[place] != other[place] {
            return false;
        }
    }
    true
}

/// Returns what a map has under a name, and keeps where it was found. It is a function of its own, since this is rare.
#[inline(never)]
fn look_up(numbers: &IndexMap<Vec<u8>, usize>, last: &Cell<usize>, name: &[u8]) -> Option<usize>
    ensures { result ≡ looked_up numbers.now name.now }
{
    match numbers.get_full(name) {
        Some((place, _, number)) => {
            last.set(place);
            Some(*number)
        }
        None => None,
    }
}

/// Returns what a map has under a name. The name that was found last isn't hashed again, since a line mostly has the
/// name of the line before.
#[inline(always)]
pub fn find_name(
    numbers: &IndexMap<Vec<u8>, usize>,
    last: &Cell<usize>,
    name: &[u8],
) -> Option<usize>
    ensures { result ≡ looked_up numbers.now name.now }
{
    if let Some((found, number)) = numbers.get_index(last.get()) {
        if is_same(found.as_slice(), name) {
            return Some(*number);
        }
    }
    look_up(numbers, last, name)
}

/// Notes the place of a name that has none yet.
fn note(
    alloc: Global,
    places: &mut IndexMap<Vec<u8>, usize>,
    name: &[u8],
    place: usize,
) -> Result<(), NoMemory>
    ensures { OnOk result (IsNoted places.old name.now place places.new) }
{
    if places.contains_key(name) {
        return Ok(());
    }
    let Ok(copy) = Vec::from_slice(alloc, name) else {
        return Err(NoMemory);
    };
    let Ok(_) = places.insert(copy, place) else {
        return Err(NoMemory);
    };
    Ok(())
}

impl Places {
    /// Returns the places of these names. A name that comes twice has its first place.
    pub(crate) fn of(alloc: Global, plan: &[Planned]) -> Result<Self, NoMemory>
        ensures { IfOk result (λ index. IsIndexOf index (map (λ planned. planned.name) plan.now)) }
    {
        let mut places = IndexMap::with_capacity(alloc, plan.len())?;
        for (place, planned) in plan.iter().enumerate() {
            note(alloc, &mut places, planned.name.as_slice(), place)?;
        }
        Ok(Places {
            places,
            last: Cell::new(0),
        })
    }

    /// Returns the place of a name.
    pub(crate) fn find(&self, name: &[u8]) -> Option<usize>
        ensures { result ≡ found_in self.now name.now }
    {
        find_name(&self.places, &self.last, name)
    }
}
