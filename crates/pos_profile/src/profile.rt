//! The profile of a counter.
ghost use Rattle.std.specs.Prelude.{◌≡◌, length, option_copied};
ghost use Rattle.std.specs.List.{find};
ghost use Rattle.toml.specs.Parse.{parse_document};
ghost use Rattle.toml.specs.View.{table_view};
ghost use Rattle.pos_profile.specs.Categories.{is_totals};
ghost use Rattle.pos_profile.specs.Profiles.{FromDocument, Gives};
ghost use Rattle.pos_profile.specs.Registries.{planned_of};

use crate::category::is_totals;
use crate::entry::Entry;
use crate::entry_list::first_repeated;
use crate::root::{DocumentFault, Lists, read_document};
use crate::text::Text;
use pos_service::NoMemory;
use std::alloc::Global;
use std::marker::Model;
use thiserror::Error;
use toml::Table;

/// The devices of a counter and its spares, each in the order of the profile (docs/reference/profile.md).
#[derive(Drop)]
pub struct Profile {
    pub(crate) devices: Vec<Entry>,
    pub(crate) spares: Vec<Entry>,
}

impl Model for Profile {
    ghost use Rattle.pos_profile.specs.Entries.{Contents};
    ghost use Rattle.pos_profile.specs.Soundness.{IsSoundProfile};

    ghost Value = { Contents };

    ghost view = { λ profile. record { devices = profile.devices.items; spares = profile.spares.items } };

    ghost invariant = { λ profile.
        IsSoundProfile (record { devices = profile.devices.items; spares = profile.spares.items }) };
}

/// Returns the profile that a document is.
fn from_table(alloc: Global, root: &Table) -> Result<Profile, ProfileFault>
    ensures { Gives (table_view root.now) result }
{
    let lists = match read_document(alloc, root) {
        Ok(lists) => lists,
        Err(DocumentFault::Mistaken(mistake)) => {
            return Err(ProfileFault::BadEntry(mistake.number));
        }
        Err(DocumentFault::NoMemory) => return Err(ProfileFault::NoMemory),
    };
    let Lists {
        mut devices,
        spares,
    } = lists;
    match first_repeated(alloc, &devices) {
        Ok(Some(place)) => Err(ProfileFault::Duplicate(devices.swap_remove(place).name)),
        Ok(None) => Ok(Profile { devices, spares }),
        Err(NoMemory) => Err(ProfileFault::NoMemory),
    }
}

impl Profile {
    /// Returns the profile that a text is.
    ///
    /// # Errors
    ///
    /// The first of these that holds:
    ///
    /// - `BadText` if the text is no TOML document.
    /// - `BadEntry` with the lowest number of what isn't sound: 0 for the root, and from 1 on the entries, devices
    ///   counted before spares.
    /// - `Duplicate` with the first name that comes a second time.
    ///
    /// `NoMemory` if memory ran out, which may happen at any text.
    pub fn from_text(alloc: Global, text: &str) -> Result<Profile, ProfileFault>
        ensures { FromDocument (parse_document text.now) result }
    {
        match toml::table_from_str(alloc, text) {
            Ok(root) => from_table(alloc, &root),
            Err(error) if error.is_memory() => Err(ProfileFault::NoMemory),
            Err(_) => Err(ProfileFault::BadText),
        }
    }

    /// Returns the devices in order.
    pub fn devices(&self) -> &[Entry]
        ensures { result.now ≡ self.now.devices }
    {
        self.devices.as_slice()
    }

    /// Returns how many devices may have a peripheral, and so have a place in a registry.
    pub fn count_places(&self) -> usize
        ensures { result ≡ length (planned_of self.now.devices) }
    {
        let mut count = 0;
        for entry in &self.devices {
            if entry.kind().is_some() {
                count += 1;
            }
        }
        count
    }

    /// Returns the device of Hard Totals, or `None` if there is none. It has no peripheral, and so no place in a
    /// registry.
    pub fn totals(&self) -> Option<&Entry>
        ensures { option_copied result ≡ find (λ entry. is_totals entry.category) self.now.devices }
    {
        self.devices.iter().find(|entry| is_totals(entry.category))
    }

    /// Returns the spares in order.
    pub fn spares(&self) -> &[Entry]
        ensures { result.now ≡ self.now.spares }
    {
        self.spares.as_slice()
    }
}

/// Why a text is no profile.
#[derive(Debug, Drop, Error)]
pub enum ProfileFault {
    /// The text is no TOML document.
    #[error("the profile is no TOML document")]
    BadText,
    /// An entry isn't sound. The number is the lowest of what isn't sound: 0 for the root, and from 1 on the entries,
    /// devices counted before spares.
    #[error("entry {0} of the profile is not sound")]
    BadEntry(usize),
    /// Two devices have the same name: the first that comes a second time.
    #[error("two devices of the profile have the name {0}")]
    Duplicate(Text),
    /// Memory ran out.
    #[error("no memory")]
    NoMemory,
}
