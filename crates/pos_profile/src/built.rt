//! The built-in profile.
ghost use Rattle.std.specs.Prelude.{◌≡◌, IfOk};
ghost use Rattle.pos_profile.specs.Built.{built, built_devices, built_spares};

use crate::category::{ALL_CATEGORIES, SPARE_CATEGORY, built_device};
use crate::entry::Entry;
use crate::entry_reader::{NO_NUMBERS, named_entry};
use crate::profile::Profile;
use crate::variation::PLAIN;
use pos_service::NoMemory;
use std::alloc::Global;

/// The built devices, one of each category.
fn make_devices(alloc: Global) -> Result<Vec<Entry>, NoMemory>
    ensures { IfOk result (λ devices. devices.items ≡ built_devices) }
{
    let mut devices = Vec::with_capacity(alloc, ALL_CATEGORIES.len())?;
    for category in ALL_CATEGORIES {
        devices.push_reserved(built_device(alloc, category)?);
    }
    Ok(devices)
}

/// The built spares.
fn make_spares(alloc: Global) -> Result<Vec<Entry>, NoMemory>
    ensures { IfOk result (λ spares. spares.items ≡ built_spares) }
{
    let mut spares = Vec::with_capacity(alloc, 1)?;
    spares.push_reserved(named_entry(alloc, SPARE_CATEGORY, "", NO_NUMBERS, PLAIN)?);
    Ok(spares)
}

impl Profile {
    /// Returns the built-in profile: the cash drawer `d1`, the scanner `s1`, the line display `p1` of 2 rows of 4
    /// columns, the receipt printer `r1`, the Hard Totals device `t1`, and a spare cash drawer. The printer has 8
    /// characters a line and 5 lines of paper, which are near their end at 2.
    ///
    /// # Errors
    ///
    /// [`NoMemory`] if memory ran out.
    pub fn built(alloc: Global) -> Result<Profile, NoMemory>
        ensures { IfOk result (λ profile. profile ≡ built) }
    {
        let devices = make_devices(alloc)?;
        let spares = make_spares(alloc)?;
        Ok(Profile { devices, spares })
    }
}
