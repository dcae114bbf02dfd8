//! What is true of each profile.
ghost use Rattle.pos_profile.specs.Soundness.{IsSoundProfile};

use crate::profile::Profile;

/// Says that each entry of a profile is sound. Its category is one that its list may have, and a device has a name of 1
/// to 16 letters, digits or hyphens, a spare none. A number is in its range if the category has it, and otherwise 0. At
/// most one device is Hard Totals, and no two have the same name.
pub fn is_profile(profile: &Profile)
    ensures { IsSoundProfile profile.now }
{
    let _ = &profile.devices;
}
