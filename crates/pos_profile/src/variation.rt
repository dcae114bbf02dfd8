//! How an entry's device differs from a plain one, by its optional keys.
ghost use Rattle.toml.specs.View.{table_view};
ghost use Rattle.pos_profile.specs.Entries.{ReadsFlaky, ReadsTruth, ReadsVariation};

use crate::optional::OptionalKey;
use crate::table::{flaky_at, truth_at};
use pos_service::Category;
use toml::Table;

/// How the device of an entry differs from a plain one.
#[derive(Clone, Copy)]
pub(crate) struct Variation {
    /// Whether its rows are a ring.
    pub(crate) ring: bool,
    /// The number of its first order that fails, and how many fail from there on.
    pub(crate) flaky: Option<(u32, u32)>,
    /// Whether its orders are counted.
    pub(crate) recorded: bool,
}

/// A plain device.
pub(crate) const PLAIN: Variation = Variation {
    ring: false,
    flaky: None,
    recorded: false,
};

/// Returns a truth value of an entry, false if its category doesn't have it.
fn truth_of(category: Category, key: OptionalKey, table: &Table) -> Result<bool, OptionalKey>
    ensures { ReadsTruth category key (table_view table.now) result }
{
    if !key.is_of(category) {
        return Ok(false);
    }
    truth_at(table, key).ok_or(key)
}

/// Returns which orders of an entry's device fail: none if its category doesn't have them.
fn flaky_of(category: Category, table: &Table) -> Result<Option<(u32, u32)>, OptionalKey>
    ensures { ReadsFlaky category (table_view table.now) result }
{
    if !OptionalKey::Flaky.is_of(category) {
        return Ok(None);
    }
    flaky_at(table).ok_or(OptionalKey::Flaky)
}

/// Returns how the device of an entry differs from a plain one, or the first optional key of the category whose value
/// is none that it may have.
pub(crate) fn variation_of(category: Category, table: &Table) -> Result<Variation, OptionalKey>
    ensures { ReadsVariation category (table_view table.now) result }
{
    let ring = truth_of(category, OptionalKey::Ring, table)?;
    let flaky = flaky_of(category, table)?;
    let recorded = truth_of(category, OptionalKey::Record, table)?;
    Ok(Variation {
        ring,
        flaky,
        recorded,
    })
}
