//! An entry of a profile, read from a value.
ghost use Rattle.std.specs.Prelude.{◌≡◌, IfOk, option_copied};
ghost use Rattle.toml.specs.View.{view, table_view};
ghost use Rattle.pos_profile.specs.Entries.{ReadsNumber, ReadsNumbers, entry_with};
ghost use Rattle.pos_profile.specs.Mistakes.{ReadsTable, ReadsValue};
ghost use Rattle.pos_profile.specs.Tables.{category_for, name_for};

use crate::entry::{Entry, Role};
use crate::mistake::Reason;
use crate::number::NumberKey;
use crate::table::{Keys, number_at, text_at, unknown_key};
use crate::text::Text;
use crate::variation::{Variation, variation_of};
use pos_service::{Category, NoMemory, is_device_name};
use std::alloc::Global;
use toml::{Table, Value};

/// Why a value is read as no entry.
pub(crate) enum EntryFault {
    /// It isn't sound.
    Flawed(Reason),
    /// Memory ran out.
    NoMemory,
}

/// Returns the category of an entry, if it may have it.
fn category_for(role: Role, table: &Table) -> Option<Category>
    ensures { result ≡ category_for role (table_view table.now) }
{
    let category = match text_at(table, "category") {
        Some(text) => Category::named(text.as_bytes()),
        None => None,
    };
    match (role, category) {
        (Role::Spare, Some(Category::HardTotals)) => None,
        _ => category,
    }
}

/// Returns the name of an entry, if it is sound: that of a device, or a spare's empty one.
fn name_for<'a>(role: Role, table: &'a Table) -> Option<&'a str>
    ensures { option_copied result ≡ name_for role (table_view table.now) }
{
    match role {
        Role::Device => match text_at(table, "name") {
            Some(text) if is_device_name(text.as_bytes()) => Some(text),
            _ => None,
        },
        Role::Spare => Some(""),
    }
}

/// The numbers of an entry; those that its category doesn't have are 0.
#[derive(Clone, Copy)]
pub(crate) struct Numbers {
    pub(crate) rows: u32,
    pub(crate) columns: u32,
    pub(crate) chars: u32,
    pub(crate) lines: u32,
    pub(crate) near: u32,
}

/// No number but 0.
pub(crate) const NO_NUMBERS: Numbers = Numbers {
    rows: 0,
    columns: 0,
    chars: 0,
    lines: 0,
    near: 0,
};

/// Returns a number of an entry: 0 if its category doesn't have it, and otherwise the one at its key. It is refused if
/// that is missing or not in its range.
fn number_of(category: Category, key: NumberKey, table: &Table) -> Result<u32, NumberKey>
    ensures { ReadsNumber category key (table_view table.now) result }
{
    if !key.is_of(category) {
        return Ok(0);
    }
    number_at(table, key).ok_or(key)
}

/// Returns the numbers that a category has, or the first that is missing or not in its range.
fn numbers_of(category: Category, table: &Table) -> Result<Numbers, NumberKey>
    ensures { ReadsNumbers category (table_view table.now) result }
{
    let rows = number_of(category, NumberKey::Rows, table)?;
    let columns = number_of(category, NumberKey::Columns, table)?;
    let chars = number_of(category, NumberKey::Chars, table)?;
    let lines = number_of(category, NumberKey::Lines, table)?;
    let near = number_of(category, NumberKey::Near, table)?;
    Ok(Numbers {
        rows,
        columns,
        chars,
        lines,
        near,
    })
}

/// Returns the entry of a category with a copy of this name and these numbers, whose device differs in this way from a
/// plain one.
pub(crate) fn named_entry(
    alloc: Global,
    category: Category,
    name: &str,
    numbers: Numbers,
    variation: Variation,
) -> Result<Entry, NoMemory>
    ensures { IfOk result (λ entry. entry ≡ entry_with category name.now numbers variation) }
{
    Ok(Entry {
        name: Text::copy_of(alloc, name)?,
        category,
        rows: numbers.rows,
        columns: numbers.columns,
        chars: numbers.chars,
        lines: numbers.lines,
        near: numbers.near,
        ring: variation.ring,
        flaky: variation.flaky,
        recorded: variation.recorded,
    })
}

/// Returns the entry that a table is, or what is wrong with it.
fn read_table(alloc: Global, role: Role, table: &Table) -> Result<Entry, EntryFault>
    ensures { ReadsTable role (table_view table.now) result }
{
    let Some(category) = category_for(role, table) else {
        return Err(EntryFault::Flawed(Reason::BadCategory(role)));
    };
    let Some(name) = name_for(role, table) else {
        return Err(EntryFault::Flawed(Reason::BadName));
    };
    let numbers = match numbers_of(category, table) {
        Ok(numbers) => numbers,
        Err(number) => return Err(EntryFault::Flawed(Reason::BadNumber(number))),
    };
    let variation = match variation_of(category, table) {
        Ok(variation) => variation,
        Err(key) => return Err(EntryFault::Flawed(Reason::BadOption(key))),
    };
    if let Some(key) = unknown_key(table, Keys::OfEntry(role, category)) {
        return match Text::copy_of(alloc, key) {
            Ok(key) => Err(EntryFault::Flawed(Reason::UnknownKey(key))),
            Err(NoMemory) => Err(EntryFault::NoMemory),
        };
    }
    match named_entry(alloc, category, name, numbers, variation) {
        Ok(entry) => Ok(entry),
        Err(NoMemory) => Err(EntryFault::NoMemory),
    }
}

/// Returns the entry that a value is, or what is wrong with the value alone.
pub(crate) fn read_value(alloc: Global, role: Role, value: &Value) -> Result<Entry, EntryFault>
    ensures { ReadsValue role (view value.now) result }
{
    match value.as_table() {
        Some(table) => read_table(alloc, role, table),
        None => Err(EntryFault::Flawed(Reason::NotATable)),
    }
}
