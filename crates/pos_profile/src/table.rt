//! What a profile asks of a table.
ghost use Rattle.std.specs.Prelude.{◌≡◌, map, option_map, option_copied};
ghost use Rattle.toml.specs.Data.{get_member};
ghost use Rattle.toml.specs.View.{view, table_view};
ghost use Rattle.pos_profile.specs.Numbers.{is_number_key};
ghost use Rattle.pos_profile.specs.OptionalKeys.{is_option_key, most_orders};
ghost use Rattle.pos_profile.specs.Tables.{FindsUnknown, array_in, failing_number, failing_in, flaky_at, is_category_key, is_key, is_list, number_at, number_within, text_at, truth_at, values_at};

use crate::entry::Role;
use crate::number::{ALL_NUMBERS, NumberKey};
use crate::optional::{ALL_OPTIONS, OptionalKey};
use pos_service::Category;
use toml::{Table, Value};

/// Returns the value at a key.
fn member<'a>(table: &'a Table, key: &str) -> Option<&'a Value>
    ensures { option_map (λ value. view value.now) result ≡ get_member key.now (table_view table.now) }
{
    table.get(key)
}

/// Returns the text at a key.
pub(crate) fn text_at<'a>(table: &'a Table, key: &str) -> Option<&'a str>
    ensures { option_copied result ≡ text_at key.now (table_view table.now) }
{
    match member(table, key) {
        Some(value) => value.as_str(),
        None => None,
    }
}

/// Returns a number, if it is in its range.
fn number_within(number: i64, least: u32, most: u32) -> Option<u32>
    ensures { result ≡ number_within least most number }
{
    match u32::try_from(number) {
        Ok(number) if least <= number && number <= most => Some(number),
        _ => None,
    }
}

/// Returns a number of the table, if it is there and in its range.
pub(crate) fn number_at(table: &Table, key: NumberKey) -> Option<u32>
    ensures { result ≡ number_at key (table_view table.now) }
{
    let value = match member(table, key.key()) {
        Some(value) => value.as_integer(),
        None => None,
    };
    match value {
        Some(number) => number_within(number, key.least(), key.most()),
        None => None,
    }
}

/// Returns the truth value at an optional key, false if it is absent, or `None` if the value is another one.
pub(crate) fn truth_at(table: &Table, key: OptionalKey) -> Option<bool>
    ensures { result ≡ truth_at key (table_view table.now) }
{
    match member(table, key.key()) {
        Some(value) => value.as_bool(),
        None => Some(false),
    }
}

/// The most that a number of failing orders may be.
pub(crate) const MOST_ORDERS: u32 = 1_000_000;

/// Returns the values of an array.
fn array_in(value: &Value) -> Option<&[Value]>
    ensures { option_map (λ values. map (λ value. view value) values.now) result ≡ array_in (view value.now) }
{
    match value.as_array() {
        Some(values) => Some(values.as_slice()),
        None => None,
    }
}

/// Returns a number of failing orders.
fn failing_number(value: &Value) -> Option<u32>
    ensures { result ≡ failing_number (view value.now) }
{
    match value.as_integer() {
        Some(number) => number_within(number, 0, MOST_ORDERS),
        None => None,
    }
}

/// Returns which orders fail, if there are the number of the first, how many, and no other value.
fn failing_in(values: &[Value]) -> Option<(u32, u32)>
    ensures { result ≡ failing_in (map (λ value. view value) values.now) }
{
    match values {
        [first, times] => Some((failing_number(first)?, failing_number(times)?)),
        _ => None,
    }
}

/// Returns which orders fail, if the table has any, or `None` if the value is no array of two numbers in their range.
pub(crate) fn flaky_at(table: &Table) -> Option<Option<(u32, u32)>>
    ensures { result ≡ flaky_at (table_view table.now) }
{
    let Some(value) = member(table, OptionalKey::Flaky.key()) else {
        return Some(None);
    };
    let Some(values) = array_in(value) else {
        return None;
    };
    match failing_in(values) {
        Some(failing) => Some(Some(failing)),
        None => None,
    }
}

/// Returns whether entries of a category have a number of this key.
fn is_number_key(category: Category, key: &str) -> bool
    ensures { result ≡ is_number_key category key.now }
{
    ALL_NUMBERS
        .iter()
        .any(|number| number.is_of(category) && key == number.key())
}

/// Returns whether entries of a category may have this optional key.
fn is_option_key(category: Category, key: &str) -> bool
    ensures { result ≡ is_option_key category key.now }
{
    ALL_OPTIONS
        .iter()
        .any(|option| option.is_of(category) && key == option.key())
}

/// Returns whether entries of a category may have this number or this optional key.
fn is_category_key(category: Category, key: &str) -> bool
    ensures { result ≡ is_category_key category key.now }
{
    is_number_key(category, key) || is_option_key(category, key)
}

/// Which keys a table may have.
#[derive(Clone, Copy)]
pub(crate) enum Keys {
    /// Those of the root.
    OfRoot,
    /// Those of an entry of a list and a category.
    OfEntry(Role, Category),
}

impl Keys {
    /// Returns whether the table may have this key.
    fn has(self, key: &str) -> bool
        ensures { result ≡ is_key self key.now }
    {
        match self {
            Keys::OfRoot => key == "device" || key == "spare",
            Keys::OfEntry(Role::Device, category) => {
                key == "category" || key == "name" || is_category_key(category, key)
            }
            Keys::OfEntry(Role::Spare, category) => {
                key == "category" || is_category_key(category, key)
            }
        }
    }
}

/// Returns a key of a table that it may not have.
pub(crate) fn unknown_key(table: &Table, keys: Keys) -> Option<&str>
    ensures { FindsUnknown (is_key keys) (table_view table.now) (option_copied result) }
{
    for key in table.keys() {
        if !keys.has(key.as_str()) {
            return Some(key.as_str());
        }
    }
    None
}

/// Returns whether a key is absent or has an array.
pub(crate) fn is_list(table: &Table, key: &str) -> bool
    ensures { result ≡ is_list (get_member key.now (table_view table.now)) }
{
    match member(table, key) {
        Some(value) => value.is_array(),
        None => true,
    }
}

/// Returns the values of the array at a key, or none if there is no array.
pub(crate) fn values_at<'a>(table: &'a Table, key: &str) -> &'a [Value]
    ensures { map (λ value. view value) result.now ≡ values_at key.now (table_view table.now) }
{
    match member(table, key) {
        Some(value) => match value.as_array() {
            Some(values) => values.as_slice(),
            None => &[],
        },
        None => &[],
    }
}
