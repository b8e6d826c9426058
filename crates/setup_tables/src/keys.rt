//! What the keys of a table hold.

ghost use Rattle.std.specs.Prelude.{◌≡◌, ◌≤◌, option_map, option_copied, map, nat_eq, IfSome};
ghost use Rattle.std.specs.Cmp.Lexicographic.{pointwise};
ghost use Rattle.std.specs.List.{list_any, list_all};
ghost use Rattle.toml.specs.Data.{get_member};
ghost use Rattle.toml.specs.View.{view, table_view};
ghost use Rattle.setup_tables.specs.Keys.{has_key, has_only, is_table, table_at, text_at, optional_text_at, number_in, number_at, number_or, flag_or, tables_in, tables_at};

use toml::{Table, Value};

/// The value at a key.
pub(crate) fn value_at<'a>(table: &'a Table, key: &str) -> Option<&'a Value>
    ensures { option_map (λ v. view v.now) result ≡ get_member key.now (table_view table.now) }
{
    table.get(key)
}

/// Whether the name is one of these.
fn is_among(known: &[&str], name: &str) -> bool
    ensures { result ≡ list_any (λ other. pointwise nat_eq other.now name.now) known.now }
{
    for other in known {
        if *other == name {
            return true;
        }
    }
    false
}

/// Whether no name stands there but these.
pub(crate) fn has_only(table: &Table, known: &[&str]) -> bool
    ensures { result ≡ has_only (map (λ name. name.now) known.now) (table_view table.now) }
{
    for name in table.keys() {
        if !is_among(known, name.as_str()) {
            return false;
        }
    }
    true
}

/// Whether a key stands there.
pub(crate) fn has_key(table: &Table, key: &str) -> bool
    ensures { result ≡ has_key key.now (table_view table.now) }
{
    value_at(table, key).is_some()
}

/// The text at a key.
pub(crate) fn text_at<'a>(table: &'a Table, key: &str) -> Option<&'a str>
    ensures { option_copied result ≡ text_at key.now (table_view table.now) }
{
    value_at(table, key)?.as_str()
}

/// The table at a key.
pub(crate) fn table_at<'a>(table: &'a Table, key: &str) -> Option<&'a Table>
    ensures { option_map (λ found. table_view found.now) result ≡ table_at key.now (table_view table.now) }
{
    value_at(table, key)?.as_table()
}

/// The text at a key that may be missing, or `None` where another type stands there.
pub(crate) fn optional_text_at<'a>(table: &'a Table, key: &str) -> Option<Option<&'a str>>
    ensures { option_map option_copied result ≡ optional_text_at key.now (table_view table.now) }
{
    match value_at(table, key) {
        None => Some(None),
        Some(value) => match value.as_str() {
            Some(text) => Some(Some(text)),
            None => None,
        },
    }
}

/// The whole number from `least` to `most` at a key.
pub(crate) fn number_at(table: &Table, key: &str, least: u16, most: u16) -> Option<u16>
    ensures value { result ≡ number_at key.now least most (table_view table.now) }
    ensures least { IfSome result (λ n. least ≤ n) }
    ensures most { IfSome result (λ n. n ≤ most) }
{
    number_in(value_at(table, key)?, least, most)
}

/// The whole number from `least` to `most` that a value is.
fn number_in(value: &Value, least: u16, most: u16) -> Option<u16>
    ensures { result ≡ number_in least most (view value.now) }
{
    let number = u16::try_from(value.as_integer()?).ok()?;
    (least <= number && number <= most).then_some(number)
}

/// The whole number of at most `most` that a value is.
fn long_in(value: &Value, most: u64) -> Option<u64>
    ensures { result ≡ number_in 0 most (view value.now) }
{
    let number = u64::try_from(value.as_integer()?).ok()?;
    (number <= most).then_some(number)
}

/// The whole number of at most `most` at a key.
pub(crate) fn long_at(table: &Table, key: &str, most: u64) -> Option<u64>
    ensures { result ≡ number_at key.now 0 most (table_view table.now) }
{
    long_in(value_at(table, key)?, most)
}

/// The same, or the default where the key is missing.
pub(crate) fn long_or(default: u64, table: &Table, key: &str, most: u64) -> Option<u64>
    ensures { result ≡ number_or default key.now most (table_view table.now) }
{
    match value_at(table, key) {
        None => Some(default),
        Some(value) => long_in(value, most),
    }
}

/// The number of at most `most` at a key, or the default where the key is missing.
pub(crate) fn number_or(default: u16, table: &Table, key: &str, most: u16) -> Option<u16>
    ensures { result ≡ number_or default key.now most (table_view table.now) }
{
    match value_at(table, key) {
        None => Some(default),
        Some(value) => number_in(value, 0, most),
    }
}

/// The flag at a key, or the default where the key is missing.
pub(crate) fn flag_or(default: bool, table: &Table, key: &str) -> Option<bool>
    ensures { result ≡ flag_or default key.now (table_view table.now) }
{
    match value_at(table, key) {
        None => Some(default),
        Some(value) => value.as_bool(),
    }
}

/// The list of tables at a key, which has none where the key is missing.
pub(crate) fn tables_at<'a>(table: &'a Table, key: &str) -> Option<&'a [Value]>
    ensures { option_map (λ values. map view values.now) result ≡ tables_at key.now (table_view table.now) }
{
    match value_at(table, key) {
        None => Some(&[]),
        Some(value) => tables_in(value),
    }
}

/// Whether each value is a table.
fn are_tables(values: &[Value]) -> bool
    ensures { result ≡ list_all (λ value. is_table (view value)) values.now }
{
    values.iter().all(|value| value.is_table())
}

/// The elements of an array that are all tables.
fn tables_in(value: &Value) -> Option<&[Value]>
    ensures { option_map (λ values. map view values.now) result ≡ tables_in (view value.now) }
{
    let values = value.as_array()?.as_slice();
    if !are_tables(values) {
        return None;
    }
    Some(values)
}
