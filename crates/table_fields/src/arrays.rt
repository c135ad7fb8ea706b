//! Arrays of one kind of values.
ghost use Rattle.std.specs.Prelude.{◌≡◌, map, option_map};
ghost use Rattle.toml.specs.Data.{as_integer, as_str, as_table};
ghost use Rattle.toml.specs.View.{table_view, view};
ghost use Rattle.table_fields.specs.Arrays.{array_of, count_of, of_kind};
ghost use Rattle.table_fields.specs.Checked.{Gives, fault};

use crate::fault::{TableError, refused};
use crate::fault_code::WRONG_KIND;
use std::alloc::Global;
use toml::{Table, Value};

/// The number of values of an array, or None if the value is no array.
#[tactic(auto, using(crate::proofs::Values::values_length))]
pub fn count(value: Option<&Value>) -> usize
    ensures { result ≡ count_of (option_map (λ v. view v.now) value.entry) }
{
    let Some(value) = value else { return 0 };
    match value.as_array() {
        Some(array) => array.len(),
        None => 0,
    }
}

/// An array of integers (default: empty). Fault 22 if the value is no such array.
#[tactic(auto, using(crate::proofs::Values::values_view))]
pub fn integers(
    alloc: Global,
    value: Option<&Value>,
    part: u32,
    key: u32,
) -> Result<Vec<i64>, TableError>
    ensures { Gives (λ v. v.items) result
        (array_of as_integer part key (option_map (λ v. view v.now) value.entry)) }
{
    let Some(value) = value else {
        return Ok(Vec::new(alloc));
    };
    match value.as_array() {
        Some(array) => integers_in(alloc, array, part, key),
        None => Err(refused(WRONG_KIND, part, key)),
    }
}

/// An array of texts (default: empty). Fault 22 if the value is no such array.
#[tactic(auto, using(crate::proofs::Values::values_view))]
pub fn strings<'a>(
    alloc: Global,
    value: Option<&'a Value>,
    part: u32,
    key: u32,
) -> Result<Vec<&'a str>, TableError>
    ensures { Gives (λ v. map (λ s. s.now) v.items) result
        (array_of as_str part key (option_map (λ v. view v.now) value.entry)) }
{
    let Some(value) = value else {
        return Ok(Vec::new(alloc));
    };
    match value.as_array() {
        Some(array) => strings_in(alloc, array, part, key),
        None => Err(refused(WRONG_KIND, part, key)),
    }
}

/// An array of tables (default: empty). Fault 22 if the value is no such array.
#[tactic(auto, using(crate::proofs::Values::values_view))]
pub fn tables<'a>(
    alloc: Global,
    value: Option<&'a Value>,
    part: u32,
    key: u32,
) -> Result<Vec<&'a Table>, TableError>
    ensures { Gives (λ v. map (λ t. table_view t.now) v.items) result
        (array_of as_table part key (option_map (λ v. view v.now) value.entry)) }
{
    let Some(value) = value else {
        return Ok(Vec::new(alloc));
    };
    match value.as_array() {
        Some(array) => tables_in(alloc, array, part, key),
        None => Err(refused(WRONG_KIND, part, key)),
    }
}

fn integers_in(alloc: Global, values: &[Value], part: u32, key: u32) -> Result<Vec<i64>, TableError>
    ensures { Gives (λ v. v.items) result
        (of_kind as_integer (fault 22 part key) (map view values.now)) }
{
    let mut found = Vec::new(alloc);
    for value in values {
        let Some(n) = value.as_integer() else {
            return Err(refused(WRONG_KIND, part, key));
        };
        found.push(n)?;
    }
    Ok(found)
}

fn strings_in<'a>(
    alloc: Global,
    values: &'a [Value],
    part: u32,
    key: u32,
) -> Result<Vec<&'a str>, TableError>
    ensures { Gives (λ v. map (λ s. s.now) v.items) result
        (of_kind as_str (fault 22 part key) (map view values.entry.now)) }
{
    let mut found = Vec::new(alloc);
    for i in 0..values.len() {
        let Some(text) = values[i].as_str() else {
            return Err(refused(WRONG_KIND, part, key));
        };
        found.push(text)?;
    }
    Ok(found)
}

fn tables_in<'a>(
    alloc: Global,
    values: &'a [Value],
    part: u32,
    key: u32,
) -> Result<Vec<&'a Table>, TableError>
    ensures { Gives (λ v. map (λ t. table_view t.now) v.items) result
        (of_kind as_table (fault 22 part key) (map view values.entry.now)) }
{
    let mut found = Vec::new(alloc);
    for i in 0..values.len() {
        let Some(table) = values[i].as_table() else {
            return Err(refused(WRONG_KIND, part, key));
        };
        found.push(table)?;
    }
    Ok(found)
}
