//! Numbers, texts and flags.
ghost use Rattle.std.specs.Prelude.{◌≡◌, ◌≤◌, option_map, IfOk};
ghost use Rattle.toml.specs.Data.{get_member};
ghost use Rattle.toml.specs.View.{table_view, view};
ghost use Rattle.table_fields.specs.Arrays.{flag_of};
ghost use Rattle.table_fields.specs.Checked.{Returns, fault};
ghost use Rattle.table_fields.specs.Fields.{number_of, number_within, text_of};

use crate::fault::{TableFault, fault};
use crate::fault_code::{OUT_OF_RANGE, WRONG_KIND};
use toml::{Table, Value};

/// The range of a number, and its default.
#[derive(Clone, Copy)]
pub struct Numbers {
    pub default: u64,
    pub low: u64,
    pub high: u64,
}

/// The value at a key.
pub fn at<'a>(table: &'a Table, key: &str) -> Option<&'a Value>
    ensures { option_map (λ v. view v.now) result ≡ get_member key.now (table_view table.now) }
{
    table.get(key)
}

/// A number. Fault 22 if the value is no integer, 23 if it is out of the range.
pub fn number(
    value: Option<&Value>,
    part: u32,
    key: u32,
    numbers: Numbers,
) -> Result<u64, TableFault>
    ensures value { Returns (λ n. n) result
        (number_of part key numbers.default numbers.low numbers.high
        (option_map (λ v. view v.now) value.entry)) }
    ensures bound { numbers.default ≤ numbers.high → IfOk result (λ n. n ≤ numbers.high) }
{
    let Some(value) = value else {
        return Ok(numbers.default);
    };
    match value.as_integer() {
        Some(n) => within(n, numbers.low, numbers.high, OUT_OF_RANGE, part, key),
        None => Err(fault(WRONG_KIND, part, key)),
    }
}

/// The number if it is from `low` to `high`, or this fault.
pub fn within(
    n: i64,
    low: u64,
    high: u64,
    kind: u16,
    part: u32,
    item: u32,
) -> Result<u64, TableFault>
    ensures value { Returns (λ n. n) result (number_within low high (fault kind part item) n) }
    ensures low { IfOk result (λ n. low ≤ n) }
    ensures high { IfOk result (λ n. n ≤ high) }
{
    if n < 0 {
        return Err(fault(kind, part, item));
    }
    let n = n as u64;
    if n < low || high < n {
        return Err(fault(kind, part, item));
    }
    Ok(n)
}

/// A text (default: empty). Fault 22 if the value is no text.
pub fn text<'a>(value: Option<&'a Value>, part: u32, key: u32) -> Result<&'a str, TableFault>
    ensures { Returns (λ text. text.now) result
        (text_of part key (option_map (λ v. view v.now) value.entry)) }
{
    let Some(value) = value else {
        return Ok("");
    };
    match value.as_str() {
        Some(text) => Ok(text),
        None => Err(fault(WRONG_KIND, part, key)),
    }
}

/// A flag (default: false). Fault 22 if the value is no truth value.
pub fn flag(value: Option<&Value>, part: u32, key: u32) -> Result<bool, TableFault>
    ensures { Returns (λ b. b) result (flag_of part key (option_map (λ v. view v.now) value.entry)) }
{
    let Some(value) = value else {
        return Ok(false);
    };
    match value.as_bool() {
        Some(set) => Ok(set),
        None => Err(fault(WRONG_KIND, part, key)),
    }
}
