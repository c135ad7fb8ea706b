//! The numbers at the top of a session's table.
ghost use Rattle.std.specs.Prelude.{◌≡◌, ◌≤◌, ◌^◌, false, true, option_map, IfOk, IfSome};
ghost use Rattle.std.specs.Int.RustNames.{bit_or};
ghost use Rattle.table_fields.specs.Checked.{Gives};
ghost use Rattle.toml.specs.View.{table_view, view};
ghost use Rattle.vt_base.specs.ConsoleSet.{is_among};
ghost use Rattle.session_text.specs.Openings.{IsOpening, consoles_in, consoles_of, front_of, lowest_from, opening_of, some_consoles};

use crate::session_header::SessionHeader;
use std::alloc::Global;
use table_fields::fault_code::{OUT_OF_RANGE, WRONG_KIND};
use table_fields::{Numbers, TableError, at, integers, number, refused, within};
use toml::{Table, Value};
use vt_base::{ConsoleNo, is_among};

/// The rows of a screen.
const ROWS: Numbers = Numbers {
    default: 25,
    low: 1,
    high: 255,
};

/// The columns of a screen.
const COLS: Numbers = Numbers {
    default: 80,
    low: 1,
    high: 255,
};

/// The most entries of the journal. This project's own.
const EVENTS: Numbers = Numbers {
    default: 65_536,
    low: 0,
    high: 1_000_000,
};

/// The most bytes that the entries may count for. This project's own.
const BYTES: Numbers = Numbers {
    default: 67_108_864,
    low: 64,
    high: 1_073_741_824,
};

/// The first six keys of a session's table.
pub(crate) fn opening(alloc: Global, table: &Table) -> Result<SessionHeader, TableError>
    ensures opening { Gives (λ o. o) result (opening_of (table_view table.now)) }
    ensures fit { IfOk result IsOpening }
{
    let rows = number(at(table, "rows"), 0, 1, ROWS)?;
    let cols = number(at(table, "cols"), 0, 2, COLS)?;
    let consoles = consoles(alloc, at(table, "consoles"))?;
    let front = front(consoles, at(table, "front"))?;
    let events = number(at(table, "events"), 0, 5, EVENTS)?;
    let bytes = number(at(table, "bytes"), 0, 6, BYTES)?;
    Ok(SessionHeader {
        rows: rows as u8,
        cols: cols as u8,
        consoles,
        front,
        events: events as u32,
        bytes,
    })
}

// The set of the consoles (default: console 1).
fn consoles(alloc: Global, value: Option<&Value>) -> Result<u64, TableError>
    ensures set { Gives (λ set. set) result
        (consoles_of (option_map (λ v. view v.now) value.entry)) }
    ensures no_zero { IfOk result (λ set. is_among set 0 ≡ false) }
{
    if value.is_none() {
        return Ok(2);
    }
    let numbers = integers(alloc, value, 0, 3)?;
    some_consoles(numbers.as_slice())
}

fn some_consoles(numbers: &[i64]) -> Result<u64, TableError>
    ensures set { Gives (λ set. set) result (some_consoles numbers.now) }
    ensures no_zero { IfOk result (λ set. is_among set 0 ≡ false) }
{
    if numbers.is_empty() {
        return Err(refused(OUT_OF_RANGE, 0, 3));
    }
    consoles_in(numbers)
}

fn consoles_in(numbers: &[i64]) -> Result<u64, TableError>
    ensures set { Gives (λ set. set) result (consoles_in 0 numbers.now) }
    ensures no_zero { IfOk result (λ set. is_among set 0 ≡ false) }
{
    let mut set = 0;
    for number in numbers {
        let n = within(*number, 1, 63, OUT_OF_RANGE, 0, 3)?;
        if is_among(set, n as usize) {
            return Err(refused(OUT_OF_RANGE, 0, 3));
        }
        set = with_console(set, n);
    }
    Ok(set)
}

fn with_console(set: u64, n: u64) -> u64
    requires low { 1 ≤ n }
    requires high { n ≤ 63 }
    ensures set { result ≡ bit_or set (2 ^ n) }
    ensures zero { is_among result 0 ≡ is_among set 0 }
{
    set | bit(n)
}

fn bit(n: u64) -> u64
    requires { n ≤ 63 }
    ensures { result ≡ 2 ^ n }
{
    1 << n
}

// The console in front (default: the lowest one).
fn front(consoles: u64, value: Option<&Value>) -> Result<ConsoleNo, TableError>
    ensures front { Gives (λ n. n) result
        (front_of consoles (option_map (λ v. view v.now) value.entry)) }
    ensures among { IfOk result (λ n. is_among consoles n ≡ true) }
{
    let Some(value) = value else {
        return match lowest(consoles) {
            Some(n) => Ok(n),
            None => Err(refused(OUT_OF_RANGE, 0, 4)),
        };
    };
    let Some(number) = value.as_integer() else {
        return Err(refused(WRONG_KIND, 0, 4));
    };
    let n = within(number, 1, 63, OUT_OF_RANGE, 0, 4)?;
    if !is_among(consoles, n as usize) {
        return Err(refused(OUT_OF_RANGE, 0, 4));
    }
    match ConsoleNo::new(n as u16) {
        Some(front) => Ok(front),
        None => Err(refused(OUT_OF_RANGE, 0, 4)),
    }
}

// The lowest console of the set.
fn lowest(consoles: u64) -> Option<ConsoleNo>
    ensures lowest { result ≡ lowest_from consoles 1 }
    ensures among { IfSome result (λ n. is_among consoles n ≡ true) }
{
    for n in 1..64 {
        if is_among(consoles, n) {
            return ConsoleNo::new(n as u16);
        }
    }
    None
}
