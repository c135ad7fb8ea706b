//! The turns of a session, read from its table.
ghost use Rattle.std.specs.Prelude.{◌≡◌, ◌≤◌, true, length, option_map, IfOk};
ghost use Rattle.std.specs.List.{All};
ghost use Rattle.table_fields.specs.Checked.{Gives, GivesBy, collect, fault};
ghost use Rattle.toml.specs.View.{view};
ghost use Rattle.session_text.specs.Turns.{AreTurns, is_there, most_turns, turn_in, turns_of};

use std::alloc::Global;
use table_fields::fault_code::{TOO_MANY, TURN};
use table_fields::{TableError, integers, refused};
use toml::Value;
use vt_base::Bytes;

/// The most turns. This project's own.
const MOST_TURNS: usize = 1_000_000;

/// The turns, each the number of one of so many processes or keyboards.
pub(crate) fn turns(
    alloc: Global,
    processes: usize,
    keyboards: u8,
    value: Option<&Value>,
) -> Result<Bytes, TableError>
    requires { keyboards ≤ 4 }
    ensures turns { GivesBy (AreTurns processes) result
        (turns_of processes keyboards (option_map (λ v. view v.now) value.entry)) }
    ensures each { IfOk result (λ b. All (λ t. is_there processes keyboards t ≡ true) b.bytes) }
{
    let numbers = integers(alloc, value, 0, 10)?;
    if numbers.len() > MOST_TURNS {
        return Err(refused(TOO_MANY, 0, 10));
    }
    turn_bytes(alloc, processes as u64, keyboards, numbers.as_slice())
}

// A turn past 67 is stored as 67: it needs too many processes, a fault that is found later.
fn turn_bytes(
    alloc: Global,
    processes: u64,
    keyboards: u8,
    numbers: &[i64],
) -> Result<Bytes, TableError>
    requires some { keyboards ≤ 4 }
    requires many { length numbers.now ≤ most_turns }
    ensures each { IfOk result (λ b. All (λ t. is_there processes keyboards t ≡ true) b.bytes) }
    ensures turns { GivesBy (AreTurns processes) result
        (collect (λ n z. turn_in processes keyboards (fault 28 0 n) z) 1 numbers.now) }
{
    let mut bytes = Bytes::with_room(alloc, numbers.len())?;
    for (i, number) in numbers.iter().enumerate() {
        let turn = turn(*number, processes, keyboards, i as u32 + 1)?;
        bytes.append(&[turn.min(67) as u8]);
    }
    Ok(bytes)
}

// The turn with this number.
fn turn(number: i64, processes: u64, keyboards: u8, item: u32) -> Result<u64, TableError>
    ensures turn { Gives (λ t. t) result (turn_in processes keyboards (fault 28 0 item) number) }
    ensures there { IfOk result (λ t. is_there processes keyboards t ≡ true) }
{
    if number < 0 {
        return Err(refused(TURN, 0, item));
    }
    let turn = number as u64;
    if turn <= processes || (64 < turn && turn < 64 + u64::from(keyboards)) {
        return Ok(turn);
    }
    Err(refused(TURN, 0, item))
}
