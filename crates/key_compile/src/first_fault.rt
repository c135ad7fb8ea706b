//! The first fault of the lines.
ghost use Rattle.std.specs.Prelude.{◌≡◌, ◌≤◌, ◌+◌, nat_lt, cond, Some, None, false, IfNone};
ghost use Rattle.key_compile.specs.Faults.{at_line, fault_of, first_fault, is_key, pairs_fault, pairs_of_line};
ghost use Rattle.key_text.specs.FaultKinds.{LATE_KEYMAPS, WRONG_COUNT};

use crate::usual::USUAL_PAIR_COUNT;
use key_syms::PAIR_COUNT;
use key_text::fault_kind::{LATE_KEYMAPS, TOO_MANY_PAIRS, WRONG_COUNT};
use key_text::{KeyFault, Line, LineKind};

/// The first fault of the lines, if there are n tables in the union.
pub(crate) fn first_fault(lines: &[Line], n: usize) -> Option<KeyFault>
    ensures { result ≡ first_fault n false 0 lines.now }
{
    let mut seen = false;
    let mut count = 0;
    for i in 0..lines.len() {
        let line = &lines[i];
        match fault_of(n, seen, count, line) {
            Some(kind) => return Some(at_line(line, kind)),
            None => {
                seen = seen || is_key(line);
                count += pairs_of_line(line);
                continue;
            }
        }
    }
    None
}

fn at_line(line: &Line, kind: u16) -> KeyFault
    ensures { result ≡ at_line line.now kind }
{
    KeyFault {
        kind,
        line: line.line,
        column: line.column,
    }
}

// The kind of a line's fault.
fn fault_of(n: usize, seen: bool, count: usize, line: &Line) -> Option<u16>
    requires { count ≤ 256 }
    ensures value { result ≡ fault_of n seen count line.now.meaning }
    ensures few { IfNone result (count + pairs_of_line line.now.meaning ≤ 256) }
{
    match &line.kind {
        LineKind::Keymaps(_) => late(seen),
        LineKind::Keys { syms, .. } => wrong_count(n, syms.as_slice().len()),
        LineKind::Compose(_) => pairs_fault(count + 1),
        LineKind::UsualPairs => pairs_fault(count + USUAL_PAIR_COUNT),
        _ => None,
    }
}

fn late(seen: bool) -> Option<u16>
    ensures { result ≡ cond seen (Some LATE_KEYMAPS) None }
{
    if seen { Some(LATE_KEYMAPS) } else { None }
}

fn wrong_count(n: usize, len: usize) -> Option<u16>
    ensures { result ≡ cond (nat_lt n len) (Some WRONG_COUNT) None }
{
    if n < len { Some(WRONG_COUNT) } else { None }
}

fn pairs_fault(count: usize) -> Option<u16>
    ensures value { result ≡ pairs_fault count }
    ensures few { IfNone result (count ≤ 256) }
{
    if count > PAIR_COUNT {
        Some(TOO_MANY_PAIRS)
    } else {
        None
    }
}

fn is_key(line: &Line) -> bool
    ensures { result ≡ is_key line.now.meaning }
{
    matches!(&line.kind, LineKind::Keys { .. } | LineKind::One { .. })
}

fn pairs_of_line(line: &Line) -> usize
    ensures value { result ≡ pairs_of_line line.now.meaning }
    ensures few { result ≤ 66 }
{
    match &line.kind {
        LineKind::Compose(_) => 1,
        LineKind::UsualPairs => USUAL_PAIR_COUNT,
        _ => 0,
    }
}
