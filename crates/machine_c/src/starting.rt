//! The start of a machine, as C gives it.
ghost use Rattle.std.specs.Prelude.{◌≡◌, ◌≤◌, IfNone, IfSome, length, map};
ghost use Rattle.std.specs.List.{All};
ghost use Rattle.machine_c.specs.Started.{IsConfigOf, IsFront, IsInRange, IsSeat, rights_of};

use crate::vt_seat::VtSeat;
use crate::vt_start::VtStart;
use vt_base::{ConsoleNo, PROCESSES, Size, is_among};
use vt_procs::{Config, ProcList};

/// The most entries of a journal.
const MOST_EVENTS: u32 = 1_000_000;

/// The most bytes of a journal.
const MOST_BYTES: u64 = 1_073_741_824;

/// The start as the machine takes it, if every number is in its range.
pub(crate) fn config_of(start: &VtStart, seats: &[VtSeat]) -> Option<Config>
    ensures some { IfSome result (λ c. IsInRange start.now seats.now × IsConfigOf start.now seats.now c) }
    ensures none { IfNone result (¬ IsInRange start.now seats.now) }
{
    let size = size_of(start.rows, start.cols)?;
    let front = front_of(start.consoles, start.front)?;
    if start.keyboards < 1 || start.keyboards > 4 {
        return None;
    }
    if start.events > MOST_EVENTS || start.bytes > MOST_BYTES || start.spare != [0; 22] {
        return None;
    }
    let procs = procs_of(seats)?;
    Some(Config {
        size,
        consoles: start.consoles,
        front,
        keyboards: start.keyboards,
        procs,
    })
}

// The numbers as a size, if both are 1 to 255.
fn size_of(rows: u16, cols: u16) -> Option<Size>
    ensures some { IfSome result (λ size. (size.rows ≡ rows) × (size.cols ≡ cols)
        × ((1 ≤ rows) × (rows ≤ 255)) × ((1 ≤ cols) × (cols ≤ 255))) }
    ensures none { IfNone result (¬ (((1 ≤ rows) × (rows ≤ 255)) × ((1 ≤ cols) × (cols ≤ 255)))) }
{
    if rows < 1 || 255 < rows || cols < 1 || 255 < cols {
        return None;
    }
    Some(Size {
        rows: rows as u8,
        cols: cols as u8,
    })
}

// The console in front, if it is one of the consoles, and console 0 isn't.
fn front_of(consoles: u64, front: u8) -> Option<ConsoleNo>
    ensures some { IfSome result (λ c. (c ≡ front) × IsFront consoles front) }
    ensures none { IfNone result (¬ IsFront consoles front) }
{
    if front < 1 || 63 < front || is_among(consoles, 0) || !is_among(consoles, usize::from(front)) {
        return None;
    }
    Some(ConsoleNo::numbered(u16::from(front)))
}

// The processes as the machine has them, if there are few enough and every number is in its range.
fn procs_of(seats: &[VtSeat]) -> Option<ProcList>
    ensures some { IfSome result (λ procs. (procs ≡ map rights_of seats.now)
        × ((length seats.now ≤ 64) × All IsSeat seats.now)) }
    ensures none { IfNone result (¬ ((length seats.now ≤ 64) × All IsSeat seats.now)) }
{
    if seats.len() > PROCESSES {
        return None;
    }
    let mut procs = ProcList::new();
    for i in 0..seats.len() {
        match seats[i].rights() {
            None => return None,
            Some(rights) => procs.push(rights),
        }
    }
    Some(procs)
}
