//! The rows of a screen that an event may change.
ghost use Rattle.std.specs.Prelude.{◌≡◌, IfSome};
ghost use Rattle.vt_review.specs.Screens.{EventChanges};
ghost use Rattle.vt_screen.specs.ChangedRows.{ChangesAtMost};

use vt_events::Event;
use vt_grid::Grid;
use vt_screen::Emu;

/// The first and the last row if any row may change.
const ALL_ROWS: (u8, u8) = (0, u8::MAX);

/// The first and the last row if no row changes: there is none between them.
const NO_ROW: (u8, u8) = (u8::MAX, 0);

/// The first and the last row that an event may change on the screen `old`, which it leaves as `new`. Opening
/// or activating a console changes no screen that is there.
pub(crate) fn changed_rows(old: &Emu, new: &Grid, event: &Event) -> (u8, u8)
    ensures { EventChanges result.0 result.1 old.now new.now.rows event.now }
{
    match event {
        Event::OpenCon(_) | Event::Activate(_, _) => NO_ROW,
        Event::Write(_, bytes) => match written_rows(old, new, bytes.as_slice()) {
            Some(rows) => rows,
            None => ALL_ROWS,
        },
        _ => ALL_ROWS,
    }
}

// The first and the last row that a write of these bytes may change on the screen `old`, if it is known.
fn written_rows(old: &Emu, new: &Grid, bytes: &[u8]) -> Option<(u8, u8)>
    ensures { IfSome result (λ rows. (old.now.state.grid.rows ≡ new.now.rows)
        × ChangesAtMost rows.0 rows.1 old.now bytes.now) }
{
    if old.grid().size().rows != new.size().rows {
        return None;
    }
    old.changed_rows(bytes)
}
