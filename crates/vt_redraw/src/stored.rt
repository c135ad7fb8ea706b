//! The invariant of each stored screen. These calls do nothing; they are made for their clauses.
ghost use Rattle.std.specs.Prelude.{◌≡◌, ◌<◌, length};
ghost use Rattle.vt_cells.specs.Colours.{AreBytes};
ghost use Rattle.vt_redraw.specs.Redraw.{IsStored};

use vt_cells::Look;
use vt_screen::{Emu, Stops};
use vt_sgr::Pen;

/// Each screen is stored.
pub(crate) fn stays_stored(emu: &Emu)
    ensures { IsStored emu.now.state }
{
    emu.grid().stays_full();
    stops_stay(emu);
    colours_stay(emu);
    look_stays(emu);
}

fn stops_stay(emu: &Emu)
    ensures { length emu.now.state.state.stops ≡ 255 }
{
    count_stays(&emu.state().stops);
}

fn colours_stay(emu: &Emu)
    ensures many { length emu.now.state.state.palette ≡ 16 }
    ensures parts { AreBytes emu.now.state.state.palette }
{
    // The clauses of `as_slice` are the facts.
    let _ = emu.state().palette.as_slice();
}

fn look_stays(emu: &Emu)
    ensures underline { emu.now.state.state.pen.look.ul < 16 }
    ensures dim { emu.now.state.state.pen.look.dim < 16 }
{
    pen_stays(&emu.state().pen);
}

fn count_stays(stops: &Stops)
    ensures { length stops.now ≡ 255 }
{
    // The bounds of `has` are those of the stops.
    let _ = stops.has(0);
}

fn pen_stays(p: &Pen)
    ensures underline { p.now.look.ul < 16 }
    ensures dim { p.now.look.dim < 16 }
{
    tints_stay(p.look);
}

fn tints_stay(look: Look)
    ensures underline { look.ul < 16 }
    ensures dim { look.dim < 16 }
{
    let _ = look;
}
