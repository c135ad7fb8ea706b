ghost use Rattle.std.specs.Prelude.{◌≡◌, MatchOption, None, Some, unwrap_or};
ghost use Rattle.machine_c.specs.Shown.{c_console};
ghost use Rattle.vt_world.specs.Terminals.{bells_of, terminal_at};

use vt_base::{CallerNo, ConsoleNo};
use vt_screen::Emu;
use vt_world::World;

/// `struct vt_console`: a console.
#[repr(C)]
#[derive(Clone, Copy, Debug, PartialEq)]
pub(crate) struct VtConsole {
    /// The BELs so far.
    pub bells: u32,
    /// The bytes in its input queue.
    pub queued: u32,
    pub rows: u16,
    pub cols: u16,
    /// The cursor's row, from 0.
    pub y: u16,
    /// The cursor's column, from 0.
    pub x: u16,
    /// The process that handles its switches, or 0.
    pub owner: u8,
    /// 1 if it is in KD_GRAPHICS.
    pub graphics: u8,
    /// DECTECM: 1 if its cursor is shown.
    pub visible: u8,
    /// 0.
    pub spare: [u8; 13],
}

impl VtConsole {
    /// The console, if it is allocated.
    pub(crate) fn of(world: &World, c: ConsoleNo) -> Option<VtConsole>
        ensures { MatchOption (terminal_at world.now.terminals c) (result ≡ None)
            (λ t. result ≡ Some (c_console world.now c t)) }
    {
        let emu = world.screen(c)?;
        Some(VtConsole::with_screen(world, c, emu))
    }

    fn with_screen(world: &World, c: ConsoleNo, emu: &Emu) -> VtConsole
        ensures { result ≡ c_console world.now c
            (record { emu = emu.now; bells = bells_of (terminal_at world.now.terminals c) }) }
    {
        let size = emu.grid().size();
        let state = emu.state();
        VtConsole {
            bells: world.bells(c),
            queued: world.queue(c).len() as u32,
            rows: u16::from(size.rows),
            cols: u16::from(size.cols),
            y: u16::from(state.y),
            x: u16::from(state.x),
            owner: number_of(world.owner(c)),
            graphics: u8::from(world.graphics(c)),
            visible: u8::from(state.visible),
            spare: [0; 13],
        }
    }
}

// The caller's number, or 0 if there is none.
fn number_of(caller: Option<CallerNo>) -> u8
    ensures { result ≡ unwrap_or caller 0 }
{
    match caller {
        Some(p) => p.get() as u8,
        None => 0,
    }
}
