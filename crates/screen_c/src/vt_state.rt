ghost use Rattle.std.specs.Prelude.{◌≡◌};
ghost use Rattle.screen_c.specs.Shown.{c_modes, c_state};

use c_calls::VtModes;
use vt_screen::Emu;

/// `struct vt_state`: the size, the cursor and the modes, each mode 1 or 0.
#[repr(C)]
#[derive(Clone, Copy, Drop, PartialEq)]
pub struct VtState {
    pub rows: u16,
    pub cols: u16,
    /// The cursor's row, from 0.
    pub y: u16,
    /// The cursor's column, from 0.
    pub x: u16,
    /// DECTECM: the cursor is shown.
    pub visible: u8,
    /// DECSCNM: the screen is shown reversed.
    pub reverse: u8,
    /// DECOM: rows are counted from the region's first one.
    pub origin: u8,
    /// DECAWM: a character past the last column goes to the next row.
    pub autowrap: u8,
    /// IRM: a printed character moves the rest of its row to the right.
    pub insert: u8,
    /// DECCRM: control characters are shown.
    pub controls: u8,
    /// The modes that keys depend on.
    pub modes: VtModes,
    /// 0.
    pub spare: [u8; 10],
}

impl VtState {
    pub(crate) fn of(emu: &Emu) -> VtState
        ensures { result ≡ c_state emu.now.state }
    {
        let size = emu.grid().size();
        let state = emu.state();
        VtState {
            rows: u16::from(size.rows),
            cols: u16::from(size.cols),
            y: u16::from(state.y),
            x: u16::from(state.x),
            visible: u8::from(state.visible),
            reverse: u8::from(state.reverse),
            origin: u8::from(state.origin),
            autowrap: u8::from(state.autowrap),
            insert: u8::from(state.insert),
            controls: u8::from(state.pen.display),
            modes: modes_of(emu),
            spare: [0; 10],
        }
    }
}

fn modes_of(emu: &Emu) -> VtModes
    ensures { result ≡ c_modes emu.now.state }
{
    let state = emu.state();
    VtModes {
        cursor_keys: u8::from(state.cursor),
        keypad: u8::from(state.keypad),
        repeat: u8::from(state.repeat),
        newline_mode: u8::from(state.newline),
        spare: [0; 4],
    }
}
