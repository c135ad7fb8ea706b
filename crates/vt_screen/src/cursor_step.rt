//! The cursor after a byte that scrolls nothing.
ghost use Rattle.std.specs.Prelude.{◌≡◌, IfSome, is_some};
ghost use Rattle.vt_screen.specs.ChangedRows.{Moves, after_cell, has_next_cursor};

/// The cursor's column and row, and whether a wrap is pending.
#[derive(Clone, Copy)]
pub(crate) struct CursorState {
    pub x: u8,
    pub y: u8,
    pub wrap: bool,
}

/// The cursor after a printable character of ASCII, BEL, BS, LF or CR. It isn't known after any other byte, nor
/// if the region scrolls.
pub(crate) fn next_cursor(cols: u8, bottom: u8, at: CursorState, b: u8) -> Option<CursorState>
    ensures moves { IfSome result (Moves cols bottom b at) }
    ensures known { is_some result ≡ has_next_cursor bottom at b }
{
    let is_above = at.y < bottom;
    match b {
        b' '..=b'~' if !at.wrap => Some(after_cell(cols, at)),
        b' '..=b'~' if is_above => Some(after_cell(
            cols,
            CursorState {
                x: 0,
                y: at.y + 1,
                wrap: false,
            },
        )),
        0x07 => Some(at),
        0x08 => Some(CursorState {
            x: at.x.saturating_sub(1),
            y: at.y,
            wrap: false,
        }),
        b'\n' if is_above => Some(CursorState {
            x: at.x,
            y: at.y + 1,
            wrap: false,
        }),
        b'\r' => Some(CursorState {
            x: 0,
            y: at.y,
            wrap: false,
        }),
        _ => None,
    }
}

fn after_cell(cols: u8, at: CursorState) -> CursorState
    ensures { result ≡ after_cell cols at }
{
    let has_next = at.x < cols.saturating_sub(1);
    CursorState {
        x: if has_next { at.x + 1 } else { at.x },
        y: at.y,
        wrap: !has_next,
    }
}
