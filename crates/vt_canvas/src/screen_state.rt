ghost use Rattle.std.specs.Prelude.{◌≡◌, ◌<◌};
ghost use Rattle.vt_canvas.specs.Screen.{start_attr, start_pen, start_saved, start_state, start_user};

use crate::{Saved, Stops};
use vt_cells::{Attr, Intensity, Look, Palette};
use vt_chars::CharMap;
use vt_sgr::Pen;

/// The state of a screen, without its cells (console_codes(4)).
#[derive(Drop)]
pub struct ScreenState {
    /// The cursor's column, from 0.
    pub x: u8,
    /// The cursor's row, from 0.
    pub y: u8,
    /// Whether a wrap is pending: the last column was printed, and the next character goes to the row below.
    pub wrap: bool,
    /// The first row of the scrolling region.
    pub top: u8,
    /// The last row of the scrolling region.
    pub bottom: u8,
    /// The pen, with the flags of the byte tables.
    pub pen: Pen,
    /// The table that is G0, by its number in [`CharMap`].
    pub g0: u8,
    /// The table that is G1.
    pub g1: u8,
    /// The table in use: 0 for G0, 1 for G1.
    pub shift: u8,
    /// Whether text is UTF-8.
    pub utf8: bool,
    pub stops: Stops,
    /// IRM: a printed character moves the rest of its row to the right.
    pub insert: bool,
    /// LNM: a line feed goes to the first column.
    pub newline: bool,
    /// DECCKM: cursor keys send their application form.
    pub cursor: bool,
    /// DECSCNM: the whole screen is shown reversed.
    pub reverse: bool,
    /// DECOM: rows are counted from the region's first one.
    pub origin: bool,
    /// DECAWM: a character past the last column goes to the next row.
    pub autowrap: bool,
    /// DECARM: a key that is held repeats.
    pub repeat: bool,
    /// DECTECM: the cursor is shown.
    pub visible: bool,
    /// DECPAM: the keypad sends its application form.
    pub keypad: bool,
    pub saved: Saved,
    pub palette: Palette,
    /// The characters of bytes, with the user's table.
    pub map: CharMap,
}

impl ScreenState {
    /// The state of a new screen with this number of rows. This project's own.
    pub(crate) fn start(rows: u8) -> ScreenState
        requires { 0 < rows }
        ensures { result ≡ start_state rows }
    {
        ScreenState {
            x: 0,
            y: 0,
            wrap: false,
            top: 0,
            bottom: rows - 1,
            pen: start_pen(),
            g0: 0,
            g1: 1,
            shift: 0,
            utf8: true,
            stops: Stops::start(),
            insert: false,
            newline: false,
            cursor: false,
            reverse: false,
            origin: false,
            autowrap: true,
            repeat: true,
            visible: true,
            keypad: false,
            saved: start_saved(),
            palette: Palette::start(),
            map: start_map(),
        }
    }

    /// Becomes the state of a new screen with this number of rows, except the pen, the palette and the
    /// user's table.
    pub(crate) fn restart(&mut self, rows: u8)
        requires { 0 < rows }
        ensures { self.new
            ≡ record (start_state rows) {
              pen = self.old.pen;
              palette = self.old.palette;
              map = self.old.map;
            } }
    {
        self.x = 0;
        self.y = 0;
        self.wrap = false;
        self.top = 0;
        self.bottom = rows - 1;
        self.g0 = 0;
        self.g1 = 1;
        self.shift = 0;
        self.utf8 = true;
        self.stops = Stops::start();
        self.insert = false;
        self.newline = false;
        self.cursor = false;
        self.reverse = false;
        self.origin = false;
        self.autowrap = true;
        self.repeat = true;
        self.visible = true;
        self.keypad = false;
        self.saved = start_saved();
    }
}

/// The attributes at the start: white on black, nothing on. This project's own.
pub(crate) fn start_attr() -> Attr
    ensures { result ≡ start_attr }
{
    Attr {
        fg: 7,
        bg: 0,
        intensity: Intensity::Normal,
        italic: false,
        underline: false,
        blink: false,
        reverse: false,
    }
}

fn start_pen() -> Pen
    ensures { result ≡ start_pen }
{
    Pen {
        attr: start_attr(),
        look: Look { ul: 15, dim: 8 },
        def_fg: 7,
        def_bg: 0,
        alt: false,
        display: false,
        toggle: false,
    }
}

fn start_saved() -> Saved
    ensures { result ≡ start_saved }
{
    Saved {
        x: 0,
        y: 0,
        attr: start_attr(),
        g0: 0,
        g1: 1,
        shift: 0,
    }
}

fn start_map() -> CharMap
    ensures { result ≡ start_user }
{
    CharMap::start()
}
