//! A palette as bytes.
ghost use Rattle.std.specs.Prelude.{◌≡◌, ◌+◌, ◌*◌, ◌<◌, ◌≤◌, ◌++◌, length};
ghost use Rattle.call_bytes.specs.Colours.{colour_at, colours_in, colours_text};

use vt_base::Bytes;
use vt_cells::Palette;

/// The colours of a palette.
const COLOURS: u8 = 16;

/// The bytes of a palette.
const COLOURS_BYTES: usize = 48;

/// Appends the colours of a palette. They must fit the room.
pub fn add_colours(p: &Palette, out: &mut Bytes)
    requires { 48 ≤ out.old.room }
    ensures bytes { out.new.bytes ≡ out.old.bytes ++ colours_text p.now }
    ensures room { out.new.room + 48 ≡ out.old.room }
    ensures whole { out.new.room + length out.new.bytes ≡ out.old.room + length out.old.bytes }
{
    for (red, green, blue) in p.as_slice() {
        out.append(&[*red, *green, *blue]);
    }
}

/// The palette of these bytes, if they are 16 colours.
pub fn read_colours(b: &[u8]) -> Option<Palette>
    ensures { result ≡ colours_in b.now }
{
    if b.len() != COLOURS_BYTES {
        return None;
    }
    let mut palette = Palette::start();
    for n in 0..COLOURS {
        palette.set(n, colour_at(b, usize::from(n)));
    }
    Some(palette)
}

fn colour_at(b: &[u8], k: usize) -> (u8, u8, u8)
    requires { 3 * k + 2 < length b.now }
    ensures { result ≡ colour_at b.now k }
{
    let at = 3 * k;
    (b[at], b[at + 1], b[at + 2])
}
