//! The colour after a 38 or a 48 in SGR.
ghost use Rattle.std.specs.Prelude.{◌≡◌, ◌≤◌, length, min};
ghost use Rattle.vt_sgr.specs.Sgr.{colour_len, colour_of};

use vt_cells::rgb_of;

/// The colour that the parameters after a 38 or 48 give: 5 and an index, or 2, red, green and blue.
#[inline(always)]
pub(crate) fn colour_of(rest: &[u16]) -> Option<(u8, u8, u8)>
    ensures { result ≡ colour_of rest.now }
{
    match rest {
        [5, i, ..] if *i <= 255 => Some(rgb_of(*i as u8)),
        [2, r, g, b, ..] => Some((part(*r), part(*g), part(*b))),
        _ => None,
    }
}

/// The number of parameters that the colour takes. An incomplete one takes all that are left: it ends the
/// SGR. This project's own.
pub(crate) fn colour_len(rest: &[u16]) -> usize
    ensures count { result ≡ colour_len rest.now }
    ensures within { result ≤ length rest.now }
{
    match rest {
        [5, _, ..] => 2,
        [2, _, _, _, ..] => 4,
        _ => rest.len(),
    }
}

pub(crate) fn part(value: u16) -> u8
    ensures { result ≡ min 255 value }
{
    value.min(255) as u8
}
