//! The kinds of bytes that units are made of.
ghost use Rattle.std.specs.Prelude.{◌≡◌};
ghost use Rattle.vt_chars.specs.Utf8.{within};
ghost use Rattle.vt_units.specs.Bytes.{acts, decodes, ends_string, interrupts, is_body, is_control, is_csi, is_digit, is_hex, is_mid, is_never_shown, is_printable, is_swallowed, opens_string};

use crate::Mode;

pub(crate) fn is_within(low: u8, high: u8, b: u8) -> bool
    ensures { result ≡ within low high b }
{
    low <= b && b <= high
}

pub(crate) fn is_mid(b: u8) -> bool
    ensures { result ≡ is_mid b }
{
    is_within(0x20, 0x2F, b)
}

pub(crate) fn is_body(b: u8) -> bool
    ensures { result ≡ is_body b }
{
    is_within(0x20, 0x3F, b)
}

pub(crate) fn is_digit(b: u8) -> bool
    ensures { result ≡ is_digit b }
{
    is_within(b'0', b'9', b)
}

pub(crate) fn is_hex(b: u8) -> bool
    ensures { result ≡ is_hex b }
{
    is_digit(b) || is_within(b'A', b'F', b) || is_within(b'a', b'f', b)
}

pub(crate) fn opens_string(b: u8) -> bool
    ensures { result ≡ opens_string b }
{
    matches!(b, b'P' | b'X' | b'^' | b'_')
}

pub(crate) fn is_swallowed(b: u8) -> bool
    ensures { result ≡ is_swallowed b }
{
    !matches!(b, 0x07 | 0x18 | 0x1A | 0x1B)
}

pub(crate) fn decodes(mode: Mode) -> bool
    ensures { result ≡ decodes mode }
{
    mode.utf8 && !mode.display
}

pub(crate) fn is_csi(mode: Mode, b: u8) -> bool
    ensures { result ≡ is_csi mode b }
{
    b == 0x9B && (mode.display || !mode.utf8)
}

pub(crate) fn is_control(mode: Mode, b: u8) -> bool
    ensures { result ≡ is_control mode b }
{
    b < 0x20 && (!mode.display || is_never_shown(b))
}

fn is_never_shown(b: u8) -> bool
    ensures { result ≡ is_never_shown b }
{
    matches!(b, 0x00 | 0x08 | 0x0A | 0x0C..=0x0F)
}

pub(crate) fn interrupts(mode: Mode, b: u8) -> bool
    ensures { result ≡ interrupts mode b }
{
    b == 0x1B || (b == 0x9B && !mode.utf8)
}

pub(crate) fn acts(b: u8) -> bool
    ensures { result ≡ acts b }
{
    b < 0x20 && !matches!(b, 0x18 | 0x1A | 0x1B)
}

pub(crate) fn is_printable(b: u8) -> bool
    ensures { result ≡ is_printable b }
{
    is_within(0x20, 0x7E, b)
}
