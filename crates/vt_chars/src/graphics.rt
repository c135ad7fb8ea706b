//! `graphic`: the characters of the VT100 graphics table.
ghost use Rattle.std.specs.Prelude.{◌≡◌};
ghost use Rattle.vt_chars.specs.CharMap.{graphic_of};

/// A byte's character in the VT100 graphics set (console_codes(4), "Character sets").
pub(crate) fn graphic(b: u8) -> u32
    ensures { result ≡ graphic_of b }
{
    match b {
        b'_' => 0x00A0,
        b'`' => 0x25C6,
        b'a' => 0x2592,
        b'b' => 0x2409,
        b'c' => 0x240C,
        b'd' => 0x240D,
        b'e' => 0x240A,
        b'f' => 0x00B0,
        b'g' => 0x00B1,
        b'h' => 0x2424,
        b'i' => 0x240B,
        b'j' => 0x2518,
        b'k' => 0x2510,
        b'l' => 0x250C,
        b'm' => 0x2514,
        b'n' => 0x253C,
        b'o' => 0x23BA,
        b'p' => 0x23BB,
        b'q' => 0x2500,
        b'r' => 0x23BC,
        b's' => 0x23BD,
        b't' => 0x251C,
        b'u' => 0x2524,
        b'v' => 0x2534,
        b'w' => 0x252C,
        b'x' => 0x2502,
        b'y' => 0x2264,
        b'z' => 0x2265,
        b'{' => 0x03C0,
        b'|' => 0x2260,
        b'}' => 0x00A3,
        b'~' => 0x00B7,
        _ => u32::from(b),
    }
}
