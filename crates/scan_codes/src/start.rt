//! The keycodes of the scan numbers at the start.
ghost use Rattle.std.specs.Prelude.{◌≡◌};
ghost use Rattle.scan_codes.specs.Start.{start_code};

/// The keycode that a scan number has at the start; 0 is none.
#[tactic(auto, unfolding(crate::specs::Start::start_code))]
pub(crate) fn start_code(scan: u8) -> u8
    ensures { result ≡ start_code scan }
{
    match scan {
        1..=88 => scan,
        0x9C => 96,
        0x9D => 97,
        0xB5 => 98,
        0xB7 => 99,
        0xB8 => 100,
        0xC7 => 102,
        0xC8 => 103,
        0xC9 => 104,
        0xCB => 105,
        0xCD => 106,
        0xCF => 107,
        0xD0 => 108,
        0xD1 => 109,
        0xD2 => 110,
        0xD3 => 111,
        0xDB => 125,
        0xDC => 126,
        0xDD => 127,
        _ => 0,
    }
}
