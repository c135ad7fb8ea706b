//! Code points, added to a text.
ghost use Rattle.std.specs.Prelude.{◌≡◌, ◌<◌, ◌++◌, OnOk};
ghost use Rattle.key_syms.specs.Names.{hex4, hex_digit};
ghost use Rattle.key_dump.specs.Dump.{code_point};

use std::alloc::Global;
use vt_base::{Bytes, NoMemory};

/// Adds the code point of a character.
pub(crate) fn add_code_point(alloc: Global, text: &mut Bytes, code: u16) -> Result<(), NoMemory>
    ensures { OnOk result (text.new.bytes ≡ text.old.bytes ++ code_point code) }
{
    text.add(
        alloc,
        &[
            b'U',
            b'+',
            hex_digit(code / 4096 % 16),
            hex_digit(code / 256 % 16),
            hex_digit(code / 16 % 16),
            hex_digit(code % 16),
        ],
    )
}

// A digit from 0 to 15, in upper case.
fn hex_digit(d: u16) -> u8
    requires { d < 16 }
    ensures { result ≡ hex_digit d }
{
    let d = d as u8;
    if d < 10 { b'0' + d } else { b'A' + (d - 10) }
}
