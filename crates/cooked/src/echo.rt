//! The echo of a byte.
ghost use Rattle.std.specs.Prelude.{◌≡◌, ◌≤◌, [], ◌∷◌, ◌++◌, length};
ghost use Rattle.cooked.specs.Echo.{caret, columns_of, columns_shown, newline, data_echo, erase_echo};

use crate::echo_bytes::EchoBytes;
use crate::termios::{Termios, is_control};
use vt_cells::columns;
use vt_chars::{Decoded, decode_all};

/// BEL: the byte has no effect.
pub(crate) const BELL: u8 = 0x07;

pub(crate) fn newline(t: &Termios) -> EchoBytes
    ensures { result ≡ newline t.now }
{
    let mut echo = EchoBytes::new();
    if t.onlcr {
        echo.push(0x0D);
    }
    echo.push(0x0A);
    echo
}

/// A control character is shown as `^` and a sign.
pub(crate) fn caret(b: u8) -> EchoBytes
    ensures { result ≡ caret b }
{
    let mut echo = EchoBytes::new();
    echo.push(b'^');
    echo.push(b ^ 0x40);
    echo
}

/// One byte as it is.
pub(crate) fn single(b: u8) -> EchoBytes
    ensures { result ≡ b ∷ [] }
{
    let mut echo = EchoBytes::new();
    echo.push(b);
    echo
}

/// The shown form of data.
pub(crate) fn data_echo(t: &Termios, b: u8) -> EchoBytes
    ensures { result ≡ data_echo t.now b }
{
    if b == 0x0A {
        newline(t)
    } else if is_control(b) {
        caret(b)
    } else {
        single(b)
    }
}

/// Goes back over columns and wipes them.
pub(crate) fn erase_echo(columns: u8) -> EchoBytes
    requires { columns ≤ 2 }
    ensures { result ≡ erase_echo columns }
{
    let mut echo = EchoBytes::new();
    if 1 <= columns {
        wipe_one(&mut echo);
    }
    if 2 <= columns {
        wipe_one(&mut echo);
    }
    echo
}

fn wipe_one(echo: &mut EchoBytes)
    requires { length echo.old ≤ 3 }
    ensures { echo.new ≡ echo.old ++ erase_echo 1 }
{
    echo.push(0x08);
    echo.push(0x20);
    echo.push(0x08);
}

/// The columns that an erase of this character takes.
pub(crate) fn columns_of(character: &[u8]) -> u8
    ensures value { result ≡ columns_of character.now }
    ensures bound { result ≤ 2 }
{
    if character.is_empty() {
        return 0;
    }
    match decode_all(character) {
        Decoded::Character(code) => columns_shown(code),
        Decoded::Unfinished => 1,
        Decoded::Malformed => 1,
    }
}

fn columns_shown(code: u32) -> u8
    ensures value { result ≡ columns_shown code }
    ensures bound { result ≤ 2 }
{
    if code < 0x20 || code == 0x7F {
        2
    } else {
        columns(code)
    }
}
