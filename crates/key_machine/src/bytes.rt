//! The bytes that keys send.
ghost use Rattle.std.specs.Prelude.{◌≡◌, ◌≤◌, ◌+◌, ◌++◌, length};
ghost use Rattle.key_machine.specs.Bytes.{character_bytes, characters_bytes, code_bytes, meta_bytes, return_bytes};
ghost use Rattle.key_machine.specs.Codes.{codes_of};
ghost use Rattle.key_machine.specs.ShortOuts.{short_of};

use crate::accents::TypedCodes;
use crate::{FewBytes, ShortOut, meta, mode};

/// The bytes as output, if there are any.
pub(crate) fn sent(bytes: FewBytes) -> ShortOut
    ensures { result ≡ short_of bytes }
{
    if bytes.as_slice().is_empty() {
        return ShortOut::Nothing;
    }
    ShortOut::Bytes(bytes)
}

/// The bytes of characters in a mode.
pub(crate) fn characters_bytes(mode: u8, codes: TypedCodes) -> FewBytes
    ensures { result ≡ characters_bytes mode (codes_of codes) }
{
    let mut bytes = FewBytes::new();
    match codes {
        TypedCodes::Zero => {}
        TypedCodes::One(code) => add(&mut bytes, mode, code),
        TypedCodes::Two(first, second) => {
            add(&mut bytes, mode, first);
            add(&mut bytes, mode, second);
        }
    }
    bytes
}

/// Adds the bytes of a character in a mode.
#[tactic(auto, unfolding(crate::specs::Bytes::character_bytes))]
pub(crate) fn add(bytes: &mut FewBytes, mode: u8, code: u16)
    requires { length bytes.old ≤ 4 }
    ensures bytes { bytes.new ≡ bytes.old ++ character_bytes mode code }
    ensures few { length bytes.new ≤ length bytes.old + 4 }
{
    if mode == mode::UNICODE {
        if let Some(c) = char::from_u32(u32::from(code)) {
            let mut text = [0; 4];
            bytes.extend(c.encode_utf8(&mut text).as_bytes());
        }
    } else if mode == mode::XLATE && code < 256 {
        bytes.push(code as u8);
    }
}

/// The bytes of a keycode in K_MEDIUMRAW.
#[tactic(auto, unfolding(crate::specs::Bytes::code_bytes))]
pub(crate) fn code_bytes(code: u8, down: bool) -> FewBytes
    ensures { result ≡ code_bytes code down }
{
    let up = if down { 0 } else { 0x80 };
    if code < 0x80 {
        FewBytes::of(&[code + up])
    } else {
        FewBytes::of(&[up, 0x80 + code / 0x80, 0x80 + code % 0x80])
    }
}

/// The bytes of an ASCII character with Meta.
#[tactic(auto, unfolding(crate::specs::Bytes::meta_bytes))]
pub(crate) fn meta_bytes(meta: u8, v: u8) -> FewBytes
    requires { v ≤ 127 }
    ensures { result ≡ meta_bytes meta v }
{
    if meta == meta::ESCPREFIX {
        FewBytes::of(&[0x1B, v])
    } else {
        FewBytes::of(&[v + 0x80])
    }
}

/// The bytes of Return.
pub(crate) fn return_bytes(newline: bool) -> FewBytes
    ensures { result ≡ return_bytes newline }
{
    if newline {
        FewBytes::of(b"\r\n")
    } else {
        FewBytes::of(b"\r")
    }
}
