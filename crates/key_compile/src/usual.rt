//! The usual strings and pairs of a keymap (this project's own).

use key_syms::Pair;

/// The number of function keys with a row among the usual strings.
pub(crate) const USUAL_STRING_COUNT: usize = 30;

/// The number of usual pairs.
pub(crate) const USUAL_PAIR_COUNT: usize = 66;

/// The usual strings of the function keys in order, each up to its first 0.
#[rattlefmt::skip]
pub(crate) static USUAL_STRINGS: [[u8; 5]; USUAL_STRING_COUNT] = [
    *b"\x1B[[A\0", // F1
    *b"\x1B[[B\0", // F2
    *b"\x1B[[C\0", // F3
    *b"\x1B[[D\0", // F4
    *b"\x1B[[E\0", // F5
    *b"\x1B[17~", // F6
    *b"\x1B[18~", // F7
    *b"\x1B[19~", // F8
    *b"\x1B[20~", // F9
    *b"\x1B[21~", // F10
    *b"\x1B[23~", // F11
    *b"\x1B[24~", // F12
    *b"\x1B[25~", // F13
    *b"\x1B[26~", // F14
    *b"\x1B[28~", // F15
    *b"\x1B[29~", // F16
    *b"\x1B[31~", // F17
    *b"\x1B[32~", // F18
    *b"\x1B[33~", // F19
    *b"\x1B[34~", // F20
    *b"\x1B[1~\0", // Find
    *b"\x1B[2~\0", // Insert
    *b"\x1B[3~\0", // Remove
    *b"\x1B[4~\0", // Select
    *b"\x1B[5~\0", // Prior
    *b"\x1B[6~\0", // Next
    *b"\x1B[M\0\0", // Macro
    *b"\0\0\0\0\0", // Help
    *b"\0\0\0\0\0", // Do
    *b"\x1B[P\0\0", // Pause
];

/// The usual pairs: an accent or a first character, a character, and the result of the two.
#[rattlefmt::skip]
pub(crate) static USUAL_PAIRS: [Pair; USUAL_PAIR_COUNT] = [
    Pair { accent: b'`' as u16, base: b'A' as u16, result: 0xC0 }, // À
    Pair { accent: b'`' as u16, base: b'E' as u16, result: 0xC8 }, // È
    Pair { accent: b'`' as u16, base: b'I' as u16, result: 0xCC }, // Ì
    Pair { accent: b'`' as u16, base: b'O' as u16, result: 0xD2 }, // Ò
    Pair { accent: b'`' as u16, base: b'U' as u16, result: 0xD9 }, // Ù
    Pair { accent: b'`' as u16, base: b'a' as u16, result: 0xE0 }, // à
    Pair { accent: b'`' as u16, base: b'e' as u16, result: 0xE8 }, // è
    Pair { accent: b'`' as u16, base: b'i' as u16, result: 0xEC }, // ì
    Pair { accent: b'`' as u16, base: b'o' as u16, result: 0xF2 }, // ò
    Pair { accent: b'`' as u16, base: b'u' as u16, result: 0xF9 }, // ù
    Pair { accent: b'\'' as u16, base: b'A' as u16, result: 0xC1 }, // Á
    Pair { accent: b'\'' as u16, base: b'E' as u16, result: 0xC9 }, // É
    Pair { accent: b'\'' as u16, base: b'I' as u16, result: 0xCD }, // Í
    Pair { accent: b'\'' as u16, base: b'O' as u16, result: 0xD3 }, // Ó
    Pair { accent: b'\'' as u16, base: b'U' as u16, result: 0xDA }, // Ú
    Pair { accent: b'\'' as u16, base: b'Y' as u16, result: 0xDD }, // Ý
    Pair { accent: b'\'' as u16, base: b'a' as u16, result: 0xE1 }, // á
    Pair { accent: b'\'' as u16, base: b'e' as u16, result: 0xE9 }, // é
    Pair { accent: b'\'' as u16, base: b'i' as u16, result: 0xED }, // í
    Pair { accent: b'\'' as u16, base: b'o' as u16, result: 0xF3 }, // ó
    Pair { accent: b'\'' as u16, base: b'u' as u16, result: 0xFA }, // ú
    Pair { accent: b'\'' as u16, base: b'y' as u16, result: 0xFD }, // ý
    Pair { accent: b'^' as u16, base: b'A' as u16, result: 0xC2 }, // Â
    Pair { accent: b'^' as u16, base: b'E' as u16, result: 0xCA }, // Ê
    Pair { accent: b'^' as u16, base: b'I' as u16, result: 0xCE }, // Î
    Pair { accent: b'^' as u16, base: b'O' as u16, result: 0xD4 }, // Ô
    Pair { accent: b'^' as u16, base: b'U' as u16, result: 0xDB }, // Û
    Pair { accent: b'^' as u16, base: b'a' as u16, result: 0xE2 }, // â
    Pair { accent: b'^' as u16, base: b'e' as u16, result: 0xEA }, // ê
    Pair { accent: b'^' as u16, base: b'i' as u16, result: 0xEE }, // î
    Pair { accent: b'^' as u16, base: b'o' as u16, result: 0xF4 }, // ô
    Pair { accent: b'^' as u16, base: b'u' as u16, result: 0xFB }, // û
    Pair { accent: b'~' as u16, base: b'A' as u16, result: 0xC3 }, // Ã
    Pair { accent: b'~' as u16, base: b'N' as u16, result: 0xD1 }, // Ñ
    Pair { accent: b'~' as u16, base: b'O' as u16, result: 0xD5 }, // Õ
    Pair { accent: b'~' as u16, base: b'a' as u16, result: 0xE3 }, // ã
    Pair { accent: b'~' as u16, base: b'n' as u16, result: 0xF1 }, // ñ
    Pair { accent: b'~' as u16, base: b'o' as u16, result: 0xF5 }, // õ
    Pair { accent: b'"' as u16, base: b'A' as u16, result: 0xC4 }, // Ä
    Pair { accent: b'"' as u16, base: b'E' as u16, result: 0xCB }, // Ë
    Pair { accent: b'"' as u16, base: b'I' as u16, result: 0xCF }, // Ï
    Pair { accent: b'"' as u16, base: b'O' as u16, result: 0xD6 }, // Ö
    Pair { accent: b'"' as u16, base: b'U' as u16, result: 0xDC }, // Ü
    Pair { accent: b'"' as u16, base: b'a' as u16, result: 0xE4 }, // ä
    Pair { accent: b'"' as u16, base: b'e' as u16, result: 0xEB }, // ë
    Pair { accent: b'"' as u16, base: b'i' as u16, result: 0xEF }, // ï
    Pair { accent: b'"' as u16, base: b'o' as u16, result: 0xF6 }, // ö
    Pair { accent: b'"' as u16, base: b'u' as u16, result: 0xFC }, // ü
    Pair { accent: b'"' as u16, base: b'y' as u16, result: 0xFF }, // ÿ
    Pair { accent: b',' as u16, base: b'C' as u16, result: 0xC7 }, // Ç
    Pair { accent: b',' as u16, base: b'c' as u16, result: 0xE7 }, // ç
    Pair { accent: b'A' as u16, base: b'E' as u16, result: 0xC6 }, // Æ
    Pair { accent: b'a' as u16, base: b'e' as u16, result: 0xE6 }, // æ
    Pair { accent: b'O' as u16, base: b'/' as u16, result: 0xD8 }, // Ø
    Pair { accent: b'o' as u16, base: b'/' as u16, result: 0xF8 }, // ø
    Pair { accent: b's' as u16, base: b's' as u16, result: 0xDF }, // ß
    Pair { accent: b'A' as u16, base: b'A' as u16, result: 0xC5 }, // Å
    Pair { accent: b'a' as u16, base: b'a' as u16, result: 0xE5 }, // å
    Pair { accent: b'-' as u16, base: b'D' as u16, result: 0xD0 }, // Ð
    Pair { accent: b'-' as u16, base: b'd' as u16, result: 0xF0 }, // ð
    Pair { accent: b'T' as u16, base: b'H' as u16, result: 0xDE }, // Þ
    Pair { accent: b't' as u16, base: b'h' as u16, result: 0xFE }, // þ
    Pair { accent: b'<' as u16, base: b'<' as u16, result: 0xAB }, // «
    Pair { accent: b'>' as u16, base: b'>' as u16, result: 0xBB }, // »
    Pair { accent: b'?' as u16, base: b'?' as u16, result: 0xBF }, // ¿
    Pair { accent: b'!' as u16, base: b'!' as u16, result: 0xA1 }, // ¡
];
