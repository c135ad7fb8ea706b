ghost use Rattle.std.specs.Prelude.{◌≡◌, ◌≤◌, [], ◌∷◌, ◌++◌, length, ◌&&◌};
ghost use Rattle.vt_chars.specs.Utf8.{decoding_of, is_second, is_tail, within};

/// How UTF-8 reads a string of bytes.
#[derive(Debug, Clone, Copy, PartialEq, Eq)]
pub enum Decoded {
    /// A character, by its code point.
    Character(u32),
    /// A proper prefix of a character.
    Unfinished,
    /// Neither.
    Malformed,
}

/// How UTF-8 reads `text` with one more byte. The time is the same for each text.
pub fn decode(text: &[u8], b: u8) -> Decoded
    ensures { result ≡ decoding_of (text.now ++ b ∷ []) }
{
    match text.len() {
        0 => decode_one(b),
        1 => decode_two(text[0], b),
        2 => decode_three(text[0], text[1], b),
        3 => decode_four(text[0], text[1], text[2], b),
        _ => Decoded::Malformed,
    }
}

/// How UTF-8 reads `text`. The time is the same for each text.
pub fn decode_all(text: &[u8]) -> Decoded
    ensures { result ≡ decoding_of text.now }
{
    match text.len() {
        1 => decode_one(text[0]),
        2 => decode_two(text[0], text[1]),
        3 => decode_three(text[0], text[1], text[2]),
        4 => decode_four(text[0], text[1], text[2], text[3]),
        _ => Decoded::Malformed,
    }
}

/// How UTF-8 reads one byte.
pub fn decode_one(a: u8) -> Decoded
    ensures { result ≡ decoding_of (a ∷ []) }
{
    if a <= 0x7F {
        Decoded::Character(u32::from(a))
    } else if is_within(0xC2, 0xF4, a) {
        Decoded::Unfinished
    } else {
        Decoded::Malformed
    }
}

/// How UTF-8 reads two bytes.
pub fn decode_two(a: u8, b: u8) -> Decoded
    ensures { result ≡ decoding_of (a ∷ b ∷ []) }
{
    if is_within(0xC2, 0xDF, a) && is_tail(b) {
        Decoded::Character(u32::from(a - 0xC0) * 0x40 + u32::from(b - 0x80))
    } else if is_within(0xE0, 0xF4, a) && is_second(a, b) {
        Decoded::Unfinished
    } else {
        Decoded::Malformed
    }
}

/// How UTF-8 reads three bytes.
pub fn decode_three(a: u8, b: u8, c: u8) -> Decoded
    ensures { result ≡ decoding_of (a ∷ b ∷ c ∷ []) }
{
    if is_within(0xE0, 0xEF, a) && is_second(a, b) && is_tail(c) {
        let front = u32::from(a - 0xE0) * 0x40 + u32::from(b - 0x80);
        Decoded::Character(front * 0x40 + u32::from(c - 0x80))
    } else if is_within(0xF0, 0xF4, a) && is_second(a, b) && is_tail(c) {
        Decoded::Unfinished
    } else {
        Decoded::Malformed
    }
}

/// How UTF-8 reads four bytes.
pub fn decode_four(a: u8, b: u8, c: u8, d: u8) -> Decoded
    ensures { result ≡ decoding_of (a ∷ b ∷ c ∷ d ∷ []) }
{
    if is_within(0xF0, 0xF4, a) && is_second(a, b) && is_tail(c) && is_tail(d) {
        let front = u32::from(a - 0xF0) * 0x40 + u32::from(b - 0x80);
        let middle = front * 0x40 + u32::from(c - 0x80);
        Decoded::Character(middle * 0x40 + u32::from(d - 0x80))
    } else {
        Decoded::Malformed
    }
}

fn is_within(low: u8, high: u8, b: u8) -> bool
    ensures { result ≡ within low high b }
{
    low <= b && b <= high
}

fn is_tail(b: u8) -> bool
    ensures { result ≡ is_tail b }
{
    is_within(0x80, 0xBF, b)
}

fn is_second(a: u8, b: u8) -> bool
    ensures { result ≡ is_second a b }
{
    match a {
        0xE0 => is_within(0xA0, 0xBF, b),
        0xED => is_within(0x80, 0x9F, b),
        0xF0 => is_within(0x90, 0xBF, b),
        0xF4 => is_within(0x80, 0x8F, b),
        _ => is_tail(b),
    }
}
