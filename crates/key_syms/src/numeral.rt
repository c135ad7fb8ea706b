//! Numbers as keymaps spell them.
ghost use Rattle.std.specs.Prelude.{◌≡◌, ◌<◌, ◌≤◌, min, IfSome};
ghost use Rattle.std.specs.Option.{option_map};
ghost use Rattle.key_syms.specs.Numbers.{digit_in, number_of, number_in_base};

/// The number of a text: hexadecimal after `0x`, octal after `0`, otherwise decimal (keymaps(5)).
/// A number above 65,535 is returned as 65,536.
pub fn number(text: &[u8]) -> Option<u32>
    ensures { result ≡ option_map (min 65536) (number_of text.now) }
{
    if text.starts_with(b"0x".as_slice()) {
        digits(16, &text[2..])
    } else if text.starts_with(b"0".as_slice()) {
        digits(8, text)
    } else {
        digits(10, text)
    }
}

/// The number that the digits spell in a base, or 65,536 if it is more.
pub(crate) fn digits(base: u32, text: &[u8]) -> Option<u32>
    requires some { 1 ≤ base }
    requires known { base ≤ 16 }
    ensures { result ≡ option_map (min 65536) (number_in_base base text.now) }
{
    if text.is_empty() {
        return None;
    }
    let mut number = 0;
    for b in text {
        let value = match digit(base, *b) {
            Some(value) => value,
            None => return None,
        };
        number = (number * base + value).min(65536);
    }
    Some(number)
}

fn digit(base: u32, b: u8) -> Option<u32>
    ensures value { result ≡ digit_in base b }
    ensures small { IfSome result (λ value. value < base) }
{
    let value = match b {
        b'0'..=b'9' => u32::from(b - b'0'),
        b'A'..=b'F' => u32::from(b - b'A') + 10,
        b'a'..=b'f' => u32::from(b - b'a') + 10,
        _ => return None,
    };
    if value < base { Some(value) } else { None }
}
