//! Reads and writes one hexadecimal digit.
ghost use Rattle.std.specs.Prelude.{◌≡◌, ◌<◌, IfSome};
ghost use Rattle.vt_base.specs.Digits.{hex_digit, hex_value, lower_hex_value};

/// The value of a hexadecimal digit, in either case.
pub fn hex_value(b: u8) -> Option<u8>
    ensures value { result ≡ hex_value b }
    ensures small { IfSome result (λ n. n < 16) }
{
    match b {
        b'A'..=b'F' => Some(b - b'A' + 10),
        _ => lower_hex_value(b),
    }
}

/// The value of a hexadecimal digit in lower case.
pub fn lower_hex_value(b: u8) -> Option<u8>
    ensures value { result ≡ lower_hex_value b }
    ensures small { IfSome result (λ n. n < 16) }
{
    match b {
        b'0'..=b'9' => Some(b - b'0'),
        b'a'..=b'f' => Some(b - b'a' + 10),
        _ => None,
    }
}

/// The hexadecimal digit of a number below 16, in lower case.
pub fn hex_digit(n: u8) -> u8
    requires { n < 16 }
    ensures { result ≡ hex_digit n }
{
    if n < 10 { b'0' + n } else { b'a' - 10 + n }
}
