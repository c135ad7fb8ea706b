//! Reads a word as the one decimal spelling of a number.
ghost use Rattle.std.specs.Prelude.{◌≡◌, ◌≤◌, decimal, IfSome, IfNone};
ghost use Rattle.std.specs.Bool.{OnFalse, OnTrue};
ghost use Rattle.vt_base.specs.Decimal.{IsNoNumber, IsPlain, IsNoNumberTo};

/// The number of at most `most` that the word is in decimal digits, without a sign and without
/// leading zeros; None if it isn't one.
pub fn parse_decimal(word: &[u8], most: u64) -> Option<u64>
    ensures found { IfSome result (λ n. (n ≤ most) × (decimal n ≡ word.now)) }
    ensures none { IfNone result (IsNoNumberTo most word.now) }
{
    let n = parse_any(word)?;
    if most < n {
        return None;
    }
    Some(n)
}

fn parse_any(word: &[u8]) -> Option<u64>
    ensures found { IfSome result (λ n. decimal n ≡ word.now) }
    ensures none { IfNone result (IsNoNumber word.now) }
{
    if !is_plain(word) {
        return None;
    }
    match str::from_utf8(word) {
        Ok(text) => parse_text(text),
        Err(_) => None,
    }
}

// The number that a plain word spells.
fn parse_text(word: &str) -> Option<u64>
    requires { IsPlain word.now }
    ensures found { IfSome result (λ n. decimal n ≡ word.now) }
    ensures none { IfNone result (IsNoNumber word.now) }
{
    word.parse::<u64>().ok()
}

// The word has a first byte, which is neither a plus nor a needless zero.
fn is_plain(word: &[u8]) -> bool
    ensures plain { OnTrue result (IsPlain word.now) }
    ensures other { OnFalse result (IsNoNumber word.now) }
{
    if word.is_empty() {
        return false;
    }
    if word[0] == b'+' {
        return false;
    }
    if word[0] == b'0' {
        return word.len() == 1;
    }
    true
}
