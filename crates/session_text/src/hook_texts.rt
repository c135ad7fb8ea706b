//! Hooks read from their texts.
ghost use Rattle.std.specs.Prelude.{◌≡◌, ℕ, ◌≢◌, ◌<◌, ◌^◌, ◌∷◌, [], codes, decimal, map, IfSome, IfNone};
ghost use Rattle.sig_hooks.specs.declared.act.Act.{Act};
ghost use Rattle.session_text.specs.HookTexts.{IsAct, IsHook, IsHooked, lower_byte_of};

use crate::acting::Found;
use sig_hooks::Act;
use vt_base::{lower_hex_value, parse_decimal};

/// The hook that the words spell.
pub(crate) fn hook_of(words: &[&str]) -> Option<Found>
    ensures found { IfSome result
        (λ found. IsHook (map (λ word. word.now) words.now) found.signal found.act) }
    ensures none { IfNone result ((signal : ℕ) (act : Act)
        → ¬ IsHook (map (λ word. word.now) words.now) signal act) }
{
    let [signal, rest @ ..] = words else {
        return None;
    };
    let signal = signal_of(signal)?;
    let act = act_in(rest)?;
    Some(Found { signal, act })
}

// A signal that can have a hook.
fn signal_of(word: &str) -> Option<u16>
    ensures found { IfSome result (λ n. IsHooked word.now n) }
    ensures none { IfNone result ((n : ℕ) → ¬ IsHooked word.now n) }
{
    let n = parse_decimal(word.as_bytes(), 64)?;
    if n == 0 || n == 9 {
        return None;
    }
    Some(n as u16)
}

// The act that the words spell.
fn act_in(words: &[&str]) -> Option<Act>
    ensures found { IfSome result (IsAct (map (λ word. word.now) words.now)) }
    ensures none { IfNone result ((act : Act) → ¬ IsAct (map (λ word. word.now) words.now) act) }
{
    match words {
        [name] => plain_act(name),
        [name, fd, last] => act_on(name, fd, last),
        _ => None,
    }
}

fn plain_act(name: &str) -> Option<Act>
    ensures found { IfSome result (IsAct (name.now ∷ [])) }
    ensures none { IfNone result ((act : Act) → ¬ IsAct (name.now ∷ []) act) }
{
    match name {
        "nothing" => Some(Act::Nothing),
        "leave" => Some(Act::Leave),
        _ => None,
    }
}

fn act_on(name: &str, fd: &str, last: &str) -> Option<Act>
    ensures found { IfSome result (IsAct (name.now ∷ fd.now ∷ last.now ∷ [])) }
    ensures none { IfNone result
        ((act : Act) → ¬ IsAct (name.now ∷ fd.now ∷ last.now ∷ []) act) }
{
    match name {
        "disp" => disp(fd, last),
        "put" => put(fd, last),
        _ => None,
    }
}

fn disp(fd: &str, arg: &str) -> Option<Act>
    ensures found { IfSome result (IsAct (codes "disp" ∷ fd.now ∷ arg.now ∷ [])) }
    ensures none { IfNone result
        ((act : Act) → ¬ IsAct (codes "disp" ∷ fd.now ∷ arg.now ∷ []) act) }
{
    let fd = number(fd)?;
    let arg = number(arg)?;
    Some(Act::Disp { fd, arg })
}

fn put(fd: &str, digits: &str) -> Option<Act>
    ensures found { IfSome result (IsAct (codes "put" ∷ fd.now ∷ digits.now ∷ [])) }
    ensures none { IfNone result
        ((act : Act) → ¬ IsAct (codes "put" ∷ fd.now ∷ digits.now ∷ []) act) }
{
    let fd = number(fd)?;
    let byte = lower_byte_of(digits.as_bytes())?;
    Some(Act::Put { fd, byte })
}

/// The number of 16 bits that the word spells.
pub(crate) fn number(word: &str) -> Option<u16>
    ensures found { IfSome result (λ n. decimal n ≡ word.now) }
    ensures none { IfNone result ((n : ℕ) → n < 2 ^ 16 → decimal n ≢ word.now) }
{
    let n = parse_decimal(word.as_bytes(), u64::from(u16::MAX))?;
    Some(n as u16)
}

// The byte of two hexadecimal digits in lower case.
fn lower_byte_of(word: &[u8]) -> Option<u8>
    ensures { result ≡ lower_byte_of word.now }
{
    let [high, low] = word else { return None };
    let high = lower_hex_value(*high)?;
    let low = lower_hex_value(*low)?;
    Some(16 * high + low)
}
