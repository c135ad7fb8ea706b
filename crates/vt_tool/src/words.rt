ghost use Rattle.std.specs.Prelude.{◌≡◌, ◌≤◌, true, false, map, string_bytes, IfSome};
ghost use Rattle.vt_tool.specs.Commands.{IsFit, IsSerial, all_forms, rest_of, serial_forms};
ghost use Rattle.vt_tool.specs.Words.{command_of, command_with, if_no_words, number_in};

use crate::command::Command;
use crate::numbered_form::NumberedForm;
use vt_base::parse_decimal;

/// The command that the words spell, if it needs no threads.
pub(crate) fn parse_words(words: &[String]) -> Option<Command>
    ensures command { result ≡ command_of serial_forms (map string_bytes words.now) }
    ensures serial { IfSome result (λ command. IsSerial command) }
    ensures fit { IfSome result (λ command. IsFit command) }
{
    let (name, others) = words.split_first()?;
    match name.as_str() {
        "screen" => two_numbers(NumberedForm::Screen, others),
        "keys" => alone(Command::Keys, others),
        "type" => alone(Command::Typing, others),
        "play" => alone(Command::Play, others),
        "check" => alone(Command::Check, others),
        "drill" => two_numbers(NumberedForm::Drill, others),
        "upgrade" => alone(Command::Upgrade, others),
        "cook" => alone(Command::Cook, others),
        "dumpkeys" => alone(Command::DumpKeys, others),
        "review" => two_numbers(NumberedForm::Review, others),
        "explain" => alone(Command::Explain, others),
        "accept" => alone(Command::Accept, others),
        _ => None,
    }
}

/// The words spell `race`.
pub(crate) fn is_race(words: &[String]) -> bool
    ensures race { result ≡ true
        → command_of all_forms (map string_bytes words.now) ≡ Some Command.Race }
    ensures other { result ≡ false → command_of serial_forms (map string_bytes words.now)
        ≡ command_of all_forms (map string_bytes words.now) }
{
    let Some((name, others)) = words.split_first() else {
        return false;
    };
    match name.as_str() {
        "race" => others.is_empty(),
        _ => false,
    }
}

fn alone(command: Command, words: &[String]) -> Option<Command>
    requires serial { IsSerial command }
    requires fit { IsFit command }
    ensures command { result ≡ if_no_words command (map string_bytes words.now) }
    ensures serial { IfSome result (λ command. IsSerial command) }
    ensures fit { IfSome result (λ command. IsFit command) }
{
    if words.is_empty() {
        Some(command)
    } else {
        None
    }
}

// The command of two numbers, each in its range.
fn two_numbers(form: NumberedForm, words: &[String]) -> Option<Command>
    ensures command { result ≡ command_with (rest_of form) (map string_bytes words.now) }
    ensures serial { IfSome result (λ command. IsSerial command) }
    ensures fit { IfSome result (λ command. IsFit command) }
{
    let [first, second] = words else { return None };
    match form {
        NumberedForm::Screen => Some(Command::Screen {
            rows: parse_number(first.as_str(), 1, 255)? as u8,
            cols: parse_number(second.as_str(), 1, 255)? as u8,
        }),
        NumberedForm::Drill => Some(Command::Drill {
            n: parse_number(first.as_str(), 1, 10_000)? as u32,
            seed: parse_number(second.as_str(), 0, u64::MAX)?,
        }),
        NumberedForm::Review => Some(Command::Review {
            kinds: parse_number(first.as_str(), 0, 7)? as u8,
            console: parse_number(second.as_str(), 0, 63)? as u8,
        }),
    }
}

// The number from `low` to `high` that the word spells.
#[tactic(auto, using(crate::proofs::Numbers::number_some, crate::proofs::Numbers::number_low, crate::proofs::Numbers::number_none))]
fn parse_number(word: &str, low: u64, high: u64) -> Option<u64>
    ensures number { result ≡ number_in (record { low = low; high = high }) word.now }
    ensures range { IfSome result (λ n. (low ≤ n) × (n ≤ high)) }
{
    let n = parse_decimal(word.as_bytes(), high)?;
    if n < low {
        return None;
    }
    Some(n)
}
