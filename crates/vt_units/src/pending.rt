ghost use Rattle.std.specs.Prelude.{◌≡◌, false, ◌==◌, ◌≤◌, ◌<◌, ◌&&◌, not, true, drop, take, [], ◌∷◌, length, Some, IfSome, MatchOption, if◌then◌else◌};
ghost use Rattle.std.specs.List.{prefix_len};
ghost use Rattle.vt_units.specs.WholeSequence.{parameters_ahead, rest_ahead, sequence_of, taken_ahead};
ghost use Rattle.vt_units.specs.Answer.{answer, rest_after, rest_before, byte_outcome};
ghost use Rattle.vt_units.specs.ShortForms.{short_stands, escape_stands};
ghost use Rattle.vt_units.specs.ShortSequences.{csi_in};
ghost use Rattle.vt_units.specs.Bytes.{decodes, interrupts, is_control, is_printable};
ghost use Rattle.vt_units.specs.Characters.{AreTextsOf, NoneBegins};
ghost use Rattle.vt_units.specs.Reading.{is_empty};
ghost use Rattle.vt_units.specs.Rest.{fresh, start_mode};
ghost use Rattle.vt_units.specs.ParserState.{Inside, Leaves, Quiet, Stands, rest_of};
ghost use Rattle.vt_units.specs.Units.{IsUnfinished};
ghost use Rattle.vt_units.specs.declared.unit.Unit.TheVariants.{Esc};

mod long_sgr;
mod same;

use crate::bytes::{decodes, interrupts, is_body, is_control};
use crate::characters::read_characters;
use crate::codes::Codes;
use crate::ground::{ground, part};
use crate::osc::{command, palette};
use crate::parser_state::ParserState;
use crate::pending_bytes::{PendingBytes, SEQUENCE_BYTES, sequence_front};
use crate::printable::printable_prefix;
use crate::remainder::Remainder;
use crate::sequence::sequence;
use crate::sequence_ahead::sequence_ahead;
use crate::short_csi_ahead::{escape_ahead_of, short_csi_ahead};
use crate::step::Step;
use crate::strings::{string, string_end};
use crate::{Mode, Params, Read, ShortCsi, Then, WholeSequence};
use std::marker::Model;
use vt_chars::{Decoded, decode};

/// The text that isn't finished. Contracts see its bytes and the mode at its first byte. The
/// content of a string isn't kept, so the size does not depend on how much was read.
#[derive(Debug, Drop)]
pub struct Pending {
    mode: Mode,
    stage: ParserState,
    text: PendingBytes,
}

impl Model for Pending {
    ghost use Rattle.vt_units.specs.Rest.{Rest};
    ghost use Rattle.vt_units.specs.ParserState.{Stands};

    ghost Value = { Rest };

    ghost view = { λ p. record { mode = p.mode; text = p.text } };

    ghost invariant = { λ p. Stands p.stage p.mode p.text };
}

impl Pending {
    /// No text is pending.
    pub fn new() -> Pending
        ensures { result ≡ fresh start_mode }
    {
        Pending {
            mode: Mode {
                utf8: true,
                display: false,
            },
            stage: ParserState::Ground,
            text: PendingBytes::new(),
        }
    }

    /// Whether no text is pending. A pending text is always unfinished.
    pub fn is_empty(&self) -> bool
        ensures empty { result ≡ is_empty self.now.text }
        ensures unfinished { result ≡ false → IsUnfinished self.now.mode self.now.text }
    {
        self.text.as_slice().is_empty()
    }

    /// Reads a byte. The mode counts only for the first byte of a text.
    pub fn take(&mut self, mode: Mode, b: u8) -> Read
        ensures answer { result ≡ answer self.old mode b }
        ensures rest { self.new ≡ rest_after self.old mode b }
    {
        if self.take_body(b) {
            return Read {
                bad: false,
                got: Then::More,
            };
        }
        let bad = self.settle(mode, b);
        Read {
            bad,
            got: self.advance(b),
        }
    }

    /// Reads the printable ASCII characters that the text begins with, and returns their number. It
    /// is 0 unless no text is pending and the mode is UTF-8. The result is that of
    /// [`Pending::take`] for each of the bytes.
    #[tactic(auto, using(crate::proofs::Printables::printable_within))]
    pub fn take_printable(&mut self, mode: Mode, b: &[u8]) -> usize
        ensures count { result ≡ (if is_empty self.old.text && decodes mode
            then prefix_len is_printable b.now
            else 0) }
        ensures bound { result ≤ length b.now }
        ensures rest { self.new ≡ (if result == 0 then self.old else fresh mode) }
    {
        if !self.is_empty() || !decodes(mode) {
            return 0;
        }
        let count = printable_prefix(b);
        if count > 0 {
            self.go_on(mode);
        }
        count
    }

    /// Reads whole printable characters that the text begins with, up to as many as are wanted, and
    /// returns the number of their bytes. It is 0 unless no text is pending and the mode is UTF-8.
    /// `codes` is replaced by the characters. The result is that of [`Pending::take`] for each of the
    /// bytes.
    pub fn take_characters(&mut self, mode: Mode, b: &[u8], most: usize, codes: &mut Codes) -> usize
        requires room { most ≤ 64 }
        ensures texts { AreTextsOf (take result b.now) codes.new }
        ensures bound { result ≤ length b.now }
        ensures most { length codes.new ≤ most }
        ensures all { is_empty self.old.text ≡ true → decodes mode ≡ true → length codes.new < most
            → NoneBegins (drop result b.now) }
        ensures decoding { 0 < result → (self.old.text ≡ []) × (decodes mode ≡ true) }
        ensures rest { self.new ≡ (if result == 0 then self.old else fresh mode) }
    {
        codes.clear();
        if !self.is_empty() || !decodes(mode) {
            return 0;
        }
        let count = read_characters(b, most, codes);
        if count > 0 {
            self.go_on(mode);
        }
        count
    }

    /// Reads a whole sequence that the text begins with, if no text is pending: a control sequence
    /// with parameters alone, or an escape sequence with at most one intermediate byte. `params` is
    /// replaced by the parameters. The result is that of [`Pending::take`] for each of the bytes: one
    /// unit, and nothing before it.
    pub fn take_sequence(&mut self, mode: Mode, b: &[u8], params: &mut Params) -> WholeSequence
        ensures sequence { sequence_of result params.new ≡ taken_ahead self.old b.now }
        ensures parameters { params.new ≡ parameters_ahead (taken_ahead self.old b.now) }
        ensures rest { self.new ≡ rest_ahead self.old mode (taken_ahead self.old b.now) }
    {
        params.clear();
        if !self.is_empty() {
            return WholeSequence::Nothing;
        }
        let ahead = sequence_ahead(sequence_front(b), params);
        if !matches!(ahead, WholeSequence::Nothing) {
            self.go_on(mode);
        }
        ahead
    }

    /// Reads the sequence that [`Pending::take_sequence`] reads, if it is a control sequence of one or two
    /// short parameters that doesn't begin with `?`. After None that call has the result.
    #[inline(always)]
    #[tactic(auto, using(crate::proofs::Comes::csi_within))]
    pub fn take_short_csi(&mut self, mode: Mode, b: &[u8]) -> Option<ShortCsi>
        ensures sequence { IfSome result (λ brief. taken_ahead self.old b.now ≡ Some (csi_in brief)) }
        ensures within { IfSome result (λ brief. brief.count ≤ length b.now) }
        ensures exact { MatchOption result (short_stands self.old b.now ≡ false)
            (λ _. short_stands self.old b.now ≡ true) }
        ensures rest { MatchOption result (self.new ≡ self.old) (λ _. self.new ≡ fresh mode) }
    {
        let begins = self.is_empty();
        if !begins {
            return None;
        }
        let brief = short_csi_ahead(sequence_front(b))?;
        self.go_on(mode);
        Some(brief)
    }

    /// Reads the sequence that [`Pending::take_sequence`] reads, if it is an escape sequence of two bytes
    /// with a final byte from `0` to `O`, and returns that byte.
    #[inline(always)]
    pub fn take_escape(&mut self, mode: Mode, b: &[u8]) -> Option<u8>
        ensures sequence { IfSome result (λ last. taken_ahead self.old b.now
            ≡ Some (record { unit = Esc 0 last; count = 2 })) }
        ensures within { IfSome result (λ _. 2 ≤ length b.now) }
        ensures exact { MatchOption result (escape_stands self.old b.now ≡ false)
            (λ _. escape_stands self.old b.now ≡ true) }
        ensures rest { MatchOption result (self.new ≡ self.old) (λ _. self.new ≡ fresh mode) }
    {
        let starts = self.is_empty();
        if !starts {
            return None;
        }
        let last = escape_ahead_of(b)?;
        self.go_on(mode);
        Some(last)
    }

    /// Takes a control character if no text is pending, and returns whether the byte was one. The
    /// result is that of [`Pending::take`].
    pub fn take_control(&mut self, mode: Mode, b: u8) -> bool
        ensures control { result ≡ (is_empty self.old.text && is_control mode b && not (b == 0x1B)) }
        ensures rest { self.new ≡ (if result then fresh mode else self.old) }
    {
        let takes = self.is_empty() && is_control(mode, b) && b != 0x1B;
        if takes {
            self.go_on(mode);
        }
        takes
    }

    // Adds the byte to the body of a control sequence if it is part of one, and returns whether it is: most
    // bytes of a sequence are.
    fn take_body(&mut self, b: u8) -> bool
        ensures goes { result ≡ true → Quiet self.old b self.new }
        ensures stays { result ≡ false → self.new ≡ self.old }
    {
        match self.stage {
            ParserState::Control => {}
            _ => return false,
        }
        if !is_body(b) {
            return false;
        }
        if self.text.as_slice().len() >= SEQUENCE_BYTES {
            return false;
        }
        self.text.push(b);
        true
    }

    // Ends the text that the byte ends by following it, and returns whether that text was malformed.
    fn settle(&mut self, mode: Mode, b: u8) -> bool
        ensures { rest_before self.old mode b ≡ record { bad = result; rest = self.new } }
    {
        match settling(self.stage, self.mode, self.text.as_slice(), mode, b) {
            Remainder::All => return false,
            Remainder::AllInNewMode => self.mode = mode,
            Remainder::Nothing => self.restart(mode),
            Remainder::Malformed => {
                self.restart(mode);
                return true;
            }
            Remainder::Escape => self.escape(),
        }
        false
    }

    // Continues without a text, if there was none.
    #[tactic(auto, using(crate::proofs::Empties::stands_empty))]
    fn go_on(&mut self, mode: Mode)
        requires { is_empty self.old.text ≡ true }
        ensures { self.new ≡ fresh mode }
    {
        self.mode = mode;
    }

    fn restart(&mut self, mode: Mode)
        ensures { self.new ≡ fresh mode }
    {
        self.mode = mode;
        self.stage = ParserState::Ground;
        self.text.clear();
    }

    // The ESC that ended a string begins a sequence.
    fn escape(&mut self)
        ensures { self.new ≡ rest_of self.old.mode (0x1B ∷ []) }
    {
        self.stage = ParserState::Escape;
        self.text.clear();
        self.text.push(0x1B);
    }

    // Reads the byte after the bytes that are left.
    fn advance(&mut self, b: u8) -> Then
        ensures { byte_outcome self.old b ≡ record { got = result; rest = self.new } }
    {
        let (got, step) = self.decide(b);
        match step {
            Step::Keep => {}
            Step::Grow(stage) => {
                self.stage = stage;
                self.text.push(b);
            }
            Step::Clear => {
                self.stage = ParserState::Ground;
                self.text.clear();
            }
        }
        got
    }

    fn decide(&self, b: u8) -> (Then, Step)
        ensures { Inside self.now.mode self.now.text b result.0 result.1 }
    {
        let mode = self.mode;
        let text = self.text.as_slice();
        match self.stage {
            ParserState::Ground => ground(mode, b),
            ParserState::Utf8 => part(mode, text, b),
            ParserState::Osc => command(mode, text, b),
            ParserState::Palette => palette(mode, text, b),
            ParserState::ControlString => string(mode, text, b),
            ParserState::StringEscape => string_end(mode, text, b),
            ParserState::Escape => sequence(ParserState::Escape, mode, text, b),
            ParserState::Control => sequence(ParserState::Control, mode, text, b),
            ParserState::CsiBracket => sequence(ParserState::CsiBracket, mode, text, b),
        }
    }
}

impl Default for Pending {
    ghost is_default = { λ x. x ≡ fresh start_mode };

    fn default() -> Pending {
        Pending::new()
    }
}

fn settling(stage: ParserState, mode: Mode, text: &[u8], now: Mode, b: u8) -> Remainder
    requires stands { Stands stage mode text.now }
    requires bound { length text.now ≤ 256 }
    ensures { Leaves (rest_before (rest_of mode text.now) now b) stage (rest_of mode text.now) now result }
{
    match stage {
        ParserState::Ground => Remainder::Nothing,
        ParserState::Utf8 => match decode(text, b) {
            Decoded::Character(_) => Remainder::All,
            Decoded::Unfinished => Remainder::All,
            Decoded::Malformed => Remainder::Malformed,
        },
        ParserState::ControlString => opened(b),
        ParserState::StringEscape => ended(mode, b),
        ParserState::Escape => broken(mode, b),
        ParserState::Control => broken(mode, b),
        ParserState::CsiBracket => broken(mode, b),
        ParserState::Osc => broken(mode, b),
        ParserState::Palette => broken(mode, b),
    }
}

// The remainder of a string: it has the mode at an ESC.
fn opened(b: u8) -> Remainder
    ensures { result ≡ (if b == 0x1B then Remainder.AllInNewMode else Remainder.All) }
{
    if b == 0x1B {
        Remainder::AllInNewMode
    } else {
        Remainder::All
    }
}

// The remainder of a string with an ESC at its end.
fn ended(mode: Mode, b: u8) -> Remainder
    ensures { result ≡ (if b == 0x5C then Remainder.All
        else if interrupts mode b then Remainder.Nothing
        else Remainder.Escape) }
{
    if b == b'\\' {
        Remainder::All
    } else if interrupts(mode, b) {
        Remainder::Nothing
    } else {
        Remainder::Escape
    }
}

// The remainder of a sequence that isn't a string.
fn broken(mode: Mode, b: u8) -> Remainder
    ensures { result ≡ (if interrupts mode b then Remainder.Nothing else Remainder.All) }
{
    if interrupts(mode, b) {
        Remainder::Nothing
    } else {
        Remainder::All
    }
}
