ghost use Rattle.std.specs.Prelude.{◌≡◌, ◌<◌, ◌≤◌, Some, None};
ghost use Rattle.key_machine.specs.Compose.{accent_of, character, dead};
ghost use Rattle.key_machine.specs.Keys.{start_keys, after_unplug};
ghost use Rattle.key_machine.specs.ShortOuts.{out_with};
ghost use Rattle.key_machine.specs.Step.{action_step, key_step, number_bytes, number_with, acting_press_step, press_step, release_step, special, step, types};
ghost use Rattle.key_tables.specs.Tables.{Tables};

mod same;

use crate::accents::{accent_of, character, dead};
use crate::actions::{
    action_of, acts_in, idle_out, is_on, modifier_weight, num_lock, repeats, send_idle, spend,
    table_of,
};
use crate::bytes::{add, characters_bytes, meta_bytes, return_bytes, sent};
use crate::held::HeldKeys;
use crate::pad::{cursor_bytes, pad_out};
use crate::waiting::Waiting;
use crate::{FewBytes, KbState, KeyModes, KeyOut, ShortOut, flag, special};
use key_syms::{Action, kind};
use key_tables::KeyTables;
use scan_codes::KeyEvent;
use std::marker::Model;
use vt_base::{KEYBOARDS, KeyboardNo};

/// Up to four keyboards that type together: the keys that are down, each with the action of its
/// press, and the accent, Compose or number that waits for the next key. A key event takes no
/// memory, and its time does not depend on the keys that are down.
#[derive(Debug, Drop)]
pub struct Keyboard {
    held: HeldKeys,
    waiting: Waiting,
    number: Option<u16>,
}

impl Model for Keyboard {
    ghost use Rattle.key_machine.specs.Keys.{Keys, keys_of};

    ghost Value = { Keys };

    ghost view = { λ k. keys_of k.held k.waiting k.number };
}

impl Keyboard {
    /// No key is down and nothing waits.
    pub fn start() -> Keyboard
        ensures { result ≡ start_keys }
    {
        Keyboard {
            held: HeldKeys::none(),
            waiting: Waiting::nothing(),
            number: None,
        }
    }

    /// A key of the keyboard `from` goes down, repeats or goes up.
    pub fn key(
        &mut self,
        from: u8,
        e: KeyEvent,
        t: &KeyTables,
        s: &mut KbState,
        m: KeyModes,
    ) -> KeyOut
        requires { from < 4 }
        ensures keys { self.new ≡ (key_step t.now m from e self.old s.old).keys }
        ensures state { s.new ≡ (key_step t.now m from e self.old s.old).state }
        ensures out { result ≡ (key_step t.now m from e self.old s.old).out }
    {
        self.key_short(from, e, t, s, m).whole(t)
    }

    /// The same as [`key`](Keyboard::key), without a copy of a function key's string.
    pub fn key_short(
        &mut self,
        from: u8,
        e: KeyEvent,
        t: &KeyTables,
        s: &mut KbState,
        m: KeyModes,
    ) -> ShortOut
        requires { from < 4 }
        ensures keys { self.new ≡ (key_step t.now m from e self.old s.old).keys }
        ensures state { s.new ≡ (key_step t.now m from e self.old s.old).state }
        ensures out { out_with t.now result ≡ (key_step t.now m from e self.old s.old).out }
    {
        let from = KeyboardNo::numbered(from);
        if e.down {
            self.press(from, e.code, t, s, m)
        } else {
            self.release(from, e.code, s)
        }
    }

    /// The keyboard `from` is unplugged: its keys are released and send nothing. The accent or Compose
    /// that waits, the number and the keys of other keyboards stay. It looks at every keycode. If `from` is 4 or
    /// greater, no keyboard has this number, and nothing changes.
    pub fn unplug(&mut self, from: u8)
        ensures { self.new ≡ after_unplug from self.old }
    {
        if usize::from(from) < KEYBOARDS {
            self.held.unplug(KeyboardNo::numbered(from));
        } else {
            self.held.others_are_up(from);
        }
    }

    // A key goes down. Its weight is taken before it is recorded: this order is part of the rule.
    #[tactic(auto, unfolding(crate::specs::Step::press_step), using(crate::proofs::Outs::outs))]
    fn press(
        &mut self,
        from: KeyboardNo,
        code: u8,
        t: &KeyTables,
        s: &mut KbState,
        m: KeyModes,
    ) -> ShortOut
        ensures { press_step t.now m from code self.old s.old
            ≡ step self.new s.new (out_with t.now result) }
    {
        let weight = self.held.weight();
        let a = action_of(t, table_of(weight, s), is_on(s.flags, flag::CAPS), code);
        if !self.held.is_down(from, code) {
            self.held.press(from, code, a);
            self.perform(code, a, weight, t, s, m)
        } else if m.repeat && repeats(a) {
            self.perform(code, a, weight, t, s, m)
        } else {
            send_idle(s.mode, code, true)
        }
    }

    // A key goes up.
    #[tactic(auto, unfolding(crate::specs::Step::release_step), using(crate::proofs::Outs::outs))]
    fn release(&mut self, from: KeyboardNo, code: u8, s: &KbState) -> ShortOut
        ensures keys { self.new ≡ (release_step from code self.old s.now).keys }
        ensures state { (release_step from code self.old s.now).state ≡ s.now }
        ensures out { (tables : Tables) → out_with tables result ≡ (release_step from code self.old s.now).out }
    {
        let was_modifier = self.held.release(from, code);
        if acts_in(s.mode) && was_modifier {
            sent(self.take_number(s.mode))
        } else {
            send_idle(s.mode, code, false)
        }
    }

    // An action of a key that goes down or repeats.
    #[tactic(auto, unfolding(crate::specs::Step::acting_press_step), using(crate::proofs::Outs::outs))]
    fn perform(
        &mut self,
        code: u8,
        a: Action,
        weight: u8,
        t: &KeyTables,
        s: &mut KbState,
        m: KeyModes,
    ) -> ShortOut
        ensures { acting_press_step t.now m weight a code self.old s.old
            ≡ step self.new s.new (out_with t.now result) }
    {
        if !acts_in(s.mode) {
            return idle_out(s.mode, code, a);
        }
        let out = self.act(a, weight, t, s, m);
        spend(a, s);
        out
    }

    // Applies an action, by its kind.
    #[tactic(auto, unfolding(crate::specs::Step::action_step), using(crate::proofs::Outs::outs))]
    fn act(
        &mut self,
        a: Action,
        weight: u8,
        t: &KeyTables,
        s: &mut KbState,
        m: KeyModes,
    ) -> ShortOut
        ensures { action_step t.now m weight a self.old s.old
            ≡ step self.new s.new (out_with t.now result) }
    {
        let v = a.value;
        match a.kind {
            kind::HOLE | kind::MODIFIER => ShortOut::Nothing,
            kind::CHARACTER | kind::LETTER => self.type_character(t, v, s),
            kind::META => sent(meta_bytes(s.meta, v as u8)),
            kind::FUNCTION => ShortOut::Function(v as u8),
            kind::PAD => pad_out(m, weight, s.flags, v),
            kind::CURSOR => sent(cursor_bytes(m.cursor, v)),
            kind::DEAD => self.type_accent(t, v, s),
            kind::LOCK => {
                s.locks ^= modifier_weight(v);
                ShortOut::Nothing
            }
            kind::STICKY => {
                s.sticky ^= modifier_weight(v);
                ShortOut::Nothing
            }
            kind::CONSOLE => ShortOut::Switch(v as u8),
            kind::SPECIAL => self.act_special(v, s, m),
            _ => self.add_digit(v),
        }
    }

    // Applies a special action.
    #[tactic(auto, unfolding(crate::specs::Step::special), using(crate::proofs::Outs::outs))]
    fn act_special(&mut self, v: u16, s: &mut KbState, m: KeyModes) -> ShortOut
        ensures { (tables : Tables) → special m v self.old s.old
            ≡ step self.new s.new (out_with tables result) }
    {
        match v {
            special::RETURN => return sent(return_bytes(m.newline)),
            special::CAPS_LOCK => s.flags ^= flag::CAPS,
            special::NUM_LOCK => return num_lock(s, m.keypad),
            special::SCROLL_LOCK => s.flags ^= flag::SCROLL,
            special::LAST_CONSOLE => return ShortOut::Last,
            special::INCR_CONSOLE => return ShortOut::Next,
            special::DECR_CONSOLE => return ShortOut::Prev,
            special::KEYBOARD_SIGNAL => return ShortOut::Spawn,
            special::SAK => return ShortOut::Attention,
            special::COMPOSE => self.waiting.composing = true,
            special::BARE_NUM_LOCK => s.flags ^= flag::NUM,
            special::CAPS_ON => s.flags |= flag::CAPS,
            _ => {}
        }
        ShortOut::Nothing
    }

    // A character is typed.
    #[tactic(auto, using(crate::proofs::Outs::outs))]
    fn type_character(&mut self, t: &KeyTables, code: u16, s: &KbState) -> ShortOut
        ensures { types (character t.now.pairs self.old.waiting code) self.old s.now
            ≡ step self.new s.now (out_with t.now result) }
    {
        let (codes, waiting) = character(t, self.waiting, code);
        self.waiting = waiting;
        sent(characters_bytes(s.mode, codes))
    }

    // A dead key is typed.
    #[tactic(auto, using(crate::proofs::Outs::outs))]
    fn type_accent(&mut self, t: &KeyTables, v: u16, s: &KbState) -> ShortOut
        ensures { types (dead t.now.pairs self.old.waiting (accent_of v)) self.old s.now
            ≡ step self.new s.now (out_with t.now result) }
    {
        let (codes, waiting) = dead(t, self.waiting, accent_of(v));
        self.waiting = waiting;
        sent(characters_bytes(s.mode, codes))
    }

    // Adds a digit to the number that is kept.
    fn add_digit(&mut self, digit: u16) -> ShortOut
        requires { digit ≤ 9 }
        ensures keys { self.new ≡ record self.old { number = Some (number_with self.old.number digit) } }
        ensures out { result ≡ ShortOut.Nothing }
    {
        let before = u32::from(self.number.unwrap_or(0));
        let number = (10 * before + u32::from(digit)).min(65535);
        self.number = Some(number as u16);
        ShortOut::Nothing
    }

    // The number that is kept, as a character.
    fn take_number(&mut self, mode: u8) -> FewBytes
        ensures keys { self.new ≡ record self.old { number = None } }
        ensures bytes { result ≡ number_bytes mode self.old.number }
    {
        let mut bytes = FewBytes::new();
        if let Some(code) = self.number {
            add(&mut bytes, mode, code);
        }
        self.number = None;
        bytes
    }
}
