ghost use Rattle.std.specs.Prelude.{◌≡◌, ◌<◌, ◌≤◌, ◌+◌, ◌*◌, [], None, cond, is_some, nat_lt, IfSome};
ghost use Rattle.key_machine.specs.Held.{left_to, modifier_of};
ghost use Rattle.key_machine.specs.Keys.{recorded_action, weight_of, with_key, without_key, without_keyboard};
ghost use Rattle.key_machine.specs.Step.{was_modifier};

mod same;

use key_syms::{Action, KEYCODES, kind};
use std::marker::Model;
use vt_base::KeyboardNo;

/// The keys that are down on all keyboards, each with the action of its press.
#[derive(Debug, Drop)]
pub(crate) struct HeldKeys {
    // By keyboard and keycode.
    entries: [Option<Action>; 1024],
    // How many keys are down as each modifier.
    counts: [u16; 8],
}

impl Model for HeldKeys {
    ghost use Rattle.std.specs.Prelude.{List};
    ghost use Rattle.key_machine.specs.Held.{IsCounted, downs};
    ghost use Rattle.key_machine.specs.Keys.{Down};

    ghost Value = { List Down };

    ghost view = { λ h. downs h.entries };

    ghost invariant = { λ h. IsCounted h.entries h.counts };
}

impl HeldKeys {
    #[tactic(auto, unfolding(crate::specs::Held::downs))]
    pub(crate) fn none() -> HeldKeys
        ensures { result ≡ [] }
    {
        HeldKeys {
            entries: [None; 1024],
            counts: [0; 8],
        }
    }

    #[tactic(auto, using(crate::proofs::Downs::entries_as_keys))]
    pub(crate) fn is_down(&self, from: KeyboardNo, code: u8) -> bool
        ensures { result ≡ is_some (recorded_action self.now from code) }
    {
        self.entries[place(from, code)].is_some()
    }

    /// The key goes down with this action.
    #[tactic(auto, using(crate::proofs::Downs::entries_as_keys))]
    pub(crate) fn press(&mut self, from: KeyboardNo, code: u8, a: Action)
        requires { recorded_action self.old from code ≡ None }
        ensures { self.new ≡ with_key self.old from code a }
    {
        self.entries[place(from, code)] = Some(a);
        if let Some(v) = modifier_of(a) {
            self.counts[v] += 1;
        }
    }

    /// The key goes up. Returns whether it was down as a modifier.
    #[tactic(auto, using(crate::proofs::Downs::entries_as_keys))]
    pub(crate) fn release(&mut self, from: KeyboardNo, code: u8) -> bool
        ensures was { result ≡ was_modifier (recorded_action self.old from code) }
        ensures up { self.new ≡ without_key self.old from code }
    {
        let at = place(from, code);
        let was = self.entries[at];
        self.entries[at] = None;
        let Some(a) = was else {
            return false;
        };
        let Some(v) = modifier_of(a) else {
            return false;
        };
        self.counts[v] -= 1;
        true
    }

    /// The keyboard is unplugged: all its keys go up.
    pub(crate) fn unplug(&mut self, from: KeyboardNo)
        ensures { self.new ≡ without_keyboard self.old from }
    {
        self.has_bytes(from);
        for code in 0..KEYCODES {
            let _ = self.release(from, code as u8); // the result has no use here
        }
    }

    // Does nothing. It is called for its clause: every keycode is below 256.
    fn has_bytes(&self, from: KeyboardNo)
        ensures { left_to from 256 self.now ≡ without_keyboard self.now from }
    {
        let _entries = &self.entries;
    }

    /// Does nothing. It is called for its clause: the keyboards are 0 to 3, so all keys of one with a greater
    /// number are up.
    pub(crate) fn others_are_up(&self, from: u8)
        requires { 4 ≤ from }
        ensures { without_keyboard self.now from ≡ self.now }
    {
        let _entries = &self.entries;
    }

    /// The modifier weight of the keys that are down.
    pub(crate) fn weight(&self) -> u8
        ensures { result ≡ weight_of self.now }
    {
        let counts = &self.counts;
        weight(counts[0], 1)
            + weight(counts[1], 2)
            + weight(counts[2], 4)
            + weight(counts[3], 8)
            + weight(counts[4], 16)
            + weight(counts[5], 32)
            + weight(counts[6], 64)
            + weight(counts[7], 128)
    }
}

// The place of a key: the keys of a keyboard are next to each other, by their keycodes.
fn place(from: KeyboardNo, code: u8) -> usize
    ensures place { result ≡ 256 * from + code }
    ensures high { result < 1024 }
{
    KEYCODES * usize::from(from.get()) + usize::from(code)
}

// The modifier that an action is, if it is one.
fn modifier_of(a: Action) -> Option<usize>
    ensures value { result ≡ modifier_of a }
    ensures small { IfSome result (λ v. v < 8) }
{
    if a.kind == kind::MODIFIER {
        Some(usize::from(a.value))
    } else {
        None
    }
}

// The weight of a modifier as which so many keys are down.
fn weight(count: u16, weight: u8) -> u8
    ensures { result ≡ cond (nat_lt 0 count) weight 0 }
{
    if count > 0 { weight } else { 0 }
}
