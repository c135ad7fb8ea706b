//! Facts about actions, and their effects on a key state.
ghost use Rattle.std.specs.Prelude.{◌≡◌, ◌≤◌, ◌^◌, [], ◌∷◌, if◌then◌else◌};
ghost use Rattle.key_machine.specs.Bytes.{idle_bytes};
ghost use Rattle.key_machine.specs.Keys.{is_on, table_of};
ghost use Rattle.key_machine.specs.Numbers.{NUM};
ghost use Rattle.key_machine.specs.ShortOuts.{out_with, short_of};
ghost use Rattle.key_machine.specs.Step.{action_of, acts_in, changes_flag, flips, idle_out, keeps_sticky, repeats, after_sticky_use};
ghost use Rattle.key_tables.specs.Tables.{Tables};

use crate::bytes::{code_bytes, sent};
use crate::{FewBytes, KbState, ShortOut, flag, mode, special};
use key_syms::{Action, kind};
use key_tables::KeyTables;

/// The action of a keycode in a table.
#[tactic(auto, unfolding(crate::specs::Step::action_of))]
pub(crate) fn action_of(t: &KeyTables, table: u8, caps: bool, code: u8) -> Action
    ensures { result ≡ action_of t.now table caps code }
{
    let hole = Action {
        kind: kind::HOLE,
        value: 0,
    };
    let a = t.entry(table, code).unwrap_or(hole);
    if a.kind == kind::LETTER && caps {
        t.entry(table ^ 1, code).unwrap_or(a)
    } else {
        a
    }
}

/// Whether the sticky modifiers stay on for the next key.
#[tactic(auto, unfolding(crate::specs::Step::keeps_sticky))]
pub(crate) fn keeps_sticky(a: Action) -> bool
    ensures { result ≡ keeps_sticky a }
{
    matches!(a.kind, kind::MODIFIER | kind::STICKY | kind::HOLE)
}

/// Whether a held key repeats the action.
#[tactic(auto, unfolding(crate::specs::Step::repeats))]
pub(crate) fn repeats(a: Action) -> bool
    ensures { result ≡ repeats a }
{
    match a.kind {
        kind::MODIFIER | kind::LOCK | kind::STICKY => false,
        kind::SPECIAL => !changes_flag(a.value),
        _ => true,
    }
}

// Whether a special changes a flag.
fn changes_flag(v: u16) -> bool
    ensures { result ≡ changes_flag v }
{
    matches!(
        v,
        special::CAPS_LOCK
            | special::NUM_LOCK
            | special::SCROLL_LOCK
            | special::BARE_NUM_LOCK
            | special::CAPS_ON
    )
}

/// Whether a flag is on.
pub(crate) fn is_on(flags: u8, flag: u8) -> bool
    ensures { result ≡ is_on flags flag }
{
    flags & flag != 0
}

/// The weight of a modifier.
pub(crate) fn modifier_weight(v: u16) -> u8
    requires { v ≤ 7 }
    ensures { result ≡ 2 ^ v }
{
    match v {
        0 => 1,
        1 => 2,
        2 => 4,
        3 => 8,
        4 => 16,
        5 => 32,
        6 => 64,
        _ => 128,
    }
}

/// Whether all actions act in a mode.
pub(crate) fn acts_in(mode: u8) -> bool
    ensures { result ≡ acts_in mode }
{
    mode == mode::XLATE || mode == mode::UNICODE
}

/// The table in use, with the weight of the modifiers that are down.
pub(crate) fn table_of(weight: u8, s: &KbState) -> u8
    ensures { result ≡ table_of weight s.now }
{
    (weight | s.sticky) ^ s.locks
}

/// Removes the sticky modifiers, unless the action keeps them.
pub(crate) fn spend(a: Action, s: &mut KbState)
    ensures { s.new ≡ after_sticky_use a s.old }
{
    if !keeps_sticky(a) {
        s.sticky = 0;
    }
}

/// NumLock changes its flag, or sends PF1 of the pad.
pub(crate) fn num_lock(s: &mut KbState, keypad: bool) -> ShortOut
    ensures state { s.new ≡ (if keypad then s.old else flips NUM s.old) }
    ensures out { result ≡ (if keypad then short_of (0x1B ∷ 0x4F ∷ 0x50 ∷ []) else ShortOut.Nothing) }
{
    if keypad {
        return sent(FewBytes::of(b"\x1BOP"));
    }
    s.flags ^= flag::NUM;
    ShortOut::Nothing
}

/// The output of a key that doesn't act.
pub(crate) fn send_idle(mode: u8, code: u8, down: bool) -> ShortOut
    ensures { result ≡ short_of (idle_bytes mode code down) }
{
    if mode == mode::MEDIUMRAW {
        sent(code_bytes(code, down))
    } else {
        ShortOut::Nothing
    }
}

/// The output of a press in a mode in which only SAK and the modifiers act.
#[tactic(auto, using(crate::proofs::Outs::outs))]
pub(crate) fn idle_out(mode: u8, code: u8, a: Action) -> ShortOut
    ensures { (tables : Tables) → out_with tables result ≡ idle_out mode code a }
{
    if a.kind == kind::SPECIAL && a.value == special::SAK {
        ShortOut::Attention
    } else {
        send_idle(mode, code, true)
    }
}
