//! The acts that are left of the signals that a process was given.
ghost use Rattle.std.specs.Prelude.{◌≡◌, ◌≢◌, ◌+◌, ◌≤◌, None, [], ◌++◌, IfOk, IfSome, IfNone, is_none, option_to_list, if◌then◌else◌};
ghost use Rattle.session_text.specs.Programs.{act_call, calls_from};
ghost use Rattle.session_text.specs.Walks.{AreLeft};
ghost use Rattle.vt_base.specs.Signals.{with_signal};

use crate::asks::Asks;
use sig_hooks::Act;
use std::alloc::Global;
use vt_base::{Bytes, NoMemory, SigSet, Signal, with_adds_one};
use vt_events::Event;

/// An act, and the signal at which it is made.
#[derive(Clone, Copy)]
pub(crate) struct Found {
    pub signal: u16,
    pub act: Act,
}

/// The call that the act makes, unless it is nothing.
pub(crate) fn act_call(alloc: Global, act: Act) -> Result<Option<Event>, NoMemory>
    ensures { IfOk result (λ e. e ≡ act_call act) }
{
    Ok(match act {
        Act::Nothing => None,
        Act::Disp { fd, arg } => Some(Event::RelDisp(fd, arg)),
        Act::Put { fd, byte } => Some(Event::Write(fd, Bytes::from_slice(alloc, &[byte])?)),
        Act::Leave => Some(Event::Exit),
    })
}

/// The first act that isn't nothing, among the signals of the set from one on.
pub(crate) fn first_act<H: Asks>(hooks: &H, given: SigSet, from: u16) -> Option<Found>
    requires { 1 ≤ from }
    ensures found { IfSome result (λ found. calls_from (H.acts hooks.now) given from
        ≡ option_to_list (act_call found.act)
        ++ calls_from (H.acts hooks.now) given (found.signal + 1)) }
    ensures some { IfSome result (λ found. act_call found.act ≢ None) }
    ensures within { IfSome result (λ found. found.signal ≤ 64) }
    ensures none { IfNone result (calls_from (H.acts hooks.now) given from ≡ []) }
{
    let mut at = from;
    while at <= 64 {
        let Some(signal) = given.first_from(at) else {
            return None;
        };
        let act = hooks.ask_for(signal);
        if !is_nothing(act) {
            return Some(Found {
                signal: signal.get(),
                act,
            });
        }
        at = signal.get() + 1;
    }
    None
}

/// The signals of the set from one on whose acts make calls.
pub(crate) fn signals_left<H: Asks>(hooks: &H, given: SigSet, from: u16) -> SigSet
    requires { 1 ≤ from }
    ensures { AreLeft (H.acts hooks.now) given from result }
{
    with_adds_one();
    let mut left = SigSet::empty();
    let mut at = from;
    while at <= 64 {
        let Some(signal) = given.first_from(at) else {
            return left;
        };
        left = with_call(left, signal, hooks.ask_for(signal));
        at = signal.get() + 1;
    }
    left
}

// The set with the signal, if its act makes a call.
fn with_call(set: SigSet, signal: Signal, act: Act) -> SigSet
    ensures { result ≡ (if is_none (act_call act) then set else with_signal set signal) }
{
    if is_nothing(act) {
        set
    } else {
        set.with(signal)
    }
}

fn is_nothing(act: Act) -> bool
    ensures { result ≡ is_none (act_call act) }
{
    matches!(act, Act::Nothing)
}
