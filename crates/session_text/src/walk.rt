ghost use Rattle.std.specs.Prelude.{◌≡◌, false, ◌∷◌, ◌++◌, List, [], Some, IfOk, drop};
ghost use Rattle.sig_hooks.specs.declared.act.Act.{Act};
ghost use Rattle.vt_events.specs.declared.event.Event.{Event};
ghost use Rattle.session_text.specs.Programs.{Call, call, calls_from, is_gone, next, scans, script, signals_in};
ghost use Rattle.vt_events.specs.Waits.{is_wait};
ghost use Rattle.session_text.specs.Walks.{Advances, HasActs, Stands, ahead};
ghost use Rattle.session_text.specs.declared.program.Program.{Program};
ghost use Rattle.session_text.specs.declared.program.Program.TheVariants as programs;

mod same;

use crate::acting::{act_call, first_act};
use crate::answers::{ends, is_gone, signals_in};
use crate::asks::Asks;
use crate::{Items, Program};
use sig_hooks::{Act, Handler, Hook, HookTable};
use std::alloc::Global;
use std::marker::Model;
use vt_base::{Bytes, NoMemory, SigSet};
use vt_events::{Event, Reply};

/// The signal from which no act is left: one past the greatest.
const NO_SIGNAL: u16 = 65;

/// A walk through a program, one call after another. It stands for the calls that were made so far.
#[derive(Drop)]
pub struct Walk {
    item: usize,
    taking: bool,
    given: SigSet,
    signal: u16,
    waiting: bool,
    over: bool,
}

impl Model for Walk {
    ghost use Rattle.std.specs.Prelude.{◌≤◌};
    ghost use Rattle.session_text.specs.Walks.{Place};

    ghost Value = { Place };

    ghost view = { λ w. record {
      item = w.item;
      taking = w.taking;
      given = w.given;
      signal = w.signal;
      waiting = w.waiting;
      over = w.over;
    } };

    ghost invariant = { λ w. 1 ≤ w.signal };
}

impl Walk {
    /// No call was made yet.
    pub fn start() -> Walk
        ensures { (p : Program) → Stands p result [] }
    {
        Walk {
            item: 0,
            taking: false,
            given: SigSet::empty(),
            signal: NO_SIGNAL,
            waiting: false,
            over: false,
        }
    }

    /// The next call, if the program isn't over.
    pub fn next(&self, alloc: Global, p: &Program) -> Result<Option<Event>, NoMemory>
        ensures { IfOk result (λ e. (made : List Call) → Stands p.now self.now made
            → e ≡ next p.now made) }
    {
        if self.over {
            return Ok(None);
        }
        if self.waiting {
            return Ok(Some(Event::WaitEnd));
        }
        match p {
            Program::Keys(bytes) => Ok(Some(self.scan_ahead(bytes))),
            Program::Script { items, hooks } => self.call_ahead(alloc, items, hooks),
        }
    }

    /// The next call, by asking the hook for each signal that is left, rising, up to the first whose
    /// act isn't nothing.
    pub fn next_by<F: Handler>(
        &self,
        alloc: Global,
        p: &Program,
        h: &Hook<F>,
    ) -> Result<Option<Event>, NoMemory>
        requires { HasActs p.now h.now }
        ensures { IfOk result (λ e. (made : List Call) → Stands p.now self.now made
            → e ≡ next p.now made) }
    {
        if self.over {
            return Ok(None);
        }
        if self.waiting {
            return Ok(Some(Event::WaitEnd));
        }
        match p {
            Program::Keys(bytes) => Ok(Some(self.scan_ahead(bytes))),
            Program::Script { items, .. } => self.call_ahead(alloc, items, h),
        }
    }

    /// Records that the next call was made with this answer.
    pub fn took(&mut self, p: &Program, r: &Reply)
        ensures { (made : List Call) (e : Event) → Stands p.now self.old made
            → next p.now made ≡ Some e → Stands p.now self.new (made ++ call e r.now ∷ []) }
    {
        if self.over {
            return;
        }
        if self.waiting {
            self.answered(is_gone(r), r);
            return;
        }
        match p {
            Program::Keys(bytes) => self.took_scan(bytes, r),
            Program::Script { items, hooks } => self.took_call(items, hooks, r),
        }
    }

    // The scan byte that comes next, or exit.
    fn scan_ahead(&self, bytes: &Bytes) -> Event
        ensures { scans (drop self.now.item bytes.now.bytes) [] ≡ Some result }
    {
        match bytes.as_slice().get(self.item) {
            Some(b) => Event::Scan(*b),
            None => Event::Exit,
        }
    }

    // The next call of a script, by asking for the acts.
    fn call_ahead<H: Asks>(
        &self,
        alloc: Global,
        items: &Items,
        hooks: &H,
    ) -> Result<Option<Event>, NoMemory>
        ensures { IfOk result
            (λ e. e ≡ ahead (programs.Script items.now (H.acts hooks.now)) self.now []) }
    {
        if self.taking {
            return Ok(Some(Event::TakeSignals));
        }
        match first_act(hooks, self.given, self.signal) {
            Some(found) => act_call(alloc, found.act),
            None => self.item_ahead(alloc, items),
        }
    }

    // The item that comes next, or exit.
    fn item_ahead(&self, alloc: Global, items: &Items) -> Result<Option<Event>, NoMemory>
        ensures { IfOk result (λ e. (table : List Act)
            → e ≡ script table (drop self.now.item items.now.events) []) }
    {
        match items.as_slice().get(self.item) {
            Some(e) => Ok(Some(e.copy(alloc)?)),
            None => Ok(Some(Event::Exit)),
        }
    }

    // Records that a scan byte was called, or exit.
    fn took_scan(&mut self, bytes: &Bytes, r: &Reply)
        ensures { Advances (programs.Keys bytes.now) self.old r.now self.new }
    {
        if bytes.as_slice().len() <= self.item {
            self.answered(true, r);
            return;
        }
        self.item += 1;
        self.answered(is_gone(r), r);
    }

    // Records that a call of a script was made.
    fn took_call(&mut self, items: &Items, hooks: &HookTable, r: &Reply)
        ensures { Advances (programs.Script items.now hooks.now) self.old r.now self.new }
    {
        if self.taking {
            self.took_signals(r);
            return;
        }
        match first_act(hooks, self.given, self.signal) {
            Some(found) => {
                self.signal = found.signal + 1;
                self.answered(found.act == Act::Leave || is_gone(r), r);
            }
            None => self.took_item(items, r),
        }
    }

    // Records that the signals were taken.
    fn took_signals(&mut self, r: &Reply)
        ensures { self.new ≡ record self.old {
          taking = false;
          given = signals_in r.now;
          signal = 1;
          waiting = is_wait r.now;
          over = is_gone r.now;
        } }
    {
        self.taking = false;
        self.given = signals_in(r);
        self.signal = 1;
        self.answered(is_gone(r), r);
    }

    // Records that an item was called, or exit.
    fn took_item(&mut self, items: &Items, r: &Reply)
        requires { self.old.taking ≡ false }
        ensures { (table : List Act)
            → calls_from table self.old.given self.old.signal ≡ []
            → Advances (programs.Script items.now table) self.old r.now self.new }
    {
        let events = items.as_slice();
        if events.len() <= self.item {
            self.answered(true, r);
            return;
        }
        let ends = ends(&events[self.item], r);
        self.item += 1;
        self.taking = true;
        self.answered(ends, r);
    }

    // Records the answer of a call, which ends the program or doesn't.
    fn answered(&mut self, ends: bool, r: &Reply)
        ensures { self.new ≡ record self.old { waiting = is_wait r.now; over = ends } }
    {
        self.waiting = matches!(r, Reply::Wait);
        self.over = ends;
    }
}
