//! The items of switches, read from one trace after another.
ghost use Rattle.std.specs.Prelude.{◌≡◌, ◌≤◌, [], Some, None, count_by, length, OnOk};
ghost use Rattle.vt_explain.specs.Finding.{asked_by, cause_of, hear, hear_all, is_at, item_of, with_last_signal};
ghost use Rattle.vt_switch.specs.News.{news};
ghost use Rattle.vt_switch.specs.News.News.{Going};

use crate::last_ask::LastAsk;
use crate::{HopCause, HopWhy};
use std::alloc::Global;
use std::marker::Model;
use vt_base::{ConsoleNo, NoMemory, Signal};
use vt_check::Witness;
use vt_events::Entry;
use vt_switch::{Cause, Hop, Mark};
use vt_world::World;

/// The items of the switches that were read, and the owner that was asked last to let the display go.
#[derive(Drop)]
pub(crate) struct Reader {
    made: Vec<HopWhy>,
    last: Option<LastAsk>,
}

impl Model for Reader {
    ghost use Rattle.vt_explain.specs.Finding.{Known};

    ghost Value = { Known };

    ghost view = { λ r. record { items = r.made.items; last = r.last } };
}

impl Reader {
    /// Nothing was read yet.
    pub(crate) fn new(alloc: Global) -> Reader
        ensures { result ≡ record { items = []; last = None } }
    {
        Reader {
            made: Vec::new(alloc),
            last: None,
        }
    }

    /// The items, in the order of the switches.
    pub(crate) fn into_items(self) -> Vec<HopWhy>
        ensures { result.items ≡ self.items }
    {
        self.made
    }

    /// Reads the trace of the entry at this index, of which nothing was read yet.
    pub(crate) fn read(&mut self, at: u32, trace: &[Mark]) -> Result<(), NoMemory>
        requires new { count_by (is_at at) self.old.items ≡ 0 }
        requires few { length trace.now ≤ 65_536 }
        ensures { OnOk result (self.new ≡ hear_all at (news trace.now) self.old) }
    {
        let mut asked: Option<ConsoleNo> = None;
        let mut nth: u32 = 0;
        for mark in trace {
            match mark {
                Mark::Raised { signal, .. } => self.raised(at, &asked, *signal),
                Mark::Hopped(hop) => {
                    self.hopped(at, nth, hop)?;
                    nth += 1;
                }
                _ => {}
            }
            asked = asked_by(mark);
        }
        Ok(())
    }

    // Reads a signal that is raised: if the mark right before it is a request, the signal asks the owner to let
    // go.
    fn raised(&mut self, at: u32, asked: &Option<ConsoleNo>, signal: Signal)
        ensures { self.new ≡ with_last_signal at asked.now signal self.old }
    {
        if asked.is_some() {
            self.last = Some(LastAsk { entry: at, signal });
        }
    }

    // Reads a switch: its item is added.
    fn hopped(&mut self, at: u32, nth: u32, hop: &Hop) -> Result<(), NoMemory>
        requires { nth ≡ count_by (is_at at) self.old.items }
        ensures { OnOk result (self.new ≡ hear at (Going hop.now) self.old) }
    {
        let item = item_of(at, nth, hop, &self.last);
        self.made.extend_from_slice(&[item])?;
        Ok(())
    }
}

impl Witness for Reader {
    ghost use Rattle.std.specs.Prelude.{⊤};
    ghost use Rattle.vt_explain.specs.Finding.{HasRead};

    ghost saw = { λ first start entries now. HasRead start entries now };

    // A reader is dropped if memory runs out.
    ghost saw_part = { λ first start entries next now. ⊤ };

    fn see(
        &mut self,
        _alloc: Global,
        place: u32,
        _entry: &Entry,
        after: &World,
    ) -> Result<(), NoMemory> {
        self.read(place, after.trace())?;
        Ok(())
    }
}

// The console that the mark requests.
fn asked_by(mark: &Mark) -> Option<ConsoleNo>
    ensures { result ≡ asked_by mark.now }
{
    match mark {
        Mark::Asked(to) => Some(*to),
        _ => None,
    }
}

// The item of a switch, by the last request to an owner.
fn item_of(at: u32, nth: u32, hop: &Hop, last: &Option<LastAsk>) -> HopWhy
    ensures { result ≡ item_of at nth hop.now last.now }
{
    HopWhy {
        at,
        nth,
        from: hop.from,
        to: hop.to,
        cause: cause_of(hop.cause, last),
    }
}

// The cause of a switch, by the last request to an owner.
fn cause_of(cause: Cause, last: &Option<LastAsk>) -> HopCause
    ensures { result ≡ cause_of cause last.now }
{
    match last {
        Some(ask) => asked_cause(cause, ask),
        None => HopCause::Free,
    }
}

fn asked_cause(cause: Cause, ask: &LastAsk) -> HopCause
    ensures { result ≡ cause_of cause (Some ask.now) }
{
    match cause {
        Cause::Free => HopCause::Free,
        Cause::Released(owner) => HopCause::Released {
            owner,
            asked: ask.entry,
            signal: ask.signal,
        },
        Cause::Died(owner) => HopCause::Died {
            owner,
            asked: ask.entry,
            signal: ask.signal,
        },
    }
}
