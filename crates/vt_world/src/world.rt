ghost use Rattle.std.specs.List.{list_any, range_with_len};
ghost use Rattle.std.specs.Prelude.{◌≡◌, ◌≤◌, IfOk, is_some, length, option_copied};
ghost use Rattle.vt_procs.specs.Callers.{IsFitCount, caller_at, console_of, is_live};
ghost use Rattle.vt_base.specs.Limits.{consoles};
ghost use Rattle.vt_switch.specs.Calls.{owns};
ghost use Rattle.vt_switch.specs.Display.{console, is_allocated, owner_of};
ghost use Rattle.vt_switch.specs.Law.{OwnersLive};
ghost use Rattle.vt_base.specs.ConsoleSet.{IsFitSet};
ghost use Rattle.vt_world.specs.Inputs.{input_at};
ghost use Rattle.vt_world.specs.Rights.{admitted, is_unused};
ghost use Rattle.vt_world.specs.Start.{start_world};
ghost use Rattle.vt_world.specs.State.{core, is_waiting};
ghost use Rattle.vt_world.specs.Terminals.{bells_of, emu_of, terminal_at};

mod getters;
mod same;

use crate::inputs::Inputs;
use crate::keyboard_set::KeyboardSet;
use crate::terminals::Terminals;
use crate::trace::Trace;
use in_queue::InQueue;
use key_tables::KeyTables;
use std::alloc::Global;
use std::marker::Model;
use vt_base::{CallerNo, ConsoleNo, NoMemory, Size};
use vt_grid::Grid;
use vt_procs::{Config, ProcStart, Procs, Waited, Waiting};
use vt_screen::Emu;
use vt_switch::{Mark, Switch};

/// The machine: all consoles with their screens and their input, the display, the callers, the
/// keyboards, and the marks of the last event.
#[derive(Drop)]
pub struct World {
    pub(crate) size: Size,
    pub(crate) switch: Switch,
    pub(crate) procs: Procs,
    pub(crate) terminals: Terminals,
    pub(crate) inputs: Inputs,
    pub(crate) board: KeyboardSet,
    pub(crate) trace: Trace,
    // A grid that a call allocated and didn't use, for a later call. Contracts don't see it.
    pub(crate) kept: Option<Grid>,
}

impl Model for World {
    ghost use Rattle.vt_world.specs.State.{WorldState};

    ghost Value = { WorldState };

    ghost view = { λ w. record {
      rows = w.size.rows;
      cols = w.size.cols;
      display = w.switch;
      callers = w.procs;
      terminals = w.terminals;
      inputs = w.inputs;
      board = w.board;
      trace = w.trace;
    } };

    ghost use Rattle.vt_world.specs.State.{IsWorld};

    ghost invariant = { λ w. IsWorld w.terminals w.switch w.procs };
}

impl World {
    /// The start: all consoles of the set are new, every keyboard and every process is alive and
    /// has nothing open, no key is down, and the key tables are these. All memory for typed input
    /// is allocated here.
    pub fn start(alloc: Global, c: &Config, t: &KeyTables) -> Result<World, NoMemory>
        requires consoles { IsFitSet c.now.consoles c.now.front }
        requires keyboards { IsFitCount c.now.keyboards }
        ensures { IfOk result (λ w. w ≡ start_world c.now.size.rows c.now.size.cols c.now.consoles
            c.now.front c.now.keyboards c.now.procs t.now) }
    {
        let terminals = Terminals::start(alloc, c.size, c.consoles)?;
        let inputs = Inputs::start(alloc)?;
        let tables = t.copy(alloc)?;
        let trace = Trace::start(alloc)?;
        Ok(World {
            size: c.size,
            switch: Switch::start(c.front, c.consoles),
            procs: Procs::start(c.procs.as_slice(), c.keyboards),
            terminals,
            inputs,
            board: KeyboardSet::start(tables),
            trace,
            kept: None,
        })
    }

    /// Sets the console that `p` may handle without privilege, and whether it may handle every console. If
    /// `p` has made no call, the machine is as if it had started so ([`crate::rights_are_own`]).
    pub fn admit(&mut self, p: CallerNo, rights: ProcStart)
        ensures { self.new ≡ admitted p rights self.old }
    {
        self.procs.set_rights(p, rights);
    }

    /// Whether the caller is alive.
    pub fn live(&self, p: CallerNo) -> bool
        ensures { result ≡ is_live self.now.callers p }
    {
        self.procs.live(p)
    }

    /// Whether another program can have the process: it is alive, and has and handles nothing. It looks at
    /// every descriptor and every console.
    pub fn is_unused(&self, p: CallerNo) -> bool
        ensures { result ≡ is_unused self.now p }
    {
        self.procs.has_nothing(p) && !self.owns_any(p)
    }

    // Whether the process handles the switches of any console.
    fn owns_any(&self, p: CallerNo) -> bool
        ensures { result ≡ list_any (λ c. owns self.now.display p c) (range_with_len 1 consoles) }
    {
        ConsoleNo::all().iter().any(|c| self.switch.owns(p, *c))
    }

    /// Does nothing. It is called for its clause: every process that handles the switches of a console is
    /// alive.
    pub fn owners_live(&self)
        ensures { OwnersLive (core self.now) }
    {
        let _ = &self.switch;
    }

    /// The console that has the display.
    pub fn display(&self) -> ConsoleNo
        ensures { result ≡ self.now.display.front }
    {
        self.switch.front()
    }

    /// The screen of the console, if it is allocated.
    pub fn screen(&self, c: ConsoleNo) -> Option<&Emu>
        ensures screen { option_copied result ≡ emu_of (terminal_at self.now.terminals c) }
        ensures allocated { is_some result ≡ is_allocated self.now.display c }
    {
        match self.terminals.at(c) {
            Some(terminal) => Some(terminal.emu()),
            None => None,
        }
    }

    /// The console's count of BELs: 0 if the console isn't allocated.
    pub fn bells(&self, c: ConsoleNo) -> u32
        ensures { result ≡ bells_of (terminal_at self.now.terminals c) }
    {
        match self.terminals.at(c) {
            Some(terminal) => terminal.bells(),
            None => 0,
        }
    }

    /// The bytes of a console's input.
    pub fn queue(&self, c: ConsoleNo) -> &InQueue
        ensures { result.now ≡ (input_at self.now.inputs c).queue }
    {
        self.inputs.queue(c)
    }

    /// The rows and columns of every new screen.
    pub fn size(&self) -> Size
        ensures rows { result.rows ≡ self.now.rows }
        ensures cols { result.cols ≡ self.now.cols }
    {
        self.size
    }

    /// The marks of the last event, in order: its effects on the display and on the callers. There
    /// are none before the first event, and none if the event was refused.
    pub fn trace(&self) -> &[Mark]
        ensures marks { result.now ≡ self.now.trace.marks }
        ensures few { length result.now ≤ 3072 }
    {
        self.trace.marks()
    }

    /// The number of switches of the display since the start, at most the greatest u64.
    pub fn hops(&self) -> u64
        ensures { result ≡ self.now.trace.hops }
    {
        self.trace.hops()
    }

    /// The console that a descriptor of the caller is open on.
    pub fn console_of(&self, p: CallerNo, fd: u16) -> Option<ConsoleNo>
        ensures { result ≡ console_of self.now.callers p fd }
    {
        self.procs.console_of(p, fd)
    }

    /// Whether the caller waits.
    pub fn waiting(&self, p: CallerNo) -> bool
        ensures { result ≡ is_waiting self.now p }
    {
        self.procs.ticket(p) == Waited::Still
    }

    /// The caller's wait: none, open with what it waits for, or how it ended.
    pub fn wait_of(&self, p: CallerNo) -> Waiting
        ensures { result ≡ (caller_at self.now.callers p).waiting }
    {
        self.procs.wait_of(p)
    }

    /// The console that waits for the display.
    pub fn pending_console(&self) -> Option<ConsoleNo>
        ensures { result ≡ self.now.display.pending }
    {
        self.switch.pending()
    }

    /// The process that handles the switches of the console.
    pub fn owner(&self, c: ConsoleNo) -> Option<CallerNo>
        ensures { result ≡ owner_of (console self.now.display c).handling }
    {
        self.switch.owner(c)
    }
}
