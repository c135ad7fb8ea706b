ghost use Rattle.std.specs.Prelude.{◌≡◌, ◌≤◌, true, length};
ghost use Rattle.std.specs.List.{All};
ghost use Rattle.vt_base.specs.ConsoleSet.{IsFitSet};
ghost use Rattle.vt_procs.specs.Callers.{IsFitCount};
ghost use Rattle.session_text.specs.Sessions.{ArePrograms, IsSession, acts_of};
ghost use Rattle.session_text.specs.Turns.{is_there};

use crate::Program;
use key_tables::KeyTables;
use sig_hooks::HookTable;
use std::marker::Model;
use vt_base::{Bytes, CallerNo};
use vt_journal::Limits;
use vt_procs::Config;

/// A session: the start of a machine, the programs of its callers, and their turns.
#[derive(Drop)]
pub struct Session {
    config: Config,
    tables: KeyTables,
    limits: Limits,
    turns: Bytes,
    programs: Vec<Program>,
}

impl Model for Session {
    ghost use Rattle.session_text.specs.Sessions.{IsSession, SessionView};

    ghost Value = { SessionView };

    ghost view = { λ s. record {
      config = s.config;
      tables = s.tables;
      limits = s.limits;
      turns = s.turns.bytes;
      programs = s.programs.items;
    } };

    ghost invariant = { λ s. IsSession (record {
      config = s.config;
      tables = s.tables;
      limits = s.limits;
      turns = s.turns.bytes;
      programs = s.programs.items;
    }) };
}

impl Session {
    /// A session of these parts: there is a program for each caller, the first keyboard's, then the
    /// processes' in their order, and then the further keyboards'.
    pub fn make(
        config: Config,
        tables: KeyTables,
        limits: Limits,
        turns: Bytes,
        programs: Vec<Program>,
    ) -> Session
        requires { IsSession (record {
          config = config;
          tables = tables;
          limits = limits;
          turns = turns.bytes;
          programs = programs.items;
        }) }
        ensures { result ≡ record {
          config = config;
          tables = tables;
          limits = limits;
          turns = turns.bytes;
          programs = programs.items;
        } }
    {
        Session {
            config,
            tables,
            limits,
            turns,
            programs,
        }
    }

    /// The start of the machine.
    pub fn config(&self) -> &Config
        ensures same { result.now ≡ self.now.config }
        ensures fit { IsFitSet result.now.consoles result.now.front }
        ensures keyboards { IsFitCount result.now.keyboards }
    {
        &self.config
    }

    /// The key tables.
    pub fn key_tables(&self) -> &KeyTables
        ensures { result.now ≡ self.now.tables }
    {
        &self.tables
    }

    /// The limits of the journal.
    pub fn limits(&self) -> Limits
        ensures same { result ≡ self.now.limits }
        ensures events { result.events ≤ 1_000_000 }
        ensures bytes { result.bytes ≤ 1_073_741_824 }
    {
        self.limits
    }

    /// The turns: the callers, by number, that make the first calls one after another.
    pub fn turns(&self) -> &[u8]
        ensures same { result.now ≡ self.now.turns }
        ensures callers { All
            (λ t. is_there (length self.now.config.procs) self.now.config.keyboards t ≡ true)
            result.now }
    {
        self.turns.as_slice()
    }

    /// The programs of the callers: the first keyboard's, then the processes' in their order, and then
    /// the further keyboards'. `program_of` finds the one of a caller.
    pub fn programs(&self) -> &[Program]
        ensures same { result.now ≡ self.now.programs }
        ensures are { ArePrograms (length self.now.config.procs) self.now.config.keyboards result.now }
    {
        self.programs.as_slice()
    }

    /// The acts of process `p` at signals.
    pub fn table(&self, p: CallerNo) -> &HookTable
        requires low { 1 ≤ p }
        requires high { p ≤ length self.now.config.procs }
        ensures { result.now ≡ acts_of self.now p }
    {
        match &self.programs[usize::from(p.get())] {
            Program::Script { hooks, .. } => hooks,
            Program::Keys(_) => unreachable!(),
        }
    }
}
