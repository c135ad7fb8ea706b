ghost use Rattle.std.specs.Prelude.{◌≡◌, ◌≤◌, ◌-◌, [], IfOk, length, option_copied, replicate, slice_get};
ghost use Rattle.machine.specs.History.{world_of};
ghost use Rattle.machine.specs.MachineState.{IsContinued, ObeysLaws, forgotten};
ghost use Rattle.vt_base.specs.ConsoleSet.{IsFitSet};
ghost use Rattle.vt_procs.specs.Callers.{IsFitCount};

use crate::counts::no_calls;
use key_tables::KeyTables;
use std::alloc::Global;
use std::marker::Model;
use vt_base::{CALLERS, NoMemory};
use vt_events::Entry;
use vt_journal::{Limits, Log};
use vt_procs::Config;
use vt_world::World;

/// A machine and the journal of its last calls.
#[derive(Drop)]
pub struct Machine {
    pub(crate) config: Config,
    pub(crate) tables: KeyTables,
    pub(crate) world: World,
    pub(crate) log: Log,
    /// How many entries are gone from the journal, at most the greatest u64.
    pub(crate) gone: u64,
    /// How many calls each caller has made.
    pub(crate) made: [u32; CALLERS],
}

impl Model for Machine {
    ghost use Rattle.machine.specs.MachineState.{IsContinued, MachineState};

    ghost Value = { MachineState };

    ghost view = { λ m. record {
      start = record { config = m.config; tables = m.tables };
      world = m.world;
      made = m.made;
      gone = m.gone;
      log = m.log;
    } };

    ghost invariant = { λ m. IsContinued (record {
      start = record { config = m.config; tables = m.tables };
      world = m.world;
      made = m.made;
      gone = m.gone;
      log = m.log;
    }) };
}

impl Machine {
    /// A machine at its start, with an empty journal. All memory for entries within the limits is allocated
    /// here.
    pub fn new(
        alloc: Global,
        config: Config,
        tables: KeyTables,
        limits: Limits,
    ) -> Result<Machine, NoMemory>
        requires consoles { IsFitSet config.consoles config.front }
        requires keyboards { IsFitCount config.keyboards }
        requires events { limits.events ≤ 1_000_000 }
        requires bytes { limits.bytes ≤ 1_073_741_824 }
        ensures { IfOk result (λ m. m ≡ record {
          start = record { config = config; tables = tables };
          world = world_of (record { config = config; tables = tables });
          made = replicate 68 0;
          gone = 0;
          log = record { entries = []; limits = limits };
        }) }
    {
        let _few = config.procs.as_slice(); // it says that the processes are few
        let world = World::start(alloc, &config, &tables)?;
        let log = Log::with_room(alloc, limits.events, limits.bytes)?;
        Ok(Machine {
            config,
            tables,
            world,
            log,
            gone: 0,
            made: no_calls(),
        })
    }

    /// Does nothing. It is called for its clause: with the calls that are gone from the journal, its calls
    /// are a legal history from the start, which leaves the world.
    pub fn stays_legal(&self)
        ensures { IsContinued self.now }
    {
        let _ = &self.config;
    }

    /// Does nothing. It is called for its clause: the display law and the screen law of all calls.
    pub fn stays_lawful(&self)
        ensures { ObeysLaws self.now }
    {
        let _ = &self.config;
    }

    /// Empties the journal, for instance after its lines were written to a file. Its memory stays.
    pub fn forget(&mut self)
        ensures { self.new ≡ forgotten self.old }
    {
        self.gone = self.gone.saturating_add(self.log.entries().len() as u64);
        self.log.clear();
    }

    /// How the machine started.
    pub fn config(&self) -> &Config
        ensures { result.now ≡ self.now.start.config }
    {
        &self.config
    }

    /// The world after all calls.
    pub fn world(&self) -> &World
        ensures { result.now ≡ self.now.world }
    {
        &self.world
    }

    /// The journal of the last calls.
    pub fn log(&self) -> &Log
        ensures { result.now ≡ self.now.log }
    {
        &self.log
    }

    /// How many entries are gone from the journal, at most the greatest u64.
    pub fn gone(&self) -> u64
        ensures { result ≡ self.now.gone }
    {
        self.gone
    }

    /// The entry of the last call, unless it is gone from the journal.
    pub fn last(&self) -> Option<&Entry>
        ensures { option_copied result ≡ slice_get self.now.log.entries (length self.now.log.entries - 1) }
    {
        self.log.entries().last()
    }
}
