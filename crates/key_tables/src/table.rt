ghost use Rattle.std.specs.Prelude.{◌≡◌, ◌≢◌, replicate, slice_index_or, slice_set, IfOk};
ghost use Rattle.key_tables.specs.Tables.{IsMap, hole};

mod same;

use key_syms::{Action, KEYCODES, kind};
use std::alloc::{AllocError, Global};
use std::marker::Model;
use vt_base::NoMemory;

/// A table: the actions by code.
#[derive(Debug, Drop)]
pub(crate) struct Table {
    entries: Vec<Action>,
}

impl Model for Table {
    ghost use Rattle.std.specs.Prelude.{List};
    ghost use Rattle.key_syms.specs.Act.{Act};
    ghost use Rattle.key_tables.specs.Tables.{IsMap};

    ghost Value = { List Act };

    ghost view = { λ t. t.entries.items };

    ghost invariant = { λ t. IsMap t.entries.items };
}

impl Table {
    /// A table of holes.
    pub(crate) fn holes(alloc: Global) -> Result<Table, NoMemory>
        ensures { IfOk result (λ table. table ≡ replicate 256 hole) }
    {
        let entries = hole_entries(alloc)?;
        Ok(Table { entries })
    }

    /// A copy.
    pub(crate) fn copy(&self, alloc: Global) -> Result<Table, NoMemory>
        ensures { IfOk result (λ copy. copy ≡ self.now) }
    {
        Ok(Table {
            entries: Vec::from_slice(alloc, self.entries.as_slice())?,
        })
    }

    /// The actions by code.
    pub(crate) fn entries(&self) -> &[Action]
        ensures value { result.now ≡ self.now }
        ensures whole { IsMap self.now }
    {
        self.entries.as_slice()
    }

    pub(crate) fn at(&self, c: u8) -> Action
        ensures { result ≡ slice_index_or self.now c hole }
    {
        self.entries[usize::from(c)]
    }

    pub(crate) fn put(&mut self, c: u8, a: Action)
        requires { c ≢ 0 }
        ensures map { self.new ≡ slice_set self.old c a }
        ensures whole { IsMap self.new }
    {
        let _ = &a.kind; // opens the action: it is one
        self.entries[usize::from(c)] = a;
    }
}

fn hole_entries(alloc: Global) -> Result<Vec<Action>, AllocError>
    ensures { IfOk result (λ entries. entries.items ≡ replicate 256 hole) }
{
    let mut entries = Vec::new(alloc);
    entries.resize(
        KEYCODES,
        Action {
            kind: kind::HOLE,
            value: 0,
        },
    )?;
    Ok(entries)
}
