ghost use Rattle.std.specs.Prelude.{◌≡◌, ◌≢◌, ◌≤◌, ◌++◌, ◌∷◌, [], Some, None, cond, is_some, length, replicate, unwrap_or, slice_index_or, slice_set, IfOk, OnOk};
ghost use Rattle.std.specs.Option.{option_copied, option_map};
ghost use Rattle.key_tables.specs.Tables.{AreHoles, AreMaps, hole};

mod same;

use crate::table::Table;
use key_syms::{Action, TABLE_COUNT};
use std::alloc::Global;
use std::marker::Model;
use vt_base::NoMemory;

/// The tables by number. Only those that are declared are kept, each at a place of its own.
#[derive(Debug, Drop)]
pub(crate) struct Maps {
    places: Vec<Option<u8>>,
    kept: Vec<Table>,
}

impl Model for Maps {
    ghost use Rattle.std.specs.Prelude.{List, Option};
    ghost use Rattle.key_syms.specs.Act.{Act};
    ghost use Rattle.key_tables.specs.Kept.{AreKept, maps_at};

    ghost Value = { List (Option (List Act)) };

    ghost view = { λ m. maps_at m.places.items m.kept.items };

    ghost invariant = { λ m. AreKept m.places.items m.kept.items };
}

impl Maps {
    /// Tables of holes for these numbers.
    pub(crate) fn holes(alloc: Global, declared: &[u8]) -> Result<Maps, NoMemory>
        ensures holes { IfOk result (AreHoles declared.now) }
        ensures whole { IfOk result AreMaps }
    {
        let mut places = Vec::with_capacity(alloc, TABLE_COUNT)?;
        let mut kept = Vec::new(alloc);
        for t in 0..TABLE_COUNT {
            places.push(declare(alloc, &mut kept, declared.contains(&(t as u8)))?)?;
        }
        Ok(Maps { places, kept })
    }

    /// A copy.
    pub(crate) fn copy(&self, alloc: Global) -> Result<Maps, NoMemory>
        ensures { IfOk result (λ copy. copy ≡ self.now) }
    {
        Ok(Maps {
            places: Vec::from_slice(alloc, self.places.as_slice())?,
            kept: copy_kept(alloc, self.kept.as_slice())?,
        })
    }

    pub(crate) fn exists(&self, t: u8) -> bool
        ensures value { result ≡ is_some (slice_index_or self.now t None) }
        ensures whole { AreMaps self.now }
    {
        self.places[usize::from(t)].is_some()
    }

    pub(crate) fn at(&self, t: u8, c: u8) -> Option<Action>
        ensures { result
            ≡ option_map (λ map. slice_index_or map c hole) (slice_index_or self.now t None) }
    {
        match self.table(t) {
            Some(table) => Some(table.at(c)),
            None => None,
        }
    }

    /// The actions by code, or no actions if the table doesn't exist.
    pub(crate) fn entries(&self, t: u8) -> &[Action]
        ensures value { result.now ≡ unwrap_or (slice_index_or self.entry.now t None) [] }
        ensures few { length result.now ≤ 256 }
    {
        match self.table(t) {
            Some(table) => table.entries(),
            None => &[],
        }
    }

    // The table of a number.
    fn table(&self, t: u8) -> Option<&Table>
        ensures { option_copied result ≡ slice_index_or self.entry.now t None }
    {
        match self.places[usize::from(t)] {
            Some(place) => Some(&self.kept[usize::from(place)]),
            None => None,
        }
    }

    /// Sets an action of a table, if the table exists.
    pub(crate) fn put(&mut self, t: u8, c: u8, a: Action)
        requires { c ≢ 0 }
        ensures maps { self.new ≡ slice_set self.old t
            (option_map (λ map. slice_set map c a) (slice_index_or self.old t None)) }
        ensures whole { AreMaps self.new }
    {
        match self.places[usize::from(t)] {
            Some(place) => {
                let table = &mut self.kept[usize::from(place)];
                table.put(c, a);
            }
            None => {}
        }
    }
}

// The place of a further table, which is kept if it exists.
fn declare(alloc: Global, kept: &mut Vec<Table>, exists: bool) -> Result<Option<u8>, NoMemory>
    requires { length kept.old.items ≤ 255 }
    ensures place { IfOk result
        (λ place. place ≡ cond exists (Some (length kept.old.items)) None) }
    ensures kept { OnOk result (kept.new.items
        ≡ cond exists (kept.old.items ++ replicate 256 hole ∷ []) kept.old.items) }
{
    if !exists {
        return Ok(None);
    }
    let place = kept.len() as u8;
    kept.push(Table::holes(alloc)?)?;
    Ok(Some(place))
}

fn copy_kept(alloc: Global, kept: &[Table]) -> Result<Vec<Table>, NoMemory>
    ensures { IfOk result (λ copies. copies.items ≡ kept.now) }
{
    let mut copies = Vec::with_capacity(alloc, kept.len())?;
    for table in kept {
        copies.push(table.copy(alloc)?)?;
    }
    Ok(copies)
}
