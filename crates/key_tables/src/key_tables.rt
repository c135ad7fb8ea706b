ghost use Rattle.std.specs.Prelude.{◌≡◌, ◌≢◌, ◌≤◌, ◌==◌, ◌&&◌, ℕ, [], cond, length, replicate, IfOk};
ghost use Rattle.std.specs.Option.{option_map};
ghost use Rattle.key_tables.specs.Listing.{listing_of};
ghost use Rattle.key_tables.specs.Tables.{IsEmpty, IsWhole, entry_of, exists_in, found_in, func_of, with_entry, with_func, with_pairs};

mod same;

use crate::func_text::FuncText;
use crate::listing;
use crate::maps::Maps;
use key_syms::{Action, PAIR_COUNT, Pair, STRING_COUNT};
use std::alloc::Global;
use std::marker::Model;
use vt_base::{Bytes, NoMemory};

/// The tables that exist with the action of each keycode, the strings of the function keys, and the
/// pairs. All memory is taken when a value is made, and only for the tables that exist.
#[derive(Debug, Drop)]
pub struct KeyTables {
    maps: Maps,
    funcs: Vec<FuncText>,
    pairs: Vec<Pair>,
}

impl Model for KeyTables {
    ghost use Rattle.std.specs.Prelude.{◌≤◌, vec_capacity};
    ghost use Rattle.key_tables.specs.Tables.{IsWhole, Tables, tables_of};

    ghost Value = { Tables };

    ghost view = { λ k. tables_of k.maps k.funcs.items k.pairs.items };

    ghost invariant = { λ k.
        IsWhole (tables_of k.maps k.funcs.items k.pairs.items) × (256 ≤ vec_capacity k.pairs) };
}

impl KeyTables {
    /// Tables with these numbers, whose entries are holes, with no strings and no pairs.
    pub fn empty(alloc: Global, declared: &[u8]) -> Result<KeyTables, NoMemory>
        ensures { IfOk result (IsEmpty declared.now) }
    {
        Ok(KeyTables {
            maps: Maps::holes(alloc, declared)?,
            funcs: empty_funcs(alloc)?,
            pairs: Vec::with_capacity(alloc, PAIR_COUNT)?,
        })
    }

    /// A copy.
    pub fn copy(&self, alloc: Global) -> Result<KeyTables, NoMemory>
        ensures { IfOk result (λ copy. copy ≡ self.now) }
    {
        let mut pairs = Vec::with_capacity(alloc, PAIR_COUNT)?;
        pairs.extend_from_slice(self.pairs.as_slice())?;
        Ok(KeyTables {
            maps: self.maps.copy(alloc)?,
            funcs: copy_funcs(alloc, self.funcs.as_slice())?,
            pairs,
        })
    }

    /// Whether the table exists.
    pub fn exists(&self, t: u8) -> bool
        ensures value { result ≡ exists_in self.now t }
        ensures whole { IsWhole self.now }
    {
        self.maps.exists(t)
    }

    /// Does nothing. It is called for its clause: tables are whole after every change.
    pub fn stays_whole(&self)
        ensures { IsWhole self.now }
    {
        let _ = self.exists(0);
    }

    /// The action of a keycode in a table.
    pub fn entry(&self, t: u8, c: u8) -> Option<Action>
        ensures { result ≡ entry_of self.now t c }
    {
        self.maps.at(t, c)
    }

    /// Sets the action of a keycode in a table, if the table exists.
    pub fn set_entry(&mut self, t: u8, c: u8, a: Action)
        requires key { c ≢ 0 }
        ensures tables { self.new ≡ with_entry self.old t c a }
        ensures entries { (u d : ℕ) → entry_of self.new u d
            ≡ option_map (λ b. cond (u == t && d == c) a b) (entry_of self.old u d) }
    {
        self.maps.put(t, c, a);
    }

    /// The string of a function key.
    pub fn func(&self, i: u8) -> &[u8]
        ensures text { result.now ≡ func_of self.now i }
        ensures short { length result.now ≤ 255 }
    {
        self.funcs[usize::from(i)].as_slice()
    }

    /// Sets the string of a function key.
    #[tactic(auto, using(crate::proofs::Entries::in_map))]
    pub fn set_func(&mut self, i: u8, text: &[u8])
        requires { length text.now ≤ 255 }
        ensures tables { self.new ≡ with_func self.old i text.now }
        ensures funcs { (j : ℕ) → func_of self.new j
            ≡ cond (j == i) text.now (func_of self.old j) }
    {
        self.funcs[usize::from(i)] = FuncText::of(text);
    }

    /// The result of the first pair of an accent and a base.
    pub fn find(&self, a: u16, b: u16) -> Option<u16>
        ensures { result ≡ found_in self.now.pairs a b }
    {
        self.pairs
            .iter()
            .find(|pair| pair.accent == a && pair.base == b)
            .map(|pair| pair.result)
    }

    /// Sets the pairs. Equal pairs are all kept.
    pub fn set_pairs(&mut self, pairs: &[Pair])
        requires { length pairs.now ≤ 256 }
        ensures { self.new ≡ with_pairs self.old pairs.now }
    {
        self.pairs.clear();
        let kept = self.pairs.extend_from_slice(pairs);
        prove!(kept.is_ok());
        let _ = kept; // only the proof reads it
    }

    /// The pairs in order.
    pub fn pairs(&self) -> &[Pair]
        ensures pairs { result.now ≡ self.now.pairs }
        ensures few { length result.now ≤ 256 }
    {
        self.pairs.as_slice()
    }

    /// The tables as text: a line `maps` with the numbers of the tables that exist, a line
    /// `map T C K V` for each entry that isn't a hole, a line `func I B` for each string that isn't
    /// empty, and a line `pair A B C` for each pair.
    pub fn listing(&self, alloc: Global) -> Result<Bytes, NoMemory>
        ensures { IfOk result (λ text. text.bytes ≡ listing_of self.now) }
    {
        let mut text = Bytes::with_room(alloc, 0)?;
        listing::add_tables(
            alloc,
            &mut text,
            &self.maps,
            self.funcs.as_slice(),
            self.pairs.as_slice(),
        )?;
        Ok(text)
    }
}

fn copy_funcs(alloc: Global, funcs: &[FuncText]) -> Result<Vec<FuncText>, NoMemory>
    ensures { IfOk result (λ copies. copies.items ≡ funcs.now) }
{
    let mut copies = Vec::with_capacity(alloc, funcs.len())?;
    for func in funcs {
        copies.push(FuncText::of(func.as_slice()))?;
    }
    Ok(copies)
}

fn empty_funcs(alloc: Global) -> Result<Vec<FuncText>, NoMemory>
    ensures { IfOk result (λ funcs. funcs.items ≡ replicate 256 []) }
{
    let mut funcs = Vec::with_capacity(alloc, STRING_COUNT)?;
    for _i in 0..STRING_COUNT {
        funcs.push(FuncText::new())?;
    }
    Ok(funcs)
}
