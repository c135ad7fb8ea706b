//! The tables of the lines of a keymap.
ghost use Rattle.std.specs.Prelude.{◌≡◌, None, cond, IfOk, IsTrue};
ghost use Rattle.std.specs.List.{list_any};
ghost use Rattle.key_compile.specs.Compiled.{AreStart, AreTablesOf, Compiles};
ghost use Rattle.key_compile.specs.Dumpable.{is_dumpable};
ghost use Rattle.key_compile.specs.Entries.{is_alt};
ghost use Rattle.key_compile.specs.Faults.{compile_fault};
ghost use Rattle.key_compile.specs.Metas.{metas_below};
ghost use Rattle.key_compile.specs.Pairs.{pairs_in};
ghost use Rattle.key_compile.specs.Puts.{Puts};
ghost use Rattle.key_compile.specs.Union.{IsSetOf, in_union, union_of};

use crate::entries::put_lines;
use crate::first_fault::first_fault;
use crate::metas::{has_alt_is_meta, put_metas};
use crate::pairs::pairs_in;
use crate::strings::put_strings;
use crate::union::{declared_marks, marked_tables, union_marks};
use key_syms::Pair;
use key_tables::KeyTables;
use key_text::{KeyError, KeyFault, Line};
use std::alloc::Global;
use vt_base::NoMemory;

/// The tables of the lines of a keymap, or the first fault of the lines.
#[tactic(auto, using(crate::proofs::for_laws::Dumpable::compiled_are_dumpable))]
pub fn compile(alloc: Global, lines: &[Line]) -> Result<KeyTables, KeyError>
    ensures value { Compiles lines.now result }
    ensures dumpable { IfOk result (λ tables. IsTrue (is_dumpable tables)) }
{
    let marks = union_marks(alloc, lines)?;
    let union = marked_tables(alloc, marks.as_slice())?;
    match lines_fault(lines, union.as_slice()) {
        Some(fault) => return Err(KeyError::Fault(fault)),
        None => {}
    }
    let pairs = pairs_in(alloc, lines)?;
    let mut tables = start_tables(alloc, lines, marks.as_slice())?;
    fill_tables(&mut tables, union.as_slice(), lines, pairs.as_slice());
    Ok(tables)
}

#[tactic(auto, unfolding(crate::specs::Faults::compile_fault))]
fn lines_fault(lines: &[Line], union: &[u8]) -> Option<KeyFault>
    requires { union.now ≡ union_of lines.now }
    ensures { result ≡ compile_fault lines.now }
{
    first_fault(lines, union.len())
}

// The tables that are declared. `marks` holds for each table whether it is in the union.
fn start_tables(alloc: Global, lines: &[Line], marks: &[bool]) -> Result<KeyTables, NoMemory>
    requires { IsSetOf marks.now (in_union lines.now) }
    ensures { IfOk result (AreStart lines.now) }
{
    let declared = declared_marks(alloc, lines, marks)?;
    let numbers = marked_tables(alloc, declared.as_slice())?;
    KeyTables::empty(alloc, numbers.as_slice())
}

// Sets the entries, the strings and the pairs of the lines.
fn fill_tables(tables: &mut KeyTables, union: &[u8], lines: &[Line], pairs: &[Pair])
    requires start { AreStart lines.now tables.old }
    requires union { union.now ≡ union_of lines.now }
    requires good { compile_fault lines.now ≡ None }
    requires pairs { pairs.now ≡ pairs_in lines.now }
    ensures { AreTablesOf lines.now tables.new }
{
    put_lines(tables, union, lines);
    put_alt(tables, lines);
    put_strings(tables, lines);
    tables.set_pairs(pairs);
    tables.stays_whole();
}

// Fills the tables with Alt, if a line is `alt_is_meta`.
fn put_alt(tables: &mut KeyTables, lines: &[Line])
    ensures { Puts (λ t c. cond (list_any (λ l. is_alt l.meaning) lines.now)
        (metas_below tables.old 8 t c) None) tables.old tables.new }
{
    if has_alt_is_meta(lines) {
        put_metas(tables);
    }
}
