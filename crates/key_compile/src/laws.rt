//! Laws of the tables of a keymap.
ghost use Rattle.key_compile.specs.Compiled.{OneValue};
ghost use Rattle.key_compile.specs.Dumpable.{CompiledAreDumpable};
ghost use Rattle.key_compile.specs.Usual.{UsualPairsAreKept, UsualStringsAreKept};

/// The lines determine the tables.
pub fn one_value()
    ensures { OneValue }
{}

/// Compiled tables can be written as a keymap text.
pub fn compiled_are_dumpable()
    ensures { CompiledAreDumpable }
{}

/// The tables in the code have the usual strings and pairs of the definition, in order.
pub fn usual_tables_are_kept()
    ensures strings { UsualStringsAreKept }
    ensures pairs { UsualPairsAreKept }
{}
