//! A law of dumps.
ghost use Rattle.key_dump.specs.ReadsBack.{DumpReadsBack};

/// Reading the dump of tables gives these tables.
pub fn dump_reads_back()
    ensures { DumpReadsBack }
{}
