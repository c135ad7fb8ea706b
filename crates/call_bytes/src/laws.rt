//! Laws of reading and adding tables as bytes.
ghost use Rattle.call_bytes.specs.Kept.{ColoursAreKept, PairsAreKept, WordsAreKept};
ghost use Rattle.call_bytes.specs.Laws.{ColoursComeBack, PairsComeBack, WordsComeBack};

/// Reading the bytes of a table gives the table.
pub fn reads_what_was_added()
    ensures pairs { PairsComeBack }
    ensures words { WordsComeBack }
    ensures colours { ColoursComeBack }
{}

/// Adding a table that was read gives the bytes that it was read from.
pub fn adds_what_was_read()
    ensures pairs { PairsAreKept }
    ensures words { WordsAreKept }
    ensures colours { ColoursAreKept }
{}
