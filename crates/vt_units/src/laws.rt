//! Laws of units and of runs over a text: its cuts, its pieces, and what is read of it at once. They don't depend on
//! the reader.
ghost use Rattle.vt_units.specs.Cutting.{CutsAreRuns, TextsAreCut};
ghost use Rattle.vt_units.specs.Laws.{AnyCut, CharactersEnd, ControlsAreUnits, DropsExactly, PiecesAct, PiecesResume, PrintablesAreCharacters, SequencesAreUnits, SequencesEnd, StringsEnd, TextsSpellCharacters};
ghost use Rattle.vt_units.specs.Units.{UnfinishedIsBefore};

/// The unfinished texts are exactly the proper prefixes of units. So no unit is a prefix of another.
pub fn unfinished_is_before()
    ensures { UnfinishedIsBefore }
{}

/// A text has the same run however it is cut.
pub fn any_cut()
    ensures { AnyCut }
{}

/// The bytes of a piece, read one by one, give its control characters and then its unit.
pub fn pieces_act()
    ensures fresh { PiecesAct }
    ensures resumed { PiecesResume }
{}

/// If a byte ends the text before it, the byte is read as if it stood alone.
pub fn ended_texts()
    ensures characters { CharactersEnd }
    ensures sequences { SequencesEnd }
    ensures strings { StringsEnd }
{}

/// The answer is Dropped exactly if the text with this byte is a dropped sequence.
pub fn drops_exactly()
    ensures { DropsExactly }
{}

/// [`crate::Pending::take_printable`] reads characters of one byte each.
pub fn printables_are_characters()
    ensures { PrintablesAreCharacters }
{}

/// [`crate::Pending::take_control`] takes a control character that stands alone.
pub fn controls_are_units()
    ensures { ControlsAreUnits }
{}

/// [`crate::Pending::take_sequence`] reads the text of a unit: its bytes, read one by one, give it.
pub fn sequences_are_units()
    ensures { SequencesAreUnits }
{}

/// The result of a byte prints a code point or the byte itself.
pub fn texts_spell_characters()
    ensures { TextsSpellCharacters }
{}

/// Every text is pieces and one last rest, and its run is their results in order.
pub fn texts_are_cut()
    ensures { TextsAreCut }
{}

/// However a text is cut into pieces and one last rest, their result is its run. With `texts_are_cut`, a text has
/// exactly one result.
pub fn one_result()
    ensures { CutsAreRuns }
{}
