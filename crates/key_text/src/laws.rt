//! Laws of the definitions of keymap texts.
ghost use Rattle.key_text.specs.Bounded.{BoundsStop};
ghost use Rattle.key_text.specs.Parted.{FaultsAreFirst, FaultsStop, PlacesTell, StartsThere, TextsFollow};
ghost use Rattle.key_text.specs.SameWords.{FirstWordsFold, WordsDecide};
ghost use Rattle.key_text.specs.Senses.{SensesDecide};
ghost use Rattle.key_text.specs.Spelled.{SpellingsAgree};

/// The words of a text's rows determine its lines, or the kind of its fault.
pub fn words_decide()
    ensures { WordsDecide }
{}

/// The case of the first word of a row makes no difference.
pub fn first_words_fold()
    ensures { FirstWordsFold }
{}

/// Decimal, octal and hexadecimal make no difference, nor does the case of a name that is no symbol.
pub fn senses_decide()
    ensures { SensesDecide }
{}

/// Two spellings of the same rows of words give the same lines: blanks and tabs, comments, joins, LF
/// or CR LF, rows without a word and a last row without its end make no difference.
pub fn spellings_agree()
    ensures { SpellingsAgree }
{}

/// If a text ends a line and has no fault, then it and a second text after it have the lines of
/// both, those of the second as they would be alone.
pub fn texts_follow()
    ensures start { StartsThere }
    ensures follow { TextsFollow }
    ensures places { PlacesTell }
{}

/// If a text that ends a line has a fault, no text after it changes the answer. If a text has a
/// fault, every prefix that ends a line has the same fault or none.
pub fn faults_stop()
    ensures stop { FaultsStop }
    ensures first { FaultsAreFirst }
{}

/// With a bound on the bytes of the included texts, a text has the lines or the fault that it has
/// without one, or the fault of the bound.
pub fn bounds_stop()
    ensures { BoundsStop }
{}
