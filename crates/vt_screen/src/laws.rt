//! Laws of a run, for every screen and every text.
ghost use Rattle.vt_screen.specs.Asking.{RequestsAreFew};
ghost use Rattle.vt_screen.specs.Characters.{TapesKeepCharacters};
ghost use Rattle.vt_screen.specs.Falling.{AnyRowCut};
ghost use Rattle.vt_screen.specs.Halves.{HalvesFollowWide, TapesKeepHalves};
ghost use Rattle.vt_screen.specs.Run.{AnyCut, PiecesAct, PiecesResume, TextsAreCut};
ghost use Rattle.vt_screen.specs.Tape.{AnyTapeCut, StretchesRun};

/// Running the parts of a text in order is running the whole text, however it is cut.
pub fn any_cut()
    ensures { AnyCut }
{}

/// The rows that fall out while a text is run are those of its parts, however it is cut.
pub fn any_row_cut()
    ensures { AnyRowCut }
{}

/// The bytes of a piece, wherever they are cut, have the effects of the control characters in it,
/// and then that of its unit.
pub fn pieces_draw()
    ensures fresh { PiecesAct }
    ensures resumed { PiecesResume }
{}

/// The bytes of a tape are run as bytes, and the result is the same however a tape is cut.
pub fn tapes_run()
    ensures stretches { StretchesRun }
    ensures cuts { AnyTapeCut }
{}

/// In every screen that bytes and changes make from a start, no right half of a character stands in
/// column 0 or right of another.
pub fn tapes_keep_halves()
    ensures { TapesKeepHalves }
{}

/// In every screen that bytes and changes make from a start, a character of two columns stands left of
/// each right half.
pub fn halves_follow_wide()
    ensures { HalvesFollowWide }
{}

/// In every screen that bytes and changes make from a start, each character of two columns has its right
/// half, with its attribute byte, if no word of the user's table takes two columns.
pub fn tapes_keep_characters()
    ensures { TapesKeepCharacters }
{}

/// A text requests another console at most once in four bytes; three of them may have come before it.
pub fn requests_are_few()
    ensures { RequestsAreFew }
{}

/// Every text is pieces and one last rest. Its effect on a screen, and its side effects, are those of
/// the pieces, in order.
pub fn texts_are_cut()
    ensures { TextsAreCut }
{}
