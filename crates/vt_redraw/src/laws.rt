//! Laws of redrawing, for every screen.
ghost use Rattle.vt_redraw.specs.Behind.{TextsFollow};
ghost use Rattle.vt_redraw.specs.DrawableRows.{RowsAreCharacters};
ghost use Rattle.vt_redraw.specs.Lengths.{RedrawsAreShort};
ghost use Rattle.vt_redraw.specs.Near.{DrawableStays, NearIsDrawn, NearRedraws, NothingIsLeftOut, RowsAreNear};
ghost use Rattle.vt_redraw.specs.Parts.{RedrawsUseRows};
ghost use Rattle.vt_redraw.specs.Reached.{StatesAreDrawable, TapeCellsAreDrawable, TapeStatesAreDrawable};
ghost use Rattle.vt_redraw.specs.Redraw.{ChangesRedraw, ScreensRedraw};

/// The text of a redrawable screen draws it again on every screen of its size, and the text of the rows that differ
/// draws it on every screen with the cells that it differs from.
pub fn screens_redraw()
    ensures screens { ScreensRedraw }
    ensures changes { ChangesRedraw }
{}

/// If both screens have the same user's table, every later text gives the same cells and reports on a screen and on
/// the one that was drawn again.
pub fn texts_follow()
    ensures { TextsFollow }
{}

/// A text can make the state of every screen that bytes alone make from a start. So only the cells of such a screen can
/// keep it from being redrawable. After changes of size the saved cursor can too, and nothing else of the state.
pub fn states_are_drawable()
    ensures bytes { StatesAreDrawable }
    ensures changes { TapeStatesAreDrawable }
{}

/// The rows of every screen that bytes make from a start are drawable exactly if each cell is a right half or has a
/// character that prints itself, and has a byte for its attributes, as every cell of a grid has; also after changes, if
/// no word of the user's table takes two columns.
pub fn cells_are_drawable()
    ensures { TapeCellsAreDrawable }
{}

/// The nearest screen is drawable, and its text draws it. Its cells are those of the screen except the ones that are
/// replaced, a drawable screen stays, and a screen of which nothing is left out is drawable.
pub fn near_is_drawn()
    ensures drawn { NearIsDrawn }
    ensures redraws { NearRedraws }
    ensures exact { DrawableStays }
    ensures cells { RowsAreNear }
    ensures parts { NothingIsLeftOut }
{}

/// How long the texts of redraws are at most.
pub fn redraws_are_short()
    ensures { RedrawsAreShort }
{}

/// A row is drawable exactly if it is the cells of characters that print themselves, each one of two columns with its
/// right half.
pub fn rows_are_characters()
    ensures { RowsAreCharacters }
{}

/// The text of a redraw consists of characters of the screen, which print themselves, and of rows of the effect table,
/// with numbers for which they have an effect.
pub fn redraws_use_rows()
    ensures { RedrawsUseRows }
{}
