//! Laws of runs of cells and of characters of two columns, in every grid.
ghost use Rattle.vt_grid.specs.Laws.{CellKeepsWidth, EndsAreWhole, RunOfMore, RunOfNone, StretchesJoin};

/// A run is its cells, set one after another from left to right.
pub fn run_is_its_cells()
    ensures none { RunOfNone }
    ensures more { RunOfMore }
    ensures width { CellKeepsWidth }
{}

/// Drawing two stretches of cells one after the other is drawing both at once.
pub fn stretches_join()
    ensures { StretchesJoin }
{}

/// A split at a row's end or after it changes nothing.
pub fn ends_are_whole()
    ensures { EndsAreWhole }
{}
