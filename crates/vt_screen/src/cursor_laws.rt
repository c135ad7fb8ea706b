//! Laws of the cursor, for every screen that bytes and changes make.
ghost use Rattle.vt_screen.specs.Inside.{TapesKeepCursor};
ghost use Rattle.vt_screen.specs.SavedCursor.{RestorePutsBack};

/// After every tape the cursor is in the screen, and in origin mode in the region.
pub fn tapes_keep_cursor()
    ensures { TapesKeepCursor }
{}

/// ESC 8 puts the cursor back to its place at ESC 7, unless origin mode or the region changed.
pub fn restore_puts_back()
    ensures { RestorePutsBack }
{}
