//! The laws of cooked lines.
ghost use Rattle.cooked.specs.Laws.{EraseDropsLast, ListIsItsPushes, OneMore};
ghost use Rattle.cooked.specs.Rows.{ErasesOne, ErasesWide, Interrupts, KeepsParted};

/// The effect of one more byte at the end of a list.
pub fn one_more()
    ensures { OneMore }
{}

/// The lines and the echo of a whole list are those of its pushes, in order.
pub fn list_is_its_pushes()
    ensures { ListIsItsPushes }
{}

/// An erase drops the last of the kept characters.
pub fn erase_drops_last()
    ensures { EraseDropsLast }
{}

/// Worked examples: lists of bytes with their lines, the bytes that are kept, and the echo.
pub fn worked_rows()
    ensures erase { ErasesOne }
    ensures interrupt { Interrupts }
    ensures wide { ErasesWide }
    ensures parted { KeepsParted }
{}
