//! Laws of the texts of calls and journals.
ghost use Rattle.vt_journal.specs.Says.{OneJournal, PrintedIsRead};
ghost use Rattle.vt_journal.specs.SingleLines.{EntriesAreLines, LinesFollow, LinesMakeTheText};
ghost use Rattle.vt_journal.specs.Words.{CallsAreCut, OneCall};

/// A text is at most one call, and its words are those of that call.
pub fn one_call()
    ensures one { OneCall }
    ensures cut { CallsAreCut }
{}

/// A text is one journal or has one fault, never both. Reading a printed journal gives it again.
pub fn one_journal()
    ensures one { OneJournal }
    ensures printed { PrintedIsRead }
{}

/// A journal can be written line by line: its text is the first line, the line of each entry, and the
/// last line.
pub fn lines_make_the_text()
    ensures text { LinesMakeTheText }
    ensures later { LinesFollow }
    ensures line { EntriesAreLines }
{}
