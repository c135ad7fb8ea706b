//! Laws of session texts and of programs.
ghost use Rattle.session_text.specs.Programs.{WaitsAreEnded};
ghost use Rattle.session_text.specs.Sessions.{CallersHavePrograms, OneSession};

/// A text is one session or has one fault, never both.
pub fn one_session()
    ensures { OneSession }
{}

/// Exactly the callers of a session have a program.
pub fn callers_have_programs()
    ensures { CallersHavePrograms }
{}

/// After a call with the answer `wait` the next call of a program is `waitend`, unless the program is
/// over.
pub fn waits_are_ended()
    ensures { WaitsAreEnded }
{}
