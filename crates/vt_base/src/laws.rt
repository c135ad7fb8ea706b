//! Laws of sets of signals, and the limits in the code against those of the definitions.
ghost use Rattle.std.specs.Prelude.{◌≡◌};
ghost use Rattle.vt_base.specs.Limits.{callers, consoles, descriptors, keyboards, piece_bytes, processes, signals};
ghost use Rattle.vt_base.specs.Signals.{WithAddsOne};
ghost use Rattle.vt_base.specs.declared.limits.TheConstants.{CALLERS, CONSOLES, DESCRIPTORS, KEYBOARDS, PIECE_BYTES, PROCESSES, SIGNALS};

/// A set with a signal added has that signal and its earlier ones, and no other.
pub fn with_adds_one()
    ensures { WithAddsOne }
{}

/// The limits in the code equal those of the definitions.
pub fn limits_are_kept()
    ensures consoles { CONSOLES ≡ consoles }
    ensures signals { SIGNALS ≡ signals }
    ensures processes { PROCESSES ≡ processes }
    ensures keyboards { KEYBOARDS ≡ keyboards }
    ensures callers { CALLERS ≡ callers }
    ensures descriptors { DESCRIPTORS ≡ descriptors }
    ensures piece { PIECE_BYTES ≡ piece_bytes }
{}
