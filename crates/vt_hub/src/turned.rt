use crate::woken::Woken;
use vt_events::Reply;
use vt_journal::Full;

/// The result of one turn of a caller.
#[derive(Drop)]
pub(crate) enum Turned {
    /// The call was entered.
    Done {
        /// Its place in the journal, counted from 0.
        at: u32,
        reply: Reply,
        /// The processes whose bells were rung after it.
        woken: Woken,
    },
    /// The hub has stopped, by this call or by an earlier one.
    Full {
        full: Full,
        /// The processes whose bells were rung: all.
        woken: Woken,
    },
    /// The caller's ticket is open.
    Waits,
}
