use crate::waiters::Ended;
use vt_events::Reply;
use vt_journal::Full;

/// The result of one look of a caller at the value under the lock.
pub(crate) enum Look {
    /// The call was entered.
    Done {
        /// Its place in the journal, counted from 0.
        at: u32,
        reply: Reply,
        /// The processes whose tickets it ended.
        ended: Ended,
    },
    /// The hub has stopped, by this call or by an earlier one.
    Full(Full),
    /// The caller's ticket is open.
    Waits,
}
