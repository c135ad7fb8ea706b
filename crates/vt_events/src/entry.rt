use crate::{Event, Reply};
use vt_base::CallerNo;

/// One call in a journal, with its answer.
#[derive(Debug, Drop)]
pub struct Entry {
    pub caller: CallerNo,
    /// The number of calls that this caller made before.
    pub seq: u32,
    pub event: Event,
    pub reply: Reply,
}
