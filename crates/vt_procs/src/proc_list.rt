use crate::ProcStart;
use vt_base::ShortList;

/// The processes at the start, in order from 1: at most 64.
pub type ProcList = ShortList<ProcStart, 64>;
