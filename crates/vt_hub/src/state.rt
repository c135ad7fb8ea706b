use crate::waiters::Waiters;
use turn_lock::Seal;
use vt_journal::{Full, Log};
use vt_world::World;

/// The world after the entries of the log, and where the hub stopped.
#[derive(Drop)]
pub(crate) struct State {
    pub(crate) world: World,
    pub(crate) log: Log,
    pub(crate) stop: Option<Seal<Full>>,
    // The processes whose tickets are open.
    pub(crate) waits: Waiters,
}
