use in_queue::InQueue;
use key_machine::KbState;

/// The input of a console: its queue, and its key state.
#[derive(Drop)]
pub(crate) struct Input {
    pub(crate) queue: InQueue,
    pub(crate) keys: KbState,
}
