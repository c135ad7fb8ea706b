ghost use Rattle.std.specs.Prelude.{◌≡◌};
ghost use Rattle.vt_hub.specs.Ready.{is_told_to_wait};

use vt_events::Reply;
use vt_journal::Full;

/// The answer to a call of the hub.
#[derive(Drop)]
pub enum Answer {
    /// The call was entered.
    Done {
        /// Its place in the journal, counted from 0.
        at: u32,
        reply: Reply,
    },
    /// The hub has stopped, by this call or by an earlier one: a call found no room.
    Full(Full),
}

impl Answer {
    /// Whether it is "wait": the pass's next call is then `WaitEnd`.
    pub fn is_wait(&self) -> bool
        ensures { result ≡ is_told_to_wait self.now }
    {
        match self {
            Answer::Done {
                reply: Reply::Wait,
                ..
            } => true,
            _ => false,
        }
    }
}
