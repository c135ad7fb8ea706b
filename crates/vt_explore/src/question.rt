ghost use Rattle.std.specs.Prelude.{◌≡◌};
ghost use Rattle.vt_events.specs.Plain.{plain_reply};

use vt_base::CallerNo;
use vt_events::{Event, Reply};
use vt_world::World;

/// A question about a call: who made it, its answer, and the machine after it with the call's marks.
pub trait Question {
    ghost use Rattle.vt_explore.specs.Questions.{Wants};

    /// The calls that it asks for.
    ghost wants: { Self → Wants };

    /// Whether it asks for this call.
    fn asks(&self, caller: CallerNo, event: &Event, reply: &Reply, after: &World) -> bool
        ensures { result ≡ wants self.now caller event.now (plain_reply reply.now) after.now };
}
