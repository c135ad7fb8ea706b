ghost use Rattle.std.specs.Prelude.{◌≡◌, true, false, None, IfOk, IsOkAnd, OnErr};
ghost use Rattle.vt_hub.specs.Answers.{Answers};
ghost use Rattle.vt_hub.specs.Histories.{awaits};
ghost use Rattle.vt_hub.specs.Ready.{IsReady, is_told_to_wait};
ghost use Rattle.vt_world.specs.Refusals.{ends_wait};

use crate::answer::Answer;
use crate::hub::Hub;
use crate::opening::Opening;
use crate::pass::Pass;
use std::alloc::Global;
use std::marker::Model;
use std::sync::Wait;
use vt_base::NoMemory;
use vt_events::Event;

/// Everything that a call needs except the pass: the handle for waiting, the allocator, and the hub.
/// Threads may share it. Contracts see which hub it is.
#[derive(Drop)]
pub struct Seat<'a, J: Opening, R: Wait> {
    pub rt: &'a R,
    pub alloc: Global,
    pub hub: &'a Hub<J>,
}

impl<'a, J: Opening, R: Wait> Model for Seat<'a, J, R> {
    ghost use Rattle.atomic_table.specs.Seated.{TableId};

    ghost Value = { TableId };

    ghost view = { λ s. s.hub.now };
}

impl<J: Opening, R: Wait> Seat<'_, J, R> {
    /// Takes the memory that the call may need, and makes the call. `WaitEnd` needs none and is made by
    /// [`Hub::wait_end`].
    #[tactic(auto, using(crate::proofs::Ready::ready_after, crate::proofs::Ready::end_tells))]
    pub fn ask(&self, pass: &mut Pass<J>, event: Event) -> Result<Answer, NoMemory>
        requires own { pass.old.hub ≡ self.now }
        // A caller that was answered "wait" makes WaitEnd first.
        requires free { ends_wait event ≡ false → pass.old.stop ≡ None → awaits pass.old.mine ≡ false }
        ensures ok { IfOk result (λ answer. Answers J.start J.limits event pass.old pass.new answer) }
        ensures ready { IfOk result (λ answer. IsReady self.now (is_told_to_wait answer) pass.new) }
        ensures ended { ends_wait event ≡ true → IsOkAnd result (λ answer. is_told_to_wait answer ≡ false) }
        ensures err { OnErr result (pass.new ≡ pass.old) }
    {
        if matches!(event, Event::WaitEnd) {
            return Ok(self.hub.wait_end(self.rt, pass));
        }
        let spare = pass.spare(self.alloc, &event, self.hub.size())?;
        Ok(self.hub.call(self.rt, pass, event, spare))
    }
}
