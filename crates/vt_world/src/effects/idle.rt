//! The idle rule.
ghost use Rattle.std.specs.Prelude.{◌≡◌};
ghost use Rattle.vt_procs.specs.Callers.{caller_at};
ghost use Rattle.vt_procs.specs.Tickets.{can_go};
ghost use Rattle.vt_world.specs.Step.{with_idle_rule};

use crate::World;
use vt_base::CallerNo;
use vt_procs::Waited;

impl World {
    /// Applies the idle rule after an event of `p`. It looks at all callers only if `p` itself
    /// can't go on.
    pub(crate) fn apply_idle_rule(&mut self, p: CallerNo)
        ensures { self.new ≡ with_idle_rule self.old }
    {
        if !self.can_go(p) {
            self.procs.settle();
        }
    }

    // Whether `p` is alive and doesn't wait.
    fn can_go(&self, p: CallerNo) -> bool
        ensures { result ≡ can_go (caller_at self.now.callers p) }
    {
        self.procs.live(p) && self.procs.ticket(p) != Waited::Still
    }
}
