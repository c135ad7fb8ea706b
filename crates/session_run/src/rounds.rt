ghost use Rattle.std.specs.Prelude.{◌≡◌, ◌≤◌, ℕ, List, All, OnOk};
ghost use Rattle.session_order.specs.Ends.{Setup};
ghost use Rattle.session_order.specs.Laws.{IsFromStart};
ghost use Rattle.session_order.specs.Serial.{Played, nothing_played, round, turns};
ghost use Rattle.session_run.specs.Playing.{IsAt, IsEnd};

use crate::callers::Callers;
use crate::player::Player;
use sig_hooks::Handler;
use std::alloc::Global;
use vt_base::{CallerNo, NoMemory};

impl Player {
    /// The turns of these callers, one after another.
    pub(crate) fn turns<H: Handler>(
        &mut self,
        alloc: Global,
        callers: &Callers<'_, H>,
        first: &[u8],
    ) -> Result<(), NoMemory>
        requires { All (λ p. p ≤ 67) first.now }
        ensures { OnOk result ((o : Setup) (t : Played) → o.programs ≡ callers.now
            → IsAt o t self.old → IsAt o (turns o first.now t) self.new) }
    {
        for n in first {
            let p = CallerNo::numbered(u16::from(*n));
            self.turn(alloc, callers, p)?;
        }
        Ok(())
    }

    /// A round: a turn of each caller that has a program, rising.
    pub(crate) fn round<H: Handler>(
        &mut self,
        alloc: Global,
        callers: &Callers<'_, H>,
    ) -> Result<(), NoMemory>
        ensures { OnOk result ((o : Setup) (t : Played) → o.programs ≡ callers.now
            → IsAt o t self.old → IsAt o (round o t) self.new) }
    {
        let numbers = callers.numbers();
        for p in numbers {
            self.turn(alloc, callers, *p)?;
        }
        Ok(())
    }

    /// Rounds, until the play is finished: a round that makes no entry is the last one, and each other
    /// needs room for one.
    pub(crate) fn rounds<H: Handler>(
        &mut self,
        alloc: Global,
        callers: &Callers<'_, H>,
        events: u32,
    ) -> Result<(), NoMemory>
        requires { events ≤ 1_000_000 }
        ensures { OnOk result ((o : Setup) (first : List ℕ) → IsFromStart o
            → o.programs ≡ callers.now → o.limits.events ≡ events
            → IsAt o (turns o first nothing_played) self.old → IsEnd o first self.new) }
    {
        for _round in 0..events + 1 {
            let before = self.log.entries().len();
            self.round(alloc, callers)?;
            if self.stop.is_some() {
                return Ok(());
            }
            if self.log.entries().len() == before {
                return Ok(());
            }
        }
        Ok(())
    }
}
