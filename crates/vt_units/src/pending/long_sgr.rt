//! The faster way for SGR that sets one colour.
ghost use Rattle.std.specs.Prelude.{◌≡◌, ◌≤◌, false, length, true, Some, IfSome, MatchOption};
ghost use Rattle.vt_units.specs.WholeSequence.{taken_ahead};
ghost use Rattle.vt_units.specs.ShortForms.{longer_stands};
ghost use Rattle.vt_units.specs.ShortSequences.{sgr_in};
ghost use Rattle.vt_units.specs.Rest.{fresh};

use crate::long_sgr_ahead::long_sgr_ahead;
use crate::pending_bytes::sequence_front;
use crate::{LongSgr, Mode, Pending};

impl Pending {
    /// Reads the sequence that [`Pending::take_sequence`] reads, if it is SGR that sets one colour by its
    /// index or by its three parts, each of at most three digits. After None that call has the result.
    #[inline(always)]
    #[tactic(auto, using(crate::proofs::Comes::sgr_within))]
    pub fn take_long_sgr(&mut self, mode: Mode, b: &[u8]) -> Option<LongSgr>
        ensures sequence { IfSome result (λ longer. taken_ahead self.old b.now ≡ Some (sgr_in longer)) }
        ensures within { IfSome result (λ longer. longer.count ≤ length b.now) }
        ensures exact { MatchOption result (longer_stands self.old b.now ≡ false)
            (λ _. longer_stands self.old b.now ≡ true) }
        ensures rest { MatchOption result (self.new ≡ self.old) (λ _. self.new ≡ fresh mode) }
    {
        let opens = self.is_empty();
        if !opens {
            return None;
        }
        let longer = long_sgr_ahead(sequence_front(b))?;
        self.go_on(mode);
        Some(longer)
    }
}
