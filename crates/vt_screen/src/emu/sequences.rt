//! Sequences that stand whole at the start of a text.
ghost use Rattle.std.specs.Prelude.{◌≡◌};
ghost use Rattle.vt_screen.specs.Falling.{bytes_ahead};
ghost use Rattle.vt_screen.specs.Run.{HasRun};

use crate::Emu;
use vt_canvas::SideEffect;
use vt_units::{Params, WholeSequence};

impl Emu {
    // Does what `take_sequence` does for every sequence. A control sequence of one or two short parameters has
    // the fastest way; all others go on to `take_escape`, `take_long_sgr` and `take_sequence`, in this order.
    #[inline(always)]
    pub(super) fn take_any_sequence(&mut self, b: &[u8], said: &mut SideEffect) -> usize
        ensures ran { HasRun self.old b.now result self.new said.new }
        ensures count { result ≡ bytes_ahead self.old b.now }
    {
        match self.pending.take_short_csi(self.canvas.mode(), b) {
            Some(brief) => {
                self.canvas
                    .dispatch_short_csi(brief.first, brief.second, brief.both, brief.last, said);
                brief.count
            }
            None => self.take_escape(b, said),
        }
    }

    // Does what `take_sequence` does, by a faster way for an escape sequence of two bytes.
    #[inline(always)]
    fn take_escape(&mut self, b: &[u8], said: &mut SideEffect) -> usize
        ensures ran { HasRun self.old b.now result self.new said.new }
        ensures count { result ≡ bytes_ahead self.old b.now }
    {
        match self.pending.take_escape(self.canvas.mode(), b) {
            Some(last) => {
                self.canvas.escape(0, last, said);
                2
            }
            None => self.take_long_sgr(b, said),
        }
    }

    // Does what `take_sequence` does, by a faster way for SGR that sets one colour.
    #[inline(never)]
    fn take_long_sgr(&mut self, b: &[u8], said: &mut SideEffect) -> usize
        ensures ran { HasRun self.old b.now result self.new said.new }
        ensures count { result ≡ bytes_ahead self.old b.now }
    {
        match self.pending.take_long_sgr(self.canvas.mode(), b) {
            Some(longer) => {
                said.clear();
                self.canvas.dispatch_long_sgr(longer);
                longer.count
            }
            None => self.take_sequence(b, said),
        }
    }

    // Runs the sequence that the text begins with, if it is read at once, and returns the number of its
    // bytes.
    #[inline(never)]
    #[tactic(auto, using(crate::proofs::Quiet::quiet_none))]
    fn take_sequence(&mut self, b: &[u8], said: &mut SideEffect) -> usize
        ensures ran { HasRun self.old b.now result self.new said.new }
        ensures count { result ≡ bytes_ahead self.old b.now }
    {
        let mut params = Params::new();
        match self
            .pending
            .take_sequence(self.canvas.mode(), b, &mut params)
        {
            WholeSequence::Nothing => {
                said.clear();
                0
            }
            WholeSequence::Esc { mid, last, count } => {
                self.canvas.escape(mid, last, said);
                count
            }
            WholeSequence::Csi {
                private,
                last,
                count,
            } => {
                self.canvas
                    .dispatch_sequence(private, params.as_slice(), last, said);
                count
            }
        }
    }
}
