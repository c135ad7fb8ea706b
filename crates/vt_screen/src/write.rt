//! `Emu::write`, `Emu::write_until`: a text of any length, whole or up to its first side effect.
ghost use Rattle.std.specs.Prelude.{◌≡◌, ◌≤◌, None, length, take};
ghost use Rattle.vt_screen.specs.Run.{IsQuietBefore, after, outs_of_option, outs_of_run};

use crate::Emu;
use vt_canvas::SideEffect;

impl Emu {
    /// Runs a text of any length on the screen, as [`Emu::feed`] runs its pieces. The side effects are
    /// dropped.
    pub fn write(&mut self, b: &[u8])
        ensures { self.new ≡ after self.old b.now }
    {
        let mut said = SideEffect::new();
        let mut rest = b;
        while !rest.is_empty() {
            let count = self.take_prefix(rest, &mut said);
            rest = &rest[count..];
        }
    }

    /// Runs a text of any length on the screen up to its first side effect, or to its end. Returns the
    /// number of bytes that were run; `effect` then is the side effect of the last one, if it has one.
    #[tactic(auto, using(crate::proofs::Quiet::quiet_none))]
    pub fn write_until(&mut self, b: &[u8], effect: &mut SideEffect) -> usize
        ensures within { result ≤ length b.now }
        ensures screen { self.new ≡ after self.old (take result b.now) }
        ensures effect { outs_of_option effect.new ≡ outs_of_run self.old (take result b.now) }
        ensures first { IsQuietBefore result self.old b.now }
        ensures all { effect.new ≡ None → result ≡ length b.now }
    {
        effect.clear();
        let mut at = 0;
        while at < b.len() && effect.is_none() {
            at += self.take_prefix(&b[at..], effect);
        }
        at
    }
}
