//! Texts that are written to a console.
ghost use Rattle.std.specs.Prelude.{◌≡◌, ◌≤◌, ◌<◌, ◌+◌, ◌*◌, ℕ, [], ◌∷◌, length, take};
ghost use Rattle.std.specs.List.{flat_map};
ghost use Rattle.vt_screen.specs.Asking.{requests};
ghost use Rattle.vt_screen.specs.Run.{outs_of_option};
ghost use Rattle.vt_world.specs.Deeds.{apply_deeds};
ghost use Rattle.vt_world.specs.Rows.{out_deeds, write_deeds};
ghost use Rattle.vt_world.specs.Terminals.{said_of, terminal_at};

use crate::World;
use crate::trace::MOST_MARKS;
use crate::wanted::Wanted;
use vt_base::ConsoleNo;
use vt_screen::{Out, SideEffect};

impl World {
    /// Runs a text on a console, and carries out its side effects.
    pub(crate) fn run(&mut self, c: ConsoleNo, b: &[u8])
        requires clear { self.old.trace.marks ≡ [] }
        requires short { length b.now ≤ 4096 }
        ensures { self.new ≡ apply_deeds self.old (write_deeds self.old c b.now) }
    {
        let mut effect = SideEffect::new();
        let mut at = self.run_part(c, b, &mut effect);
        while at < b.len() {
            at += self.run_part(c, &b[at..], &mut effect);
        }
    }

    // Runs a text on a console up to its first side effect, or to its end, and carries out the side effect.
    // Returns the number of bytes that were run. `effect` is a place for the side effect.
    fn run_part(&mut self, c: ConsoleNo, b: &[u8], effect: &mut SideEffect) -> usize
        requires room { (n : ℕ) → length self.old.trace.marks
            + 3 * requests (said_of (terminal_at self.old.terminals c) (take n b.now)) ≤ MOST_MARKS }
        ensures within { result ≤ length b.now }
        ensures moves { 0 < length b.now → 0 < result }
        ensures state { self.new ≡ apply_deeds self.old (write_deeds self.old c (take result b.now)) }
        ensures room { length self.new.trace.marks ≤ length self.old.trace.marks
            + 3 * requests (said_of (terminal_at self.old.terminals c) (take result b.now)) }
    {
        let count = self.terminals.write(c, b, effect);
        self.take_effect(c, effect);
        count
    }

    // Carries out the side effect of a text on a console, if there is one.
    fn take_effect(&mut self, c: ConsoleNo, effect: &SideEffect)
        requires { length self.old.trace.marks + 3 * requests (outs_of_option effect.now) ≤ MOST_MARKS }
        ensures state { self.new ≡ apply_deeds self.old (flat_map (out_deeds c) (outs_of_option effect.now)) }
        ensures room { length self.new.trace.marks
            ≤ length self.old.trace.marks + 3 * requests (outs_of_option effect.now) }
    {
        if let Some(out) = effect.get() {
            self.take_out(c, out);
        }
    }

    fn take_out(&mut self, c: ConsoleNo, out: &Out)
        requires { length self.old.trace.marks + 3 * requests (out.now ∷ []) ≤ MOST_MARKS }
        ensures state { self.new ≡ apply_deeds self.old (out_deeds c out.now) }
        ensures room { length self.new.trace.marks
            ≤ length self.old.trace.marks + 3 * requests (out.now ∷ []) }
    {
        match out {
            Out::Report(text) => self.put(c, text.as_slice()),
            Out::SwitchTo(n) => self.request(Wanted::Number(u16::from(*n))),
            Out::SwitchLast => self.request(Wanted::Last),
            Out::Lights(lights) => self.inputs.light(c, *lights),
            Out::Bell => {}
        }
    }
}
