//! Whether two walks are at the same place, the copy of one into the other, and what a walk can forget.
ghost use Rattle.std.specs.Bool.{OnFalse, OnTrue};
ghost use Rattle.std.specs.Prelude.{◌≡◌, IsTrue, List};
ghost use Rattle.session_text.specs.Items.{Listed};
ghost use Rattle.session_text.specs.Programs.{Call};
ghost use Rattle.session_text.specs.Walks.{AreLeft, KeepsLeft, Stands, end_place};
ghost use Rattle.session_text.specs.declared.program.Program.TheVariants as programs;

use super::NO_SIGNAL;
use crate::acting::signals_left;
use crate::{Program, Walk};
use sig_hooks::HookTable;
use vt_base::SigSet;

impl Walk {
    /// Whether both are at the same place. Nothing is proved of the answer `false`.
    pub fn same(&self, other: &Walk) -> bool
        ensures { IsTrue result → self.now ≡ other.now }
    {
        if self.item != other.item {
            return false;
        }
        if self.taking != other.taking {
            return false;
        }
        if self.given != other.given {
            return false;
        }
        if self.signal != other.signal {
            return false;
        }
        if self.waiting != other.waiting {
            return false;
        }
        if self.over != other.over {
            return false;
        }
        true
    }

    /// Goes to the other's place.
    pub fn copy_from(&mut self, other: &Walk)
        ensures { self.new ≡ other.now }
    {
        self.item = other.item;
        self.taking = other.taking;
        self.given = other.given;
        self.signal = other.signal;
        self.waiting = other.waiting;
        self.over = other.over;
    }

    /// A number by which walks at different places mostly differ. No clause describes it.
    pub fn digest(&self) -> u64 {
        let mut digest = self.item as u64;
        digest = digest
            .wrapping_mul(256)
            .wrapping_add(u64::from(self.signal));
        digest = digest.wrapping_mul(2).wrapping_add(u64::from(self.taking));
        digest = digest.wrapping_mul(2).wrapping_add(u64::from(self.waiting));
        digest = digest.wrapping_mul(2).wrapping_add(u64::from(self.over));
        digest ^ self.given.bits()
    }

    /// Forgets what no call that is left depends on: everything if the program is over, and otherwise the
    /// signals that were given, except those with an act that is left. So walks with the same calls left are
    /// the same more often.
    pub fn forget(&mut self, p: &Program)
        ensures over { OnTrue self.old.over (self.new ≡ end_place) }
        ensures left { OnFalse self.old.over (KeepsLeft p.now self.old self.new) }
        ensures stands { (made : List Call) → Stands p.now self.old made → Stands p.now self.new made }
    {
        if self.over {
            self.item = 0;
            self.taking = false;
            self.given = SigSet::empty();
            self.signal = NO_SIGNAL;
            self.waiting = false;
            return;
        }
        match p {
            Program::Keys(_) => {}
            Program::Script { hooks, .. } => self.keep_left(hooks),
        }
    }

    // Keeps, of the signals that were given, those with an act that is left.
    fn keep_left(&mut self, hooks: &HookTable)
        ensures left { AreLeft hooks.now self.old.given self.old.signal self.new.given }
        ensures rest { self.new ≡ record self.old { given = self.new.given; signal = 1 } }
        ensures stands { (items : Listed) (made : List Call)
            → Stands (programs.Script items hooks.now) self.old made
            → Stands (programs.Script items hooks.now) self.new made }
    {
        self.given = signals_left(hooks, self.given, self.signal);
        self.signal = 1;
    }
}
