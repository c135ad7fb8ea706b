//! Whether callers are at the same places of their programs, the copy of the progress of one session into
//! another, and what the walk of a caller can forget.
ghost use Rattle.std.specs.Prelude.{◌≡◌, IsTrue, List, Some, length};
ghost use Rattle.session_order.specs.Standing.{AreAfter};
ghost use Rattle.session_text.specs.Programs.{program_of};
ghost use Rattle.session_text.specs.declared.program.Program.{Program};
ghost use Rattle.vt_events.specs.declared.entry.Entry.{Entry};

use crate::SessionProgress;
use session_text::{Program, Walk};
use vt_base::CallerNo;

impl SessionProgress {
    /// Whether all walks are at the same places; the numbers of calls may differ. Nothing is proved of the
    /// answer `false`.
    pub fn same(&self, other: &SessionProgress) -> bool
        ensures { IsTrue result → self.now.walks ≡ other.now.walks }
    {
        are_same_walks(self.walks.as_slice(), other.walks.as_slice())
    }

    /// Becomes the other.
    pub fn copy_from(&mut self, other: &SessionProgress)
        ensures { self.new ≡ other.now }
    {
        copy_walks(self.walks.as_mut_slice(), other.walks.as_slice());
        self.counts.copy_from(&other.counts);
    }

    /// A number by which callers at different places mostly differ. No clause describes it.
    pub fn digest(&self) -> u64 {
        let mut digest = 0u64;
        for walk in self.walks.as_slice() {
            let mixed = (digest ^ walk.digest()).wrapping_mul(0x9E37_79B9_7F4A_7C15);
            digest = mixed ^ (mixed >> 29);
        }
        digest
    }

    /// The caller's walk forgets what no call that is left depends on ([`Walk::forget`]).
    pub fn forget(&mut self, p: CallerNo, program: &Program)
        ensures { (programs : List Program) (h : List Entry)
            → program_of programs p ≡ Some program.now → AreAfter programs h self.old
            → AreAfter programs h self.new }
    {
        let walk = &mut self.walks[usize::from(p.get())];
        walk.forget(program);
    }
}

// Whether all walks are at the same places.
fn are_same_walks(walks: &[Walk], others: &[Walk]) -> bool
    ensures { IsTrue result → walks.now ≡ others.now }
{
    if walks.len() != others.len() {
        return false;
    }
    for i in 0..walks.len() {
        if !walks[i].same(&others[i]) {
            return false;
        }
    }
    true
}

// All walks go to the others' places.
fn copy_walks(walks: &mut [Walk], others: &[Walk])
    requires { length walks.old ≡ length others.now }
    ensures { walks.new ≡ others.now }
{
    for i in 0..others.len() {
        walks[i].copy_from(&others[i]);
    }
}
