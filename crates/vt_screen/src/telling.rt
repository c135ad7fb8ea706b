//! A text of any length with a listener, which is called for each side effect.
ghost use Rattle.std.specs.Prelude.{◌≡◌, ◌<◌, ◌≤◌, length, take};
ghost use Rattle.vt_screen.specs.Hearing.{HearsAll};
ghost use Rattle.vt_screen.specs.Run.{after, outs_of_option, outs_of_run};

use crate::{Emu, Listener};
use vt_canvas::SideEffect;

impl Emu {
    /// Runs a text of any length on the screen, as [`Emu::write`] does. The listener gets the reports,
    /// requests, lights and bells of the text one by one, in order.
    pub fn write_with<L: Listener>(&mut self, b: &[u8], listener: &mut L)
        ensures screen { self.new ≡ after self.old b.now }
        ensures heard { HearsAll L.hears listener.old (outs_of_run self.old b.now) listener.new }
    {
        let mut at = 0;
        while at < b.len() {
            let mut said = SideEffect::new();
            at += self.take_prefix(&b[at..], &mut said);
            tell(said, listener);
        }
    }
}

// Gives the listener the side effect, if there is one.
#[inline(always)]
fn tell<L: Listener>(said: SideEffect, listener: &mut L)
    ensures { HearsAll L.hears listener.old (outs_of_option said) listener.new }
{
    if let Some(out) = said.into_option() {
        listener.hear(out);
    }
}
