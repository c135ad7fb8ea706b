ghost use Rattle.std.specs.Prelude.{◌≡◌, List, IfOk};
ghost use Rattle.session_text.specs.Programs.{Call, next};
ghost use Rattle.session_text.specs.Walks.{Stands};

use session_text::{Program, Walk};
use sig_hooks::{Handler, Hook};
use std::alloc::Global;
use std::marker::Model;
use vt_base::NoMemory;
use vt_events::Event;

/// A caller that has a program, and its hook if it is a process. Contracts see the program.
#[derive(Drop)]
pub(crate) struct Caller<'a, H: Handler> {
    pub(crate) program: &'a Program,
    pub(crate) hook: Option<&'a Hook<H>>,
}

impl<'a, H: Handler> Model for Caller<'a, H> {
    ghost use Rattle.std.specs.Prelude.{IfSome};
    ghost use Rattle.session_text.specs.Walks.{HasActs};
    ghost use Rattle.session_text.specs.declared.program.Program.{Program};

    ghost Value = { Program };

    ghost view = { λ c. c.program.now };

    ghost invariant = { λ c. IfSome c.hook (λ hook. HasActs c.program.now hook.now) };
}

impl<H: Handler> Caller<'_, H> {
    /// Its program.
    pub(crate) fn program(&self) -> &Program
        ensures { result.now ≡ self.now }
    {
        self.program
    }

    /// The next call, if the program isn't over. The hook of a process determines its acts at signals.
    pub(crate) fn next_call(&self, alloc: Global, walk: &Walk) -> Result<Option<Event>, NoMemory>
        ensures { IfOk result (λ e. (made : List Call) → Stands self.now walk.now made
            → e ≡ next self.now made) }
    {
        match self.hook {
            Some(hook) => walk.next_by(alloc, self.program, hook),
            None => walk.next(alloc, self.program),
        }
    }
}
