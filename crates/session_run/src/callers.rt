ghost use Rattle.std.specs.Prelude.{◌≡◌, IfOk};
ghost use Rattle.session_run.specs.Callers.{callers_in};
ghost use Rattle.session_run.specs.Runs.{HasHooks};
ghost use Rattle.session_text.specs.Programs.{program_of};

use crate::caller::Caller;
use session_text::{Program, Session, program_of};
use sig_hooks::{Handler, Hook};
use std::alloc::Global;
use std::marker::Model;
use vt_base::{CALLERS, CallerNo, NoMemory};

/// The callers of a session that have a program, with the hooks of its processes. Contracts see the
/// session's programs.
#[derive(Drop)]
pub(crate) struct Callers<'a, H: Handler> {
    programs: &'a [Program],
    hooks: Vec<Hook<H>>,
    numbers: Vec<CallerNo>,
}

impl<'a, H: Handler> Model for Callers<'a, H> {
    ghost use Rattle.std.specs.Prelude.{List};
    ghost use Rattle.session_run.specs.Callers.{AreCallers};
    ghost use Rattle.session_text.specs.declared.program.Program.{Program};

    ghost Value = { List Program };

    ghost view = { λ c. c.programs.now };

    ghost invariant = { λ c. AreCallers c.programs.now c.hooks.items c.numbers.items };
}

impl<'a, H: Handler> Callers<'a, H> {
    /// Those of this session, with a hook for each of its processes.
    pub(crate) fn of(
        alloc: Global,
        s: &'a Session,
        hooks: Vec<Hook<H>>,
    ) -> Result<Callers<'a, H>, NoMemory>
        requires { HasHooks s.now.programs hooks.items }
        ensures { IfOk result (λ callers. callers ≡ s.now.programs) }
    {
        let programs = s.programs();
        let numbers = numbers_in(alloc, programs)?;
        Ok(Callers {
            programs,
            hooks,
            numbers,
        })
    }

    /// Their numbers, rising.
    pub(crate) fn numbers(&self) -> &[CallerNo]
        ensures { result.now ≡ callers_in self.now }
    {
        self.numbers.as_slice()
    }

    /// Caller `p`, if it has a program.
    pub(crate) fn get(&self, p: CallerNo) -> Option<Caller<'_, H>>
        ensures { result ≡ program_of self.now p }
    {
        let program = program_of(self.programs, p)?;
        match p.keyboard_no() {
            Some(_) => Some(Caller {
                program,
                hook: None,
            }),
            None => Some(Caller {
                program,
                hook: Some(&self.hooks[usize::from(p.get()) - 1]),
            }),
        }
    }
}

// The callers that have a program, rising.
fn numbers_in(alloc: Global, programs: &[Program]) -> Result<Vec<CallerNo>, NoMemory>
    ensures { IfOk result (λ numbers. numbers.items ≡ callers_in programs.now) }
{
    let mut numbers = Vec::new(alloc);
    for i in 0..CALLERS as u16 {
        let p = CallerNo::numbered(i);
        if program_of(programs, p).is_some() {
            numbers.push(p)?;
        }
    }
    Ok(numbers)
}
