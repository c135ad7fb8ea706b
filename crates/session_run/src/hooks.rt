//! The hooks of a session's processes.
ghost use Rattle.std.specs.Prelude.{IfOk};
ghost use Rattle.session_run.specs.Runs.{HasHooks, MakesHandlers};

use session_text::Program;
use sig_hooks::{Handler, Hook, HookTable};
use std::alloc::Global;
use vt_base::NoMemory;

/// A hook for each process, with its table and the handler that is made of it.
pub(crate) fn hooks_by<H: Handler, M: Fn(HookTable) -> H>(
    alloc: Global,
    programs: &[Program],
    make: &M,
) -> Result<Vec<Hook<H>>, NoMemory>
    requires { MakesHandlers (λ t. M.pre make.now t) (λ t h. M.post make.now t h) (λ h t. H.answers h t) }
    ensures { IfOk result (λ hooks. HasHooks programs.now hooks.items) }
{
    let mut hooks = Vec::new(alloc);
    for program in programs {
        match program {
            Program::Script { hooks: table, .. } => hooks.push(Hook::new(make(*table), *table))?,
            Program::Keys(_) => {}
        }
    }
    Ok(hooks)
}
