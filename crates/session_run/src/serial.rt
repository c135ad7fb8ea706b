ghost use Rattle.std.specs.Prelude.{IfOk};
ghost use Rattle.session_order.specs.Serial.{IsSerial};
ghost use Rattle.session_order.specs.Sessions.{setup_of};
ghost use Rattle.session_run.specs.Runs.{IsRightRun, MakesHandlers, run_result};

use crate::callers::Callers;
use crate::hooks::hooks_by;
use crate::player::Player;
use session_order::session_laws;
use session_text::Session;
use sig_hooks::{Handler, HookTable};
use std::alloc::Global;
use vt_base::{NoMemory, Signal};
use vt_hub::Run;

/// Plays the session on one thread: its turns, and then rounds of the callers in rising order, until every
/// program is over or a call finds no room.
pub fn play(alloc: Global, s: &Session) -> Result<Run, NoMemory>
    ensures serial { IfOk result (λ run. IsSerial (setup_of s.now) s.now.turns (run_result run)) }
    ensures right { IfOk result (IsRightRun s.now) }
{
    play_by(alloc, s, &|table: HookTable| move |s: Signal| table.act(s))
}

// Plays it with the handlers that are made of the tables of its processes.
fn play_by<H: Handler, M: Fn(HookTable) -> H>(
    alloc: Global,
    s: &Session,
    make: &M,
) -> Result<Run, NoMemory>
    requires { MakesHandlers (λ t. M.pre make.now t) (λ t h. M.post make.now t h) (λ h t. H.answers h t) }
    ensures serial { IfOk result (λ run. IsSerial (setup_of s.now) s.now.turns (run_result run)) }
    ensures right { IfOk result (IsRightRun s.now) }
{
    session_laws(s);
    let _starts = s.config().procs.as_slice(); // it says that the processes are few
    let first = s.turns();
    let limits = s.limits();
    let hooks = hooks_by(alloc, s.programs(), make)?;
    let callers = Callers::of(alloc, s, hooks)?;
    let mut player = Player::open(alloc, s)?;
    player.turns(alloc, &callers, first)?;
    player.rounds(alloc, &callers, limits.events)?;
    Ok(player.end(s))
}
