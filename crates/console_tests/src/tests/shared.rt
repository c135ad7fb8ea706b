//! The machine of a session that a test shares, its calls, and its run after every pass has come back.
ghost use Rattle.std.specs.Prelude.{◌≡◌, ℕ, false, IfOk};
ghost use Rattle.vt_hub.specs.Ready.{IsReady, is_told_to_wait};
ghost use Rattle.vt_world.specs.Refusals.{ends_wait};
ghost use Rattle.vt_world.specs.State.{is_waiting};

use session_text::read;
use std::alloc::Global;
use std::sync::Wait;
use std::test::Fail;
use vt_base::NoMemory;
use vt_events::Event;
use vt_hub::{Answer, Hub, Opening, Pass, Run, Seat, Steward};
use vt_journal::Limits;
use vt_world::{World, nobody_waits_at_start};

/// The most entries of the journal, and the most bytes that they may count for together.
pub(crate) const LIMITS: Limits = Limits {
    events: 65_536,
    bytes: 67_108_864,
};

/// The machine of the session that the text defines.
pub(crate) fn started(alloc: Global, text: &str) -> Result<World, Fail>
    ensures { IfOk result (λ world. (p : ℕ) → is_waiting world p ≡ false) }
{
    nobody_waits_at_start();
    let session = read(alloc, text.as_bytes())?;
    let world = World::start(alloc, session.config(), session.key_tables())?;
    Ok(world)
}

/// Makes a call: WaitEnd if the pass waits.
pub(crate) fn ask<J: Opening, R: Wait>(
    seat: &Seat<J, R>,
    pass: &mut Pass<J>,
    waits: bool,
    event: Event,
) -> Result<Answer, NoMemory>
    requires ready { IsReady seat.now waits pass.old }
    requires call { ends_wait event ≡ false → waits ≡ false }
    ensures { IfOk result (λ answer. IsReady seat.now (is_told_to_wait answer) pass.new) }
{
    seat.ask(pass, event)
}

/// The run, after every pass has come back.
pub(crate) fn closed<J: Opening>(hub: Hub<J>, steward: Steward<J>) -> Result<Run, Fail>
    requires { steward.hub ≡ hub }
{
    if steward.out() != 0 {
        return Err("a pass is out".into());
    }
    Ok(hub.close(steward))
}
