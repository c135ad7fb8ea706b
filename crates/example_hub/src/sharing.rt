//! The hub of both processes.
ghost use Rattle.std.specs.Prelude.{◌≡◌, ℕ, false, IfOk, slice_set};
ghost use Rattle.vt_hub.specs.Ready.{IsReady};
ghost use Rattle.vt_hub.specs.Views.{stand_at};
ghost use Rattle.vt_hub.specs.declared.pass_place.PassPlace.TheVariants.{Home, Unmade};
ghost use Rattle.vt_world.specs.History.{IsLegal, replay};
ghost use Rattle.vt_world.specs.State.{is_waiting};

use crate::asker::ask;
use crate::calling::exit;
use crate::server::{serve, take_switches};
use std::alloc::Global;
use std::marker::Brand;
use std::sync::Wait;
use std::thread;
use std::thread::Threads;
use vt_base::{CallerNo, NoMemory};
use vt_hub::{Hub, Opening, Pass, Run, Seat, Steward};
use vt_journal::Limits;
use vt_world::World;

/// The most entries of the journal, and the most bytes that they may count for together.
const LIMITS: Limits = Limits {
    events: 64,
    bytes: 65_536,
};

/// The run of both processes on this machine. This function picks the name of the world for the proofs.
pub(crate) fn shared<R: Threads + Wait + Sync>(
    rt: &R,
    alloc: Global,
    world: World,
    text: &[u8],
) -> Result<Run, NoMemory>
    requires free { (p : ℕ) → is_waiting world p ≡ false }
    ensures legal { IfOk result (λ run. IsLegal world run.log.entries) }
    ensures world { IfOk result (λ run. run.world ≡ replay world run.log.entries) }
{
    share::<Brand, R>(rt, alloc, world, text)
}

fn share<J: Opening + Send + Sync, R: Threads + Wait + Sync>(
    rt: &R,
    alloc: Global,
    world: World,
    text: &[u8],
) -> Result<Run, NoMemory>
    requires start { world ≡ J.start }
    requires limits { J.limits ≡ record { events = 64; bytes = 65_536 } }
    requires free { (p : ℕ) → is_waiting world p ≡ false }
    ensures legal { IfOk result (λ run. IsLegal J.start run.log.entries) }
    ensures world { IfOk result (λ run. run.world ≡ replay J.start run.log.entries) }
{
    let (hub, mut steward) = Hub::<J>::open(alloc, world, LIMITS)?;
    let seat = Seat {
        rt,
        alloc,
        hub: &hub,
    };
    unplug(&seat, &mut steward);
    let mut server = hub.split(&mut steward, CallerNo::numbered(1));
    let asker = hub.split(&mut steward, CallerNo::numbered(2));
    take_switches(&seat, &mut server)?;
    let (server, asker) = thread::join(
        rt,
        || -> Result<Pass<J>, NoMemory>
            requires { IsReady seat false server × (server.number ≡ 1) }
            ensures { IfOk result (λ after. (after.hub ≡ seat.entry) × (after.number ≡ 1)) }
        { serve(&seat, server) },
        || -> Result<Pass<J>, NoMemory>
            requires { IsReady seat false asker × (asker.number ≡ 2) }
            ensures { IfOk result (λ after. (after.hub ≡ seat.entry) × (after.number ≡ 2)) }
        { ask(&seat, asker, text) },
    );
    hub.join(&mut steward, server?);
    hub.join(&mut steward, asker?);
    Ok(hub.close(steward))
}

// Nobody types, so the keyboard leaves first: a wait of the only process that is left then ends by itself.
fn unplug<J: Opening, R: Wait>(seat: &Seat<J, R>, steward: &mut Steward<J>)
    requires own { steward.old.hub ≡ seat.now }
    requires fresh { stand_at steward.old.stands 0 ≡ Unmade }
    ensures hub { steward.new.hub ≡ seat.now }
    ensures stands { steward.new.stands ≡ slice_set steward.old.stands 0 Home }
{
    let mut pass = seat.hub.split(steward, CallerNo::KEYBOARD);
    exit(seat, &mut pass);
    seat.hub.join(steward, pass);
}
