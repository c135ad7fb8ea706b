//! `drill N SEED`: five numbers of the serial play of a session that is made from a number.
ghost use Rattle.std.specs.Prelude.{◌≡◌, ◌≤◌, IfOk};
ghost use Rattle.vt_tool.specs.Commands.Drill.{GivesDrill, drill_text, dropped_in};

use crate::answer::Answer;
use crate::commands::lines::add_number;
use crate::commands::session::status_of;
use session_run::{Run, drill_session, play};
use std::alloc::Global;
use vt_base::{Bytes, ConsoleNo, NoMemory};
use vt_world::World;

/// The numbers of the session's serial play.
pub(crate) fn answer(alloc: Global, n: u32, seed: u64) -> Result<Answer, NoMemory>
    requires some { 1 ≤ n }
    requires few { n ≤ 10_000 }
    ensures { IfOk result (GivesDrill n seed) }
{
    let session = drill_session(alloc, n, seed)?;
    let run = play(alloc, &session)?;
    let text = numbers_of(alloc, &run)?;
    let status = status_of(&run.tail());
    Ok(Answer::new(status, text))
}

fn numbers_of(alloc: Global, run: &Run) -> Result<Bytes, NoMemory>
    ensures { IfOk result (λ text. text.bytes ≡ drill_text run.now.log.entries run.now.world) }
{
    let mut text = Bytes::new(alloc);
    add_number(alloc, &mut text, b"events", run.log.entries().len() as u64)?;
    add_number(alloc, &mut text, b"bytes", run.log.bytes())?;
    add_number(alloc, &mut text, b"hops", run.world.hops())?;
    add_number(alloc, &mut text, b"dropped", dropped(&run.world))?;
    add_number(
        alloc,
        &mut text,
        b"display",
        u64::from(run.world.display().get()),
    )?;
    Ok(text)
}

// The number of pieces that all queues dropped.
fn dropped(world: &World) -> u64
    ensures { result ≡ dropped_in world.now }
{
    let mut sum = 0;
    for i in 0..63 {
        let c = ConsoleNo::numbered(i + 1);
        sum += u64::from(world.queue(c).dropped());
    }
    sum
}
