//! The machine of a session's start, and laws of every session.
ghost use Rattle.std.specs.Prelude.{◌≡◌, IfOk};
ghost use Rattle.session_order.specs.Laws.{IsFromStart};
ghost use Rattle.session_order.specs.Sessions.{AreOfCallers, LegalAreRight, setup_of, start_of};
ghost use Rattle.vt_world.specs.Laws.{IsStart};

use session_text::Session;
use std::alloc::Global;
use vt_base::NoMemory;
use vt_world::World;

/// The machine of the session's start.
pub fn start_of(alloc: Global, s: &Session) -> Result<World, NoMemory>
    ensures { IfOk result (λ world. world ≡ start_of s.now) }
{
    World::start(alloc, s.config(), s.key_tables())
}

/// Laws of every session: it begins at a start of the machine, only callers have a program, and each
/// history that is legal, follows the programs and ends rightly is a right history.
pub fn session_laws(s: &Session)
    ensures start { IsStart (start_of s.now) }
    ensures setup { IsFromStart (setup_of s.now) }
    ensures programs { AreOfCallers s.now.programs }
    ensures right { LegalAreRight s.now }
{
    let config = s.config();
    let _starts = config.procs.as_slice(); // it says that the processes are few
    let _programs = s.programs(); // it says that callers alone have programs
}
