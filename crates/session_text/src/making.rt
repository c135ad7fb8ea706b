//! Sessions made of their parts.
ghost use Rattle.std.specs.Prelude.{IfOk};
ghost use Rattle.session_text.specs.Parts.{AreFit, IsMadeOf};

use crate::Session;
use crate::parts::SessionParts;
use crate::starts::{programs, starts};
use std::alloc::Global;
use vt_base::{NoMemory, Size};
use vt_journal::Limits;
use vt_procs::Config;

/// The session of the parts.
pub(crate) fn session(alloc: Global, parts: SessionParts) -> Result<Session, NoMemory>
    requires { AreFit parts }
    ensures { IfOk result (IsMadeOf parts) }
{
    let SessionParts {
        opening,
        keyboard,
        turns,
        processes,
        further,
    } = parts;
    let config = Config {
        size: Size {
            rows: opening.rows,
            cols: opening.cols,
        },
        consoles: opening.consoles,
        front: opening.front,
        keyboards: further.len() as u8 + 1,
        procs: starts(processes.as_slice()),
    };
    let limits = Limits {
        events: opening.events,
        bytes: opening.bytes,
    };
    let programs = programs(alloc, keyboard.keys, processes, further)?;
    Ok(Session::make(config, keyboard.tables, limits, turns, programs))
}
