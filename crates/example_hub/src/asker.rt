//! Process 2, which asks for console 2 and writes there.
ghost use Rattle.std.specs.Prelude.{◌≡◌, false, IfOk};
ghost use Rattle.vt_hub.specs.Ready.{IsReady};

use crate::calling::{call, exit};
use std::sync::Wait;
use vt_base::{Bytes, NoMemory};
use vt_events::Event;
use vt_hub::{Opening, Pass, Seat};

/// Its thread: it writes the text once its console has the display, and exits, also if memory is missing.
pub(crate) fn ask<J: Opening, R: Wait>(
    seat: &Seat<J, R>,
    pass: Pass<J>,
    text: &[u8],
) -> Result<Pass<J>, NoMemory>
    requires ready { IsReady seat.now false pass }
    ensures hub { IfOk result (λ after. after.hub ≡ seat.now) }
    ensures number { IfOk result (λ after. after.number ≡ pass.number) }
{
    let mut pass = pass;
    let shown = show(seat, &mut pass, text);
    exit(seat, &mut pass);
    shown?;
    Ok(pass)
}

fn show<J: Opening, R: Wait>(
    seat: &Seat<J, R>,
    pass: &mut Pass<J>,
    text: &[u8],
) -> Result<(), NoMemory>
    requires ready { IsReady seat.now false pass.old }
    ensures ready { IsReady seat.now false pass.new }
    ensures number { pass.new.number ≡ pass.old.number }
{
    call(seat, pass, Event::OpenCon(2))?;
    call(seat, pass, Event::Activate(0, 2))?;
    call(seat, pass, Event::WaitActive(0, 2))?;
    let text = Bytes::from_slice(seat.alloc, text)?;
    call(seat, pass, Event::Write(0, text))?;
    Ok(())
}
