//! How races end: their status, the end of the journal and the line on err (docs/reference/program.md).
use super::printed::{Printed, in_order, race_text};
use std::alloc::Global;
use std::sync::Wait;
use std::test::Fail;
use std::thread::Threads;
use test_sessions::{HANDOVER, ORDINARY};
use vt_base::NoMemory;
use vt_io::OpenGate;

// Whether it ended with this status, and the journal and the line on err are these.
fn ended(printed: &Printed, status: u8, end: &str, said: &str) -> bool {
    printed.status == status
        && in_order(printed.out.held(), &[end])
        && printed.err.held() == said.as_bytes()
}

// Whether a race of the session of this text ends so.
fn ends<R: Threads + Wait + Sync>(
    rt: &R,
    alloc: Global,
    text: &str,
    status: u8,
    end: &str,
    said: &str,
) -> Result<bool, NoMemory> {
    let printed = race_text(rt, alloc, text.as_bytes(), &OpenGate)?;
    Ok(ended(&printed, status, end, said))
}

// The same for a session whose journal holds three calls.
fn ends_full<R: Threads + Wait + Sync>(rt: &R, alloc: Global) -> Result<bool, NoMemory> {
    let text = format!(in alloc; "events = 3\n{HANDOVER}")?;
    let said = "vt: journal full 3 192 64\n";
    ends(rt, alloc, text.as_str(), 7, "\n%full 3 192 64\n", said)
}

#[test]
fn races_end_as_they_should(rt: HostRuntime) -> Result<(), Fail> {
    let whole = ends(&rt, rt.alloc(), ORDINARY, 0, "\n%end ", "")?;
    assert!(rt; whole, "an ordinary session");
    let full = ends_full(&rt, rt.alloc())?;
    assert!(rt; full, "a full journal");
    Ok(())
}
