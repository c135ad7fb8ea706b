//! The final text by a parallel map, compared with that of one thread.
use session_run::{Run, drill_session, final_text, final_text_map, play};
use session_text::Session;
use std::alloc::Global;
use std::test::Fail;
use std::thread::Threads;
use vt_base::NoMemory;

fn has_text(alloc: Global, run: &Run, wanted: &[u8]) -> Result<bool, NoMemory> {
    Ok(final_text(alloc, run)?.as_slice() == wanted)
}

// Whether both ways give one text of the run.
fn is_alike<R: Threads + Sync>(rt: &R, alloc: Global, run: &Run) -> Result<bool, NoMemory> {
    let by_map = final_text_map(rt, alloc, run)?;
    has_text(alloc, run, by_map.as_slice())
}

fn plays_alike<R: Threads + Sync>(rt: &R, alloc: Global, s: &Session) -> Result<bool, NoMemory> {
    let run = play(alloc, s)?;
    is_alike(rt, alloc, &run)
}

#[test]
fn a_map_prints_what_one_thread_prints(rt: HostRuntime) -> Result<(), Fail> {
    let session = drill_session(rt.alloc(), 100, 7)?;
    let alike = plays_alike(&rt, rt.alloc(), &session)?;
    assert!(rt; alike, "the texts differ");
    Ok(())
}
