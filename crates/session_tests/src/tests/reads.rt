//! Reads of a race that fail: none is tried again (docs/reference/program.md).
use super::printed::{Printed, run_from, words_of};
use std::alloc::Global;
use std::sync::Wait;
use std::test::Fail;
use std::thread::Threads;
use test_sessions::HANDOVER;
use vt_base::{Bytes, NoMemory};
use vt_io::{MemSource, OpenGate};

// Line feeds that no single read takes whole.
const FILL: usize = 70_000;

// A session after the line feeds.
fn text(alloc: Global) -> Result<Vec<u8>, NoMemory> {
    let mut text = Vec::new(alloc);
    for _ in 0..FILL {
        text.push(b'\n')?;
    }
    text.extend_from_slice(HANDOVER.as_bytes())?;
    Ok(text)
}

// A source of that text that fails at these reads.
fn source(alloc: Global, fails: &[u8]) -> Result<MemSource, NoMemory> {
    let given = text(alloc)?;
    let bytes = Bytes::from_slice(alloc, given.as_slice())?;
    let fails = Bytes::from_slice(alloc, fails)?;
    Ok(MemSource::new(bytes, fails))
}

fn raced<R: Threads + Wait + Sync>(
    rt: &R,
    alloc: Global,
    src: &mut MemSource,
) -> Result<Printed, NoMemory> {
    let words = words_of(alloc, &["race"])?;
    run_from(rt, alloc, words.as_slice(), src, &OpenGate)
}

// Whether nothing is printed, and the line on err is that of a failed read.
fn ends_in_fault(printed: &Printed) -> bool {
    printed.status == 2
        && printed.out.held().is_empty()
        && printed.err.held() == b"vt: read failed\n".as_slice()
}

fn fails_at<R: Threads + Wait + Sync>(
    rt: &R,
    alloc: Global,
    fails: &[u8],
) -> Result<bool, NoMemory> {
    let mut src = source(alloc, fails)?;
    let printed = raced(rt, alloc, &mut src)?;
    Ok(ends_in_fault(&printed))
}

#[test]
fn a_failed_read_is_not_tried_again(rt: HostRuntime) -> Result<(), Fail> {
    for fails in [b"\x01\x00", b"\x00\x01"] {
        let failed = fails_at(&rt, rt.alloc(), fails)?;
        assert!(rt; failed, "{fails:?}");
    }
    Ok(())
}
