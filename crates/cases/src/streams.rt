use crate::case::Case;
use std::alloc::Global;
use vt_base::{Bytes, NoMemory};
use vt_io::{MemSink, MemSource};

/// The source and the two sinks of one run.
#[derive(Drop)]
pub(crate) struct Streams {
    pub src: MemSource,
    pub out: MemSink,
    pub err: MemSink,
}

/// The streams of the case, with so much room in out.
pub(crate) fn streams_of(alloc: Global, case: &Case, room: usize) -> Result<Streams, NoMemory> {
    let src = source(alloc, case.input.as_slice(), case.reads.as_slice())?;
    let out = sink(alloc, room, case.writes.as_slice())?;
    let err = sink(alloc, case.err_room, case.says.as_slice())?;
    Ok(Streams { src, out, err })
}

fn source(alloc: Global, input: &[u8], fails: &[u8]) -> Result<MemSource, NoMemory> {
    let bytes = Bytes::from_slice(alloc, input)?;
    Ok(MemSource::new(bytes, Bytes::from_slice(alloc, fails)?))
}

fn sink(alloc: Global, room: usize, fails: &[u8]) -> Result<MemSink, NoMemory> {
    let room = Bytes::with_room(alloc, room)?;
    Ok(MemSink::new(room, Bytes::from_slice(alloc, fails)?))
}
