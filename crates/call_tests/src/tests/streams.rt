//! The adapters over std's streams, which no proof connects with a real stream.
use super::checks::{check, check_made};
use std::alloc::Global;
use std::io;
use std::io::{ErrorKind, Read, Write};
use vt_base::{CallerNo, NoMemory};
use vt_io::{Failed, Gate, OpenGate, Sink, Source, StdSink, StdSource};

// A stream that is interrupted so often. Then it gives or takes one byte a call, or none if it is full, or
// fails if it is broken. It keeps the last byte that it took.
#[derive(Clone, Copy)]
struct Stream {
    interruptions: u16,
    broken: bool,
    full: bool,
    taken: u8,
}

impl Stream {
    fn next(&mut self) -> io::Result<usize> {
        if self.interruptions > 0 {
            self.interruptions -= 1;
            return Err(io::Error::from(ErrorKind::Interrupted));
        }
        if self.broken {
            return Err(io::Error::from(ErrorKind::BrokenPipe));
        }
        Ok(if self.full { 0 } else { 1 })
    }
}

impl Read for Stream {
    fn read(&mut self, buf: &mut [u8]) -> io::Result<usize> {
        // It writes into the buffer, also if it fails.
        buf.fill(b'x');
        Ok(self.next()?.min(buf.len()))
    }
}

impl Write for Stream {
    fn write(&mut self, buf: &[u8]) -> io::Result<usize> {
        let count = self.next()?.min(buf.len());
        if count == 1 {
            self.taken = buf[0];
        }
        Ok(count)
    }

    fn flush(&mut self) -> io::Result<()> {
        Ok(())
    }
}

// How often the stream is interrupted, whether it is broken and full, and the results of a read and of a write.
type Row = (
    u16,
    bool,
    bool,
    Result<usize, Failed>,
    Result<usize, Failed>,
);

const ROWS: &[Row] = &[
    (0, false, false, Ok(1), Ok(1)),
    (1, false, false, Ok(1), Ok(1)),
    (1_000, false, false, Ok(1), Ok(1)),
    (1_001, false, false, Err(Failed), Err(Failed)),
    (0, true, false, Err(Failed), Err(Failed)),
    (2, true, false, Err(Failed), Err(Failed)),
    (0, false, true, Ok(0), Err(Failed)),
];

fn stream_of(row: &Row) -> Stream {
    let (interruptions, broken, full, _, _) = *row;
    Stream {
        interruptions,
        broken,
        full,
        taken: 0,
    }
}

fn is_read(row: &Row) -> bool {
    let (_, _, _, wanted, _) = *row;
    let mut buf = [b' '; 2];
    let mut src = StdSource::new(stream_of(row));
    let read = src.read(&mut buf);
    read == wanted && (buf[0] == b'x') == (read == Ok(1)) && buf[1] == b' '
}

fn is_written(row: &Row) -> bool {
    let (_, _, _, _, wanted) = *row;
    let mut stream = stream_of(row);
    let mut sink = StdSink::new(&mut stream);
    let written = sink.write(b"yz");
    written == wanted && (stream.taken == b'y') == (written == Ok(1))
}

fn tells_failure(alloc: Global) -> Result<bool, NoMemory> {
    Ok(Failed.to_string(alloc)?.as_str() == "failed")
}

#[test]
fn tries_again_after_an_interruption(rt: HostRuntime) {
    for row in ROWS {
        let (interruptions, ..) = *row;
        check(
            &rt,
            is_read(row) && is_written(row),
            u32::from(interruptions),
        );
    }
    check_made(&rt, tells_failure(rt.alloc()), "Failed");
}

#[test]
fn an_open_gate_holds_nobody_up(rt: HostRuntime) {
    OpenGate.before(&rt, CallerNo::KEYBOARD, 0);
}
