ghost use Rattle.std.specs.Prelude.{◌≡◌, ◌≢◌, []};
ghost use Rattle.vt_tool.specs.Run.{Tells};
ghost use Rattle.vt_tool.specs.Status.{line_of};

use crate::status::Status;
use crate::writing::write_all;
use arrayvec::ArrayString;
use itoa::Buffer;
use vt_io::Sink;
use vt_journal::Full;

/// Room for a line with three numbers of at most 40 bytes each.
const LINE_BYTES: usize = 160;

/// Writes the status's line to standard error, and returns the status of the run.
pub(crate) fn write_status<E: Sink>(err: &mut E, first: Status) -> Status
    ensures { Tells first (E.stream err.old) (E.stream err.new) result }
{
    match first {
        Status::Fine => Status::Fine,
        Status::Usage => write_line(
            err,
            first,
            b"vt: usage: screen R C | keys | type | play | race | check | drill N SEED | upgrade | cook | dumpkeys | review K N | explain | accept\n",
        ),
        Status::ReadFault => write_line(err, first, b"vt: read failed\n"),
        Status::WriteFault => write_line(err, first, b"vt: write failed\n"),
        Status::NoMemory => write_line(err, first, b"vt: no memory\n"),
        Status::Refused { code, a, b } => {
            let line = refusal_line(code, a, b);
            write_line(err, first, line.as_str().as_bytes())
        }
        Status::TooLong => write_line(err, first, b"vt: input too long\n"),
        Status::JournalFull(full) => {
            let line = full_line(&full);
            write_line(err, first, line.as_str().as_bytes())
        }
        Status::Illegal { index, why } => {
            let line = illegal_line(index, why);
            write_line(err, first, line.as_str().as_bytes())
        }
    }
}

fn write_line<E: Sink>(err: &mut E, first: Status, line: &[u8]) -> Status
    requires line { line.now ≡ line_of first }
    requires some { line_of first ≢ [] }
    ensures { Tells first (E.stream err.old) (E.stream err.new) result }
{
    match write_all(err, line) {
        Ok(()) => first,
        Err(_) => Status::WriteFault,
    }
}

// The line of a refusal, made with no memory.
fn refusal_line(code: u16, a: u32, b: u32) -> ArrayString<LINE_BYTES>
    ensures { result.bytes ≡ line_of (Status.Refused code a b) }
{
    let mut number = Buffer::new();
    let mut line = ArrayString::new();
    line.push_str("vt: refused ");
    line.push_str(number.format(code));
    line.push_str(" at ");
    line.push_str(number.format(a));
    line.push_str(":");
    line.push_str(number.format(b));
    line.push_str("\n");
    line
}

// The line of a full journal, made with no memory.
fn full_line(full: &Full) -> ArrayString<LINE_BYTES>
    ensures { result.bytes ≡ line_of (Status.JournalFull full.now) }
{
    let mut number = Buffer::new();
    let mut line = ArrayString::new();
    line.push_str("vt: journal full ");
    line.push_str(number.format(full.events));
    line.push_str(" ");
    line.push_str(number.format(full.bytes));
    line.push_str(" ");
    line.push_str(number.format(full.charge));
    line.push_str("\n");
    line
}

// The line of an illegal journal, made with no memory.
fn illegal_line(index: u32, why: u8) -> ArrayString<LINE_BYTES>
    ensures { result.bytes ≡ line_of (Status.Illegal index why) }
{
    let mut number = Buffer::new();
    let mut line = ArrayString::new();
    line.push_str("vt: illegal ");
    line.push_str(number.format(index));
    line.push_str(" ");
    line.push_str(number.format(why));
    line.push_str("\n");
    line
}
