ghost use Rattle.vt_tool.specs.Commands.{TakesText};
ghost use Rattle.vt_tool.specs.Reading.{EndsReading, GivesInput, IsWhole};

use crate::command::Command;
use crate::intake::{Intake, intake_for};
use crate::read_end::ReadEnd;
use crate::status::Status;
use std::alloc::Global;
use vt_base::Bytes;
use vt_io::Source;

/// The most bytes that one read asks for.
const READ_BYTES: usize = 65_536;

/// The input of the command, or the status of a run without it.
pub(crate) fn input_of<S: Source>(
    alloc: Global,
    command: Command,
    src: &mut S,
) -> Result<Bytes, Status>
    requires { TakesText command }
    ensures { GivesInput command (S.stream src.old) (S.stream src.new) result }
{
    match read_input(alloc, src, intake_for(command)) {
        Ok(input) => Ok(input),
        Err(ReadEnd::Fault) => Err(Status::ReadFault),
        Err(ReadEnd::TooLong) => Err(Status::TooLong),
        Err(ReadEnd::NoMemory) => Err(Status::NoMemory),
    }
}

// Reads the input of a command as one text.
fn read_input<S: Source>(alloc: Global, src: &mut S, intake: Intake) -> Result<Bytes, ReadEnd>
    requires { IsWhole intake }
    ensures { EndsReading intake (S.stream src.old) (S.stream src.new) result }
{
    match intake {
        Intake::ToEnd(limit) => read_to_end(alloc, src, limit),
        Intake::NoInput => Ok(Bytes::new(alloc)),
        Intake::InPieces(_) => unreachable!(),
    }
}

fn read_to_end<S: Source>(alloc: Global, src: &mut S, limit: usize) -> Result<Bytes, ReadEnd>
    ensures { EndsReading (Intake.ToEnd limit) (S.stream src.old) (S.stream src.new) result }
{
    let mut piece = [0; READ_BYTES];
    let mut input = Bytes::with_room(alloc, 0)?;
    'reads: loop {
        let count = src.read(&mut piece)?;
        if count == 0 {
            return Ok(input);
        }
        if count > limit - input.as_slice().len() {
            return Err(ReadEnd::TooLong);
        }
        input.grow(alloc, count)?;
        input.append(&piece[..count]);
    }
}
