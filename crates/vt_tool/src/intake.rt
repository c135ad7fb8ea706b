ghost use Rattle.std.specs.Prelude.{◌≡◌};
ghost use Rattle.vt_tool.specs.Commands.{intake_of};

use crate::command::Command;

/// The most bytes of input that `screen` reads. This project's own.
pub(crate) const SCREEN_LIMIT: usize = 67_108_864;

/// The most bytes of input that a command reads, if it has no limit of its own. This project's own.
const TEXT_LIMIT: usize = 16_777_216;

/// The part of the source that a command reads.
#[derive(Clone, Copy)]
pub(crate) enum Intake {
    /// All of it to its end, at most this many bytes.
    ToEnd(usize),
    /// All of it to its end, at most this many bytes, piece by piece: no piece is kept.
    InPieces(usize),
    /// Nothing.
    NoInput,
}

/// The part of the source that the command reads.
pub(crate) fn intake_for(command: Command) -> Intake
    ensures { result ≡ intake_of command }
{
    match command {
        Command::Screen { .. } => Intake::InPieces(SCREEN_LIMIT),
        Command::Drill { .. } => Intake::NoInput,
        _ => Intake::ToEnd(TEXT_LIMIT),
    }
}
