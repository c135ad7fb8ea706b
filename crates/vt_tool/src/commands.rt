//! The commands: one file for each.
ghost use Rattle.std.specs.Prelude.{IfOk};
ghost use Rattle.vt_tool.specs.Commands.{Gives, IsFit, IsSerial, TakesText, intake_of};
ghost use Rattle.vt_tool.specs.Input.{IsWithin};

mod accept;
mod check;
mod cook;
mod cut;
mod drill;
mod dumpkeys;
mod explain;
mod judge_request;
mod judging;
mod keys;
mod lines;
mod play;
pub mod race;
mod review;
pub mod screen;
mod session;
mod typing;
mod upgrade;

use crate::answer::Answer;
use crate::command::Command;
use crate::commands::judge_request::JudgeRequest;
use std::alloc::Global;
use vt_base::NoMemory;

/// The answer of a command that needs no threads, for an input that it takes as one text.
pub(crate) fn answer_to(alloc: Global, command: Command, input: &[u8]) -> Result<Answer, NoMemory>
    requires serial { IsSerial command }
    requires text { TakesText command }
    requires fit { IsFit command }
    requires within { IsWithin (intake_of command) input.now }
    ensures { IfOk result (Gives command input.now) }
{
    match command {
        Command::Keys => keys::answer(alloc, input),
        Command::Typing => typing::answer(alloc, input),
        Command::Play => play::answer(alloc, input),
        Command::Check => judging::answer(alloc, JudgeRequest::Verdict, input),
        Command::Drill { n, seed } => drill::answer(alloc, n, seed),
        Command::Upgrade => upgrade::answer(alloc, input),
        Command::Cook => cook::answer(alloc, input),
        Command::DumpKeys => dumpkeys::answer(alloc, input),
        Command::Review { kinds, console } => {
            judging::answer(alloc, JudgeRequest::Review { kinds, console }, input)
        }
        Command::Explain => judging::answer(alloc, JudgeRequest::Explanation, input),
        Command::Accept => judging::answer(alloc, JudgeRequest::Acceptance, input),
        Command::Screen { .. } | Command::Race => unreachable!(),
    }
}
