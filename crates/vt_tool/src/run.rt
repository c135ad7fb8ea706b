ghost use Rattle.std.specs.Prelude.{map, string_bytes};
ghost use Rattle.vt_tool.specs.Commands.{all_forms};
ghost use Rattle.vt_tool.specs.Journals.{TellsDisplays};
ghost use Rattle.vt_tool.specs.Run.{Completes, Holds, ProgramRun};

use crate::command::Command;
use crate::commands::race;
use crate::reading::input_of;
use crate::status::Status;
use crate::telling::write_status;
use crate::tool::vt_command;
use crate::words::is_race;
use crate::writing::write_answer;
use std::alloc::Global;
use std::sync::Wait;
use std::thread::Threads;
use vt_io::{Gate, Sink, Source};

/// Runs the command of the words over the source and the sinks. `race` gives each caller a thread, and calls the
/// gate before each call on the machine. Every other command is done by `vt_command`.
pub fn vt_run<S: Source, O: Sink, E: Sink, G: Gate + Sync, R: Threads + Wait + Sync>(
    rt: &R,
    alloc: Global,
    words: &[String],
    src: &mut S,
    out: &mut O,
    err: &mut E,
    gate: &G,
) -> Status
    ensures run { ProgramRun all_forms (map string_bytes words.now)
        (record { src = S.stream src.old; out = O.stream out.old; err = E.stream err.old })
        (record { src = S.stream src.new; out = O.stream out.new; err = E.stream err.new }) result }
    ensures complete { Completes all_forms (map string_bytes words.now)
        (record { src = S.stream src.old; out = O.stream out.old; err = E.stream err.old })
        (record { src = S.stream src.new; out = O.stream out.new; err = E.stream err.new }) result }
    ensures displays { TellsDisplays all_forms (map string_bytes words.now)
        (record { src = S.stream src.old; out = O.stream out.old; err = E.stream err.old })
        (record { src = S.stream src.new; out = O.stream out.new; err = E.stream err.new }) result }
{
    if !is_race(words) {
        return vt_command(alloc, words, src, out, err);
    }
    let first = do_race(rt, alloc, src, out, gate);
    write_status(err, first)
}

// Does `race`.
fn do_race<S: Source, O: Sink, G: Gate + Sync, R: Threads + Wait + Sync>(
    rt: &R,
    alloc: Global,
    src: &mut S,
    out: &mut O,
    gate: &G,
) -> Status
    ensures { Holds Command.Race
        (S.stream src.old) (S.stream src.new) (O.stream out.old) (O.stream out.new) result }
{
    match input_of(alloc, Command::Race, src) {
        Ok(input) => write_answer(out, race::answer(rt, alloc, input.as_slice(), gate)),
        Err(status) => status,
    }
}
