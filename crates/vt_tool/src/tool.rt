ghost use Rattle.std.specs.Prelude.{map, string_bytes};
ghost use Rattle.vt_tool.specs.Commands.{IsFit, IsSerial, TakesText, serial_forms};
ghost use Rattle.vt_tool.specs.Journals.{TellsDisplays};
ghost use Rattle.vt_tool.specs.Run.{Begins, Completes, Holds, ProgramRun};

use crate::command::Command;
use crate::commands::{answer_to, screen};
use crate::reading::input_of;
use crate::status::Status;
use crate::telling::write_status;
use crate::words::parse_words;
use crate::writing::write_answer;
use std::alloc::Global;
use vt_base::Size;
use vt_io::{Sink, Source};

/// Runs the command of the words over the source and the sinks: its text goes to `out`, and the line of a status
/// other than Fine to `err`. It has every command except `race`, which needs threads.
pub fn vt_command<S: Source, O: Sink, E: Sink>(
    alloc: Global,
    words: &[String],
    src: &mut S,
    out: &mut O,
    err: &mut E,
) -> Status
    ensures run { ProgramRun serial_forms (map string_bytes words.now)
        (record { src = S.stream src.old; out = O.stream out.old; err = E.stream err.old })
        (record { src = S.stream src.new; out = O.stream out.new; err = E.stream err.new }) result }
    ensures complete { Completes serial_forms (map string_bytes words.now)
        (record { src = S.stream src.old; out = O.stream out.old; err = E.stream err.old })
        (record { src = S.stream src.new; out = O.stream out.new; err = E.stream err.new }) result }
    ensures displays { TellsDisplays serial_forms (map string_bytes words.now)
        (record { src = S.stream src.old; out = O.stream out.old; err = E.stream err.old })
        (record { src = S.stream src.new; out = O.stream out.new; err = E.stream err.new }) result }
{
    let first = begin(alloc, words, src, out);
    write_status(err, first)
}

// Does the command of the words, and returns the status whose line is still to be written.
fn begin<S: Source, O: Sink>(alloc: Global, words: &[String], src: &mut S, out: &mut O) -> Status
    ensures { Begins serial_forms (map string_bytes words.now)
        (S.stream src.old) (S.stream src.new) (O.stream out.old) (O.stream out.new) result }
{
    match parse_words(words) {
        Some(command) => do_command(alloc, command, src, out),
        None => Status::Usage,
    }
}

// Does a command that needs no threads.
fn do_command<S: Source, O: Sink>(
    alloc: Global,
    command: Command,
    src: &mut S,
    out: &mut O,
) -> Status
    requires serial { IsSerial command }
    requires fit { IsFit command }
    ensures { Holds command
        (S.stream src.old) (S.stream src.new) (O.stream out.old) (O.stream out.new) result }
{
    match command {
        Command::Screen { rows, cols } => do_screen(alloc, Size { rows, cols }, src, out),
        _ => do_text(alloc, command, src, out),
    }
}

// Does `screen`.
fn do_screen<S: Source, O: Sink>(alloc: Global, size: Size, src: &mut S, out: &mut O) -> Status
    ensures { Holds (Command.Screen size.rows size.cols)
        (S.stream src.old) (S.stream src.new) (O.stream out.old) (O.stream out.new) result }
{
    match screen::draw(alloc, size, src) {
        Ok(emu) => write_answer(out, screen::answer(alloc, &emu)),
        Err(status) => status,
    }
}

// Does a command that takes its input as one text.
fn do_text<S: Source, O: Sink>(alloc: Global, command: Command, src: &mut S, out: &mut O) -> Status
    requires serial { IsSerial command }
    requires text { TakesText command }
    requires fit { IsFit command }
    ensures { Holds command
        (S.stream src.old) (S.stream src.new) (O.stream out.old) (O.stream out.new) result }
{
    match input_of(alloc, command, src) {
        Ok(input) => write_answer(out, answer_to(alloc, command, input.as_slice())),
        Err(status) => status,
    }
}
