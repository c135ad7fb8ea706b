ghost use Rattle.std.specs.Prelude.{◌≡◌, ◌≤◌, [], ◌∷◌, ◌++◌, codes, decimal, map, IfOk, OnOk};
ghost use Rattle.vt_journal.specs.Journal.{line_text};
ghost use Rattle.session_run.specs.Final.{console_text, consoles_text, final_text, queue_words, text_at};
ghost use Rattle.vt_world.specs.Inputs.{input_at};
ghost use Rattle.vt_world.specs.Terminals.{bells_of, emu_of, terminal_at};

use in_queue::InQueue;
use std::alloc::Global;
use vt_base::{Bytes, ConsoleNo, NoMemory};
use vt_dump::add_rows;
use vt_hub::Run;
use vt_journal::{add, add_hex, add_next};
use vt_screen::Emu;
use vt_world::World;

/// The final text of a run: the display, and each allocated console in rising order with its screen and
/// its queue.
pub fn final_text(alloc: Global, r: &Run) -> Result<Bytes, NoMemory>
    ensures { IfOk result (λ text. text.bytes ≡ final_text r.now.world) }
{
    let mut text = Bytes::new(alloc);
    add_final_text(alloc, &mut text, &r.world)?;
    Ok(text)
}

fn add_final_text(alloc: Global, text: &mut Bytes, world: &World) -> Result<(), NoMemory>
    ensures { OnOk result (text.new.bytes ≡ text.old.bytes ++ final_text world.now) }
{
    add_display(alloc, text, world)?;
    add_consoles(alloc, text, world)?;
    add(alloc, text, b"%done\n")?;
    Ok(())
}

/// Adds the line of the display.
pub(crate) fn add_display(alloc: Global, text: &mut Bytes, world: &World) -> Result<(), NoMemory>
    ensures { OnOk result (text.new.bytes
        ≡ text.old.bytes ++ line_text (codes "%display" ∷ decimal world.now.display.front ∷ [])) }
{
    add(alloc, text, b"%display")?;
    add_next(alloc, text, u64::from(world.display().get()))?;
    add(alloc, text, b"\n")?;
    Ok(())
}

fn add_consoles(alloc: Global, text: &mut Bytes, world: &World) -> Result<(), NoMemory>
    ensures { OnOk result (text.new.bytes ≡ text.old.bytes ++ consoles_text world.now 1 63) }
{
    for n in 1..64 {
        add_console_part(alloc, text, world, n)?;
    }
    Ok(())
}

/// Adds the text of console `n`, if it is allocated.
pub(crate) fn add_console_part(
    alloc: Global,
    text: &mut Bytes,
    world: &World,
    n: u16,
) -> Result<(), NoMemory>
    requires low { 1 ≤ n }
    requires high { n ≤ 63 }
    ensures { OnOk result (text.new.bytes ≡ text.old.bytes ++ text_at world.now n) }
{
    let Some(c) = ConsoleNo::new(n) else {
        unreachable!()
    };
    match world.screen(c) {
        Some(screen) => add_console(alloc, text, n, screen, world.bells(c), world.queue(c)),
        None => Ok(()),
    }
}

fn add_console(
    alloc: Global,
    text: &mut Bytes,
    n: u16,
    screen: &Emu,
    bells: u32,
    queue: &InQueue,
) -> Result<(), NoMemory>
    ensures { OnOk result (text.new.bytes
        ≡ text.old.bytes ++ console_text n screen.now.state bells queue.now) }
{
    let size = screen.grid().size();
    let state = screen.state();
    let numbers = [
        u32::from(n),
        u32::from(size.rows),
        u32::from(size.cols),
        u32::from(state.x),
        u32::from(state.y),
        bells,
    ];
    add_screen_line(alloc, text, &numbers)?;
    add_rows(alloc, text, screen.grid())?;
    add_queue_line(alloc, text, n, queue)?;
    Ok(())
}

// The line before the rows.
fn add_screen_line(alloc: Global, text: &mut Bytes, numbers: &[u32]) -> Result<(), NoMemory>
    ensures { OnOk result (text.new.bytes
        ≡ text.old.bytes ++ line_text (codes "%screen" ∷ map decimal numbers.now)) }
{
    add(alloc, text, b"%screen")?;
    for n in numbers {
        add_next(alloc, text, u64::from(*n))?;
    }
    add(alloc, text, b"\n")?;
    Ok(())
}

// The line after the rows.
fn add_queue_line(alloc: Global, text: &mut Bytes, n: u16, queue: &InQueue) -> Result<(), NoMemory>
    ensures { OnOk result (text.new.bytes ≡ text.old.bytes ++ line_text (queue_words n queue.now)) }
{
    let bytes = bytes_of(alloc, queue)?;
    add(alloc, text, b"%queue")?;
    add_next(alloc, text, u64::from(n))?;
    add_next(alloc, text, u64::from(queue.dropped()))?;
    add(alloc, text, b" ")?;
    add_hex(alloc, text, bytes.as_slice())?;
    add(alloc, text, b"\n")?;
    Ok(())
}

// The bytes in a queue.
fn bytes_of(alloc: Global, queue: &InQueue) -> Result<Bytes, NoMemory>
    ensures { IfOk result (λ bytes. bytes.bytes ≡ queue.now.bytes) }
{
    let mut bytes = Bytes::with_room(alloc, queue.len())?;
    for i in 0..queue.len() {
        bytes.append(&[queue.at(i)]);
    }
    Ok(bytes)
}
