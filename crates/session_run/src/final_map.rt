//! The final text, of which each console's part is made in a thread of its own.
ghost use Rattle.std.specs.Prelude.{◌≡◌, ℕ, ◌+◌, ◌<◌, ◌++◌, length, IfOk, OnOk, slice_index_or, vec_len};
ghost use Rattle.session_run.specs.Final.{consoles_text, final_text, text_at};

use crate::final_texts::{add_console_part, add_display};
use std::alloc::Global;
use std::thread::{Threads, map_indices};
use vt_base::{Bytes, NoMemory};
use vt_hub::Run;
use vt_journal::add;
use vt_world::World;

/// How many consoles there are.
const CONSOLES: usize = 63;

/// The final text of a run, the same as that of `final_text`. The text of each console is made by a thread
/// of its own, or one after another if no thread can be made; then the texts are joined in rising order.
pub fn final_text_map<R: Threads + Sync>(rt: &R, alloc: Global, r: &Run) -> Result<Bytes, NoMemory>
    ensures { IfOk result (λ text. text.bytes ≡ final_text r.now.world) }
{
    let parts = console_parts(rt, alloc, &r.world)?;
    let mut text = Bytes::new(alloc);
    add_display(alloc, &mut text, &r.world)?;
    add_parts(alloc, &mut text, &parts, &r.world)?;
    add(alloc, &mut text, b"%done\n")?;
    Ok(text)
}

// The text of each console, by rising number.
fn console_parts<R: Threads + Sync>(
    rt: &R,
    alloc: Global,
    world: &World,
) -> Result<Vec<Result<Bytes, NoMemory>>, NoMemory>
    ensures len { IfOk result (λ parts. vec_len parts ≡ 63) }
    ensures each { IfOk result (λ parts. (i : ℕ) (d : _) → i < 63
        → IfOk (slice_index_or parts.items i d) (λ part. part.bytes ≡ text_at world.now (i + 1))) }
{
    let parts = map_indices(
        rt,
        alloc,
        CONSOLES,
        &|i: usize| console_part(alloc, world, i),
    )?;
    Ok(parts)
}

// The text of the console that follows `i` others.
fn console_part(alloc: Global, world: &World, i: usize) -> Result<Bytes, NoMemory>
    requires { i < 63 }
    ensures { IfOk result (λ text. text.bytes ≡ text_at world.now (i + 1)) }
{
    let mut text = Bytes::new(alloc);
    add_console_part(alloc, &mut text, world, i as u16 + 1)?;
    Ok(text)
}

// Adds the texts of all consoles, in order.
fn add_parts(
    alloc: Global,
    text: &mut Bytes,
    parts: &[Result<Bytes, NoMemory>],
    world: &World,
) -> Result<(), NoMemory>
    requires len { length parts.now ≡ 63 }
    requires each { (i : ℕ) (d : _) → i < 63
        → IfOk (slice_index_or parts.now i d) (λ part. part.bytes ≡ text_at world.now (i + 1)) }
    ensures { OnOk result (text.new.bytes ≡ text.old.bytes ++ consoles_text world.now 1 63) }
{
    let _ = world; // opens the world
    for part in parts {
        match part {
            Ok(part) => add(alloc, text, part.as_slice())?,
            Err(missing) => return Err(*missing),
        }
    }
    Ok(())
}
