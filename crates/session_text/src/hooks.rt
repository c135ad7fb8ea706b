//! The hooks of a process, each from its text.
ghost use Rattle.std.specs.Prelude.{◌≡◌, ◌+◌, ◌∷◌, [], map, min, ◌^◌, ◌-◌, IfOk};
ghost use Rattle.session_text.specs.HookTexts.{hook_says, hooks_say, no_hooks, place, words_of};
ghost use Rattle.session_text.specs.Says.{Reads};

use crate::hook_texts::hook_of;
use crate::hooked::Hooked;
use sig_hooks::HookTable;
use std::alloc::{AllocError, Global};
use table_fields::fault_code::HOOK;
use table_fields::{TableError, refused};
use vt_base::{SigSet, Signal};

/// The hooks of process `part`: fault 26 at the first text that is no hook, or whose signal has one already.
pub(crate) fn hooks(alloc: Global, part: u32, texts: &[&str]) -> Result<Hooked, TableError>
    ensures { Reads (λ hooked. hooked) result
        (hooks_say part 1 no_hooks (map (λ text. text.now) texts.now)) }
{
    let mut hooked = no_hooks();
    for (i, text) in texts.iter().enumerate() {
        match with_hook(alloc, part, place(i), hooked, text) {
            Ok(after) => hooked = after,
            Err(e) => return Err(e),
        }
    }
    Ok(hooked)
}

fn no_hooks() -> Hooked
    ensures { result ≡ no_hooks }
{
    Hooked {
        acts: HookTable::empty(),
        signals: SigSet::empty(),
    }
}

// The place of a text, counted from 1.
fn place(i: usize) -> u32
    ensures { result ≡ place (i + 1) }
{
    u32::try_from(i.saturating_add(1)).unwrap_or(u32::MAX)
}

// One hook more.
fn with_hook(
    alloc: Global,
    part: u32,
    item: u32,
    hooked: Hooked,
    text: &str,
) -> Result<Hooked, TableError>
    ensures { Reads (λ after. after) result (hook_says part item hooked text.now) }
{
    let words = words(alloc, text)?;
    let Some(found) = hook_of(words.as_slice()) else {
        return Err(refused(HOOK, part, item));
    };
    let Some(signal) = Signal::new(found.signal) else {
        return Err(refused(HOOK, part, item));
    };
    if hooked.signals.has(signal) {
        return Err(refused(HOOK, part, item));
    }
    let mut hooked = hooked;
    hooked.acts.set(signal, found.act);
    hooked.signals = hooked.signals.with(signal);
    Ok(hooked)
}

/// The words of a text, with one blank between each and the next.
pub(crate) fn words(alloc: Global, text: &str) -> Result<Vec<&str>, AllocError>
    ensures { IfOk result (λ words. map (λ word. word.now) words.items ≡ words_of text.now) }
{
    Ok(text.split(' ').collect(alloc)?)
}
