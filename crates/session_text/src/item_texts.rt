//! Script items read from their texts.
ghost use Rattle.std.specs.Prelude.{◌≡◌, ◌≤◌, true, false, drop, length, map, IfOk, IfSome, IfNone, ℕ};
ghost use Rattle.vt_events.specs.declared.event.Event.{Event};
ghost use Rattle.vt_journal.specs.Words.{Spells};
ghost use Rattle.session_text.specs.ItemTexts.{AreSay, IsItem, IsSaid, IsSay, is_item};

use crate::hook_texts::number;
use crate::hooks::words;
use std::alloc::Global;
use vt_base::{Bytes, NoMemory};
use vt_events::Event;
use vt_journal::read_event;

// The beginning of a `say`: its descriptor, and the place at which its text starts.
#[derive(Clone, Copy)]
struct Said {
    fd: u16,
    start: usize,
}

/// The item that the text is.
pub(crate) fn item(alloc: Global, text: &str) -> Result<Option<Event>, NoMemory>
    ensures found { IfOk result (λ found. IfSome found (IsItem text.now)) }
    ensures none { IfOk result (λ found. IfNone found ((e : Event) → ¬ IsItem text.now e)) }
{
    match say(alloc, text)? {
        Some(e) => Ok(Some(e)),
        None => call(alloc, text),
    }
}

// The call that the text spells, if a script may have it.
fn call(alloc: Global, text: &str) -> Result<Option<Event>, NoMemory>
    ensures found { IfOk result
        (λ found. IfSome found (λ e. Spells text.now e × (is_item e ≡ true))) }
    ensures none { IfOk result
        (λ found. IfNone found ((e : Event) → Spells text.now e → is_item e ≡ false)) }
{
    match read_event(alloc, text.as_bytes())? {
        Some(e) => {
            if !is_item(&e) {
                return Ok(None);
            }
            Ok(Some(e))
        }
        None => Ok(None),
    }
}

fn is_item(e: &Event) -> bool
    ensures { result ≡ is_item e.now }
{
    !matches!(
        e,
        Event::Scan(_) | Event::Exit | Event::WaitEnd | Event::TakeSignals
    )
}

// A write of the text after the second blank.
fn say(alloc: Global, text: &str) -> Result<Option<Event>, NoMemory>
    ensures found { IfOk result (λ found. IfSome found (IsSay text.now)) }
    ensures none { IfOk result (λ found. IfNone found ((e : Event) → ¬ IsSay text.now e)) }
{
    // Most items are no `say`, and needn't be cut into words to see that.
    if !text.as_bytes().starts_with(b"say ") {
        return Ok(None);
    }
    let words = words(alloc, text)?;
    match read_say(words.as_slice()) {
        Some(said) => {
            let bytes = Bytes::from_slice(alloc, bytes_from(text, said.start))?;
            Ok(Some(Event::Write(said.fd, bytes)))
        }
        None => Ok(None),
    }
}

// The bytes of a text from a place on.
fn bytes_from(text: &str, start: usize) -> &[u8]
    requires { start ≤ length text.now }
    ensures { result.now ≡ drop start text.now }
{
    &text.as_bytes()[start..]
}

// The descriptor of a `say`, and the place at which its text starts.
fn read_say(words: &[&str]) -> Option<Said>
    ensures found { IfSome result (IsSaid (map (λ word. word.now) words.now)) }
    ensures none { IfNone result
        ((fd : ℕ) → ¬ AreSay (map (λ word. word.now) words.now) fd) }
{
    let ["say", fd, _, ..] = words else {
        return None;
    };
    let start = fd.len() + 5;
    let fd = number(fd)?;
    Some(Said { fd, start })
}
