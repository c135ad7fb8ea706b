//! Keyboards over tables of few entries, and whether a key event has the result that is wanted.
mod actions;
mod sent;
mod sessions;

use Wanted::{Attention, Bytes, Last, Next, Nothing, Prev, Spawn, Switch};
use key_machine::{KbState, KeyModes, KeyOut, Keyboard, START_MODES as MODES};
use key_syms::Action;
use key_tables::KeyTables;
use scan_codes::KeyEvent;
use std::alloc::Global;
use vt_base::NoMemory;

// The result of a key event.
#[derive(Clone, Copy)]
enum Wanted {
    Bytes(&'static [u8]),
    Switch(u8),
    Last,
    Next,
    Prev,
    Spawn,
    Attention,
    Nothing,
}

fn is_wanted(out: &KeyOut, wanted: Wanted) -> bool {
    match (out, wanted) {
        (KeyOut::Bytes(bytes), Bytes(wanted)) => bytes.as_slice() == wanted,
        (KeyOut::Switch(n), Switch(wanted)) => *n == wanted,
        (KeyOut::Last, Last) => true,
        (KeyOut::Next, Next) => true,
        (KeyOut::Prev, Prev) => true,
        (KeyOut::Spawn, Spawn) => true,
        (KeyOut::Attention, Attention) => true,
        (KeyOut::Nothing, Nothing) => true,
        _ => false,
    }
}

const DOWN: KeyEvent = KeyEvent {
    code: 30,
    down: true,
};

// The key state at the start, in this mode.
fn start(mode: u8) -> KbState {
    let mut s = KbState::start();
    s.mode = mode.min(4);
    s
}

// Whether the event of the first keyboard has this result.
fn says(
    keys: &mut Keyboard,
    s: &mut KbState,
    t: &KeyTables,
    e: KeyEvent,
    m: KeyModes,
    wanted: Wanted,
) -> bool {
    is_wanted(&keys.key(0, e, t, s, m), wanted)
}

// An entry of the tables: the table, the keycode, and the kind and the value of the action.
type Entry = (u8, u8, u16, u16);

fn set_entry(t: &mut KeyTables, entry: &Entry) {
    let (table, code, kind, value) = *entry;
    if let Some(action) = Action::new(kind, value) {
        if t.exists(table) && code != 0 {
            t.set_entry(table, code, action);
        }
    }
}

// These tables with these entries.
fn tables(alloc: Global, declared: &[u8], entries: &[Entry]) -> Result<KeyTables, NoMemory> {
    let mut t = KeyTables::empty(alloc, declared)?;
    for entry in entries {
        set_entry(&mut t, entry);
    }
    Ok(t)
}
