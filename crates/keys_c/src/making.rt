//! Makes a keyboard from a keymap text, and frees it.
ghost use Rattle.std.specs.Prelude.{◌≡◌, ◌≢◌, ◌↔◌, ◌⊎◌, Err, None, Some, IsSome, IsSomeAnd};
ghost use Rattle.c_calls.specs.Codes.{FAULT, MADE, NO_MEMORY, OK};
ghost use Rattle.keys_c.specs.KeyboardView.{start_keyboard};
ghost use Rattle.keys_c.specs.Keymaps.{IsStartOf, fault_of, keymap_of};

use crate::handle::KeysHandle;
use crate::keymap::tables_in;
use crate::keymap_keyboard::KeymapKeyboard;
use crate::vt_text::VtText;
use c_calls::{VtFault, code};
use key_tables::KeyTables;
use key_text::KeyError;
use std::alloc::Global;

/// Makes a keyboard from a keymap text, which may include the other texts. If the text has a fault, `fault` is the
/// first one.
#[unsafe(no_mangle)]
pub extern "C" fn vt_nonnull_keys_new(
    h: &mut KeysHandle,
    alloc: Global,
    text: &[u8],
    texts: &[VtText],
    fault: &mut VtFault,
) -> u8
    ensures there { (result ≡ MADE) ↔ IsSome h.old.value }
    ensures codes { ((result ≡ OK) ⊎ (result ≡ FAULT)) ⊎ ((result ≡ MADE) ⊎ (result ≡ NO_MEMORY)) }
    ensures made { result ≡ OK → IsSomeAnd h.new.value (IsStartOf texts.now text.now) }
    ensures fault { result ≡ FAULT → (keymap_of texts.now text.now ≡ Err (fault_of fault.new)) × (fault.new.spare ≡ 0) }
    ensures left { result ≢ OK → h.new.value ≡ h.old.value }
    ensures no_fault { result ≢ FAULT → fault.new ≡ fault.old }
{
    match h.take(alloc) {
        Some(keyboard) => {
            h.put(keyboard);
            code::MADE
        }
        None => make(h, alloc, text, texts, fault),
    }
}

// Makes a keyboard for a handle without one.
fn make(h: &mut KeysHandle, alloc: Global, text: &[u8], texts: &[VtText], fault: &mut VtFault) -> u8
    requires { h.old.value ≡ None }
    ensures codes { ((result ≡ OK) ⊎ (result ≡ FAULT)) ⊎ (result ≡ NO_MEMORY) }
    ensures made { result ≡ OK → IsSomeAnd h.new.value (IsStartOf texts.now text.now) }
    ensures fault { result ≡ FAULT → (keymap_of texts.now text.now ≡ Err (fault_of fault.new)) × (fault.new.spare ≡ 0) }
    ensures left { result ≢ OK → h.new.value ≡ None }
    ensures no_fault { result ≢ FAULT → fault.new ≡ fault.old }
{
    match tables_in(alloc, text, texts) {
        Ok(tables) => start(h, alloc, tables),
        Err(KeyError::Fault(first)) => {
            *fault = VtFault::at(first.line, first.column, u32::from(first.kind));
            code::FAULT
        }
        Err(KeyError::NoMemory) => code::NO_MEMORY,
    }
}

// Gives the handle a start keyboard with these tables.
fn start(h: &mut KeysHandle, alloc: Global, tables: KeyTables) -> u8
    ensures codes { (result ≡ OK) ⊎ (result ≡ NO_MEMORY) }
    ensures made { result ≡ OK → h.new.value ≡ Some (start_keyboard tables) }
    ensures left { result ≢ OK → h.new.value ≡ h.old.value }
{
    match Box::new(alloc, KeymapKeyboard::start(tables)) {
        Ok(keyboard) => {
            h.put(keyboard);
            code::OK
        }
        Err(_) => code::NO_MEMORY,
    }
}

/// Frees the handle's keyboard, if it has one.
#[unsafe(no_mangle)]
pub extern "C" fn vt_keys_free(h: &mut KeysHandle, alloc: Global)
    ensures { h.new.value ≡ None }
{
    let _ = h.take(alloc);
}
