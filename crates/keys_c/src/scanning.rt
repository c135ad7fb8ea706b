//! Types scan bytes and keys into a console, and releases all keys.
ghost use Rattle.std.specs.Prelude.{◌≡◌, ◌&&◌, None, Some, IfNone, IfSome, IsTrue, false, true};
ghost use Rattle.c_calls.specs.Codes.{NOTHING, OK};
ghost use Rattle.keys_c.specs.Answers.{Changes};
ghost use Rattle.keys_c.specs.KeyState.{is_key_state, state_in};
ghost use Rattle.keys_c.specs.KeyboardView.{with_keys_up};
ghost use Rattle.keys_c.specs.Modes.{is_modes, is_set, modes_of};
ghost use Rattle.keys_c.specs.Scanning.{byte_step, event_step, is_keycode, key_event, out_in_mode};
ghost use Rattle.keys_c.specs.Typing.{Types, typed};

use crate::entries::is_keycode;
use crate::handle::KeysHandle;
use crate::modes::{is_modes, modes_of};
use crate::vt_key::VtKey;
use crate::vt_key_state::VtKeyState;
use c_calls::{VtModes, change, code};
use key_machine::KbState;
use scan_codes::KeyEvent;
use std::alloc::Global;

/// Types a scan byte into the console with this state and these modes, and writes the result to `out`.
#[unsafe(no_mangle)]
pub extern "C" fn vt_keys_scan(
    h: &mut KeysHandle,
    alloc: Global,
    byte: u8,
    modes: &VtModes,
    state: &mut VtKeyState,
    out: &mut VtKey,
) -> u8
    ensures typed { Types (is_modes modes.now && is_key_state state.old)
        (λ k. byte_step (modes_of modes.now) byte k (state_in state.old))
        (out_in_mode state.old.mode byte) result
        (typed h.old.value state.old out.old) (typed h.new.value state.new out.new) }
{
    change!(h, alloc, keyboard => match known(modes, state) {
        None => code::RANGE,
        Some(keys) => {
            let mut keys = keys;
            let mode = keys.mode;
            let said = keyboard.scan(byte, modes_of(modes), &mut keys);
            out.hand_over(mode, byte, &said, &keyboard);
            state.set(keys);
            code::OK
        }
    })
}

/// Types a key by its keycode into the console with this state and these modes, and writes the result to `out`.
#[unsafe(no_mangle)]
pub extern "C" fn vt_keys_key(
    h: &mut KeysHandle,
    alloc: Global,
    keycode: u32,
    is_down: u8,
    modes: &VtModes,
    state: &mut VtKeyState,
    out: &mut VtKey,
) -> u8
    ensures typed { Types (is_keycode keycode && (is_modes modes.now && is_key_state state.old))
        (λ k. event_step (modes_of modes.now) k (state_in state.old) (Some (key_event keycode (is_set is_down))))
        (λ said. said) result
        (typed h.old.value state.old out.old) (typed h.new.value state.new out.new) }
{
    change!(h, alloc, keyboard => match known(modes, state) {
        Some(keys) if is_keycode(keycode) => {
            let mut keys = keys;
            let event = KeyEvent {
                code: keycode as u8,
                down: is_down != 0,
            };
            let said = keyboard.type_key(event, modes_of(modes), &mut keys);
            out.put_out(&said, &keyboard);
            state.set(keys);
            code::OK
        }
        _ => code::RANGE,
    })
}

// The key state, if its numbers are in their ranges and all spare bytes are 0.
fn known(modes: &VtModes, state: &VtKeyState) -> Option<KbState>
    ensures some { IfSome result (λ s.
        IsTrue (is_modes modes.now && is_key_state state.now) × (s ≡ state_in state.now)) }
    ensures none { IfNone result ((is_modes modes.now && is_key_state state.now) ≡ false) }
{
    if is_modes(modes) { state.state() } else { None }
}

/// Releases the keys as if the keyboard were unplugged. Nothing is sent.
#[unsafe(no_mangle)]
pub extern "C" fn vt_keys_release(h: &mut KeysHandle, alloc: Global) -> u8
    ensures { Changes h.old.value true with_keys_up result h.new.value }
{
    change!(h, alloc, keyboard => {
        keyboard.release();
        code::OK
    })
}
