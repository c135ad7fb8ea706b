ghost use Rattle.std.specs.Prelude.{◌≡◌, MatchOption, Option, None, Some};
ghost use Rattle.keys_c.specs.KeyboardView.{KeyboardView};

use crate::keymap_keyboard::KeymapKeyboard;
use raw_box::RawBox;
use std::alloc::Global;
use std::marker::Model;
use std::mem;

/// A keyboard as C holds it: a struct of one pointer, which is null or points to a keyboard that the handle owns.
/// In contracts `value` is that keyboard, or `None`.
#[repr(C)]
pub struct KeysHandle {
    at: *mut u8,
    alloc: Global,
    pub ghost value: { Option KeyboardView },
}

impl Model for KeysHandle {
    ghost use Rattle.raw_box.specs.Contents.{contents};
    ghost use Rattle.keys_c.specs.contracts.keymap_keyboard.KeymapKeyboard.{the_row as keyboard_row};

    ghost also_owns = { λ h. contents keyboard_row h.alloc h.at h.value };
}

impl KeysHandle {
    /// A handle that owns nothing.
    pub(crate) fn none(alloc: Global) -> KeysHandle
        ensures { result.value ≡ None }
    {
        KeysHandle {
            at: std::ptr::null_mut(),
            alloc,
        }
    }

    // A handle that owns the box's keyboard.
    fn of(raw: RawBox<KeymapKeyboard, Global>) -> KeysHandle
        ensures { result.value ≡ Some raw.value }
    {
        let RawBox { at, alloc } = raw;
        KeysHandle {
            at: at as *mut u8,
            alloc,
        }
    }

    // Takes the handle apart: the keyboard that it owns, or `None`.
    fn open(self) -> Option<RawBox<KeymapKeyboard, Global>>
        ensures { MatchOption result (self.value ≡ None) (λ raw. self.value ≡ Some raw.value) }
    {
        let KeysHandle { at, alloc } = self;
        if at.is_null() {
            None
        } else {
            Some(RawBox {
                at: at as *mut KeymapKeyboard,
                alloc,
            })
        }
    }

    /// Takes the keyboard out of the handle, if it owns one.
    pub(crate) fn take(&mut self, alloc: Global) -> Option<Box<KeymapKeyboard>>
        ensures old { MatchOption result (self.old.value ≡ None) (λ owned. self.old.value ≡ Some owned.value) }
        ensures new { self.new.value ≡ None }
    {
        match mem::replace(self, KeysHandle::none(alloc)).open() {
            Some(raw) => Some(raw.into_box()),
            None => None,
        }
    }

    /// Gives the handle this keyboard.
    pub(crate) fn put(&mut self, owned: Box<KeymapKeyboard>)
        ensures { self.new.value ≡ Some owned.value }
    {
        *self = KeysHandle::of(RawBox::of(owned));
    }
}

impl Drop for KeysHandle {
    fn drop(self) {
        match self.open() {
            Some(raw) => drop(raw.into_box()),
            None => {}
        }
    }
}

unsafe impl Send for KeysHandle {}
