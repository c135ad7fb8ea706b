ghost use Rattle.std.specs.Prelude.{◌≡◌, MatchOption, Option, None, Some};
ghost use Rattle.screen_c.specs.Held.{OwnedScreenView};

use crate::OwnedScreen;
use raw_box::RawBox;
use std::alloc::Global;
use std::marker::Model;
use std::mem;

/// A screen as C holds it: a struct of one pointer, which is null or points to a screen that the handle owns.
/// In contracts `value` is that screen, or `None`.
#[repr(C)]
pub struct ScreenHandle {
    at: *mut u8,
    alloc: Global,
    pub ghost value: { Option OwnedScreenView },
}

impl Model for ScreenHandle {
    ghost use Rattle.raw_box.specs.Contents.{contents};
    ghost use Rattle.screen_c.specs.contracts.owned_screen.OwnedScreen.{the_row as screen_row};

    ghost also_owns = { λ h. contents screen_row h.alloc h.at h.value };
}

impl ScreenHandle {
    /// A handle that owns nothing.
    pub(crate) fn none(alloc: Global) -> ScreenHandle
        ensures { result.value ≡ None }
    {
        ScreenHandle {
            at: std::ptr::null_mut(),
            alloc,
        }
    }

    // A handle that owns the box's screen.
    fn of(raw: RawBox<OwnedScreen, Global>) -> ScreenHandle
        ensures { result.value ≡ Some raw.value }
    {
        let RawBox { at, alloc } = raw;
        ScreenHandle {
            at: at as *mut u8,
            alloc,
        }
    }

    // Takes the handle apart: the screen that it owns, or `None`.
    fn open(self) -> Option<RawBox<OwnedScreen, Global>>
        ensures { MatchOption result (self.value ≡ None) (λ raw. self.value ≡ Some raw.value) }
    {
        let ScreenHandle { at, alloc } = self;
        if at.is_null() {
            None
        } else {
            Some(RawBox {
                at: at as *mut OwnedScreen,
                alloc,
            })
        }
    }

    /// Takes the screen out of the handle, if it owns one.
    pub(crate) fn take(&mut self, alloc: Global) -> Option<Box<OwnedScreen>>
        ensures old { MatchOption result (self.old.value ≡ None) (λ owned. self.old.value ≡ Some owned.value) }
        ensures new { self.new.value ≡ None }
    {
        match mem::replace(self, ScreenHandle::none(alloc)).open() {
            Some(raw) => Some(raw.into_box()),
            None => None,
        }
    }

    /// Gives the handle this screen.
    pub(crate) fn put(&mut self, owned: Box<OwnedScreen>)
        ensures { self.new.value ≡ Some owned.value }
    {
        *self = ScreenHandle::of(RawBox::of(owned));
    }
}

impl Drop for ScreenHandle {
    fn drop(self) {
        match self.open() {
            Some(raw) => drop(raw.into_box()),
            None => {}
        }
    }
}

unsafe impl Send for ScreenHandle {}
