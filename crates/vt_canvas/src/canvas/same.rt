//! Whether two screens are the same, and the copy of one into the other.
ghost use Rattle.std.specs.Prelude.{◌≡◌, IsTrue};

use crate::canvas::Canvas;
use crate::{Saved, ScreenState};
use vt_cells::Attr;

impl Canvas {
    /// Whether both screens are the same. Nothing is proved of the answer `false`.
    pub fn same(&self, other: &Canvas) -> bool
        ensures { IsTrue result → self.now ≡ other.now }
    {
        self.state.same(&other.state) && self.grid.same(&other.grid)
    }

    /// Becomes the other screen, which has its size.
    pub fn copy_from(&mut self, other: &Canvas)
        requires rows { self.old.grid.rows ≡ other.now.grid.rows }
        requires columns { self.old.grid.cols ≡ other.now.grid.cols }
        ensures { self.new ≡ other.now }
    {
        self.grid.copy_from(&other.grid);
        self.state.copy_from(&other.state);
        self.attr = other.attr;
        self.erase = other.erase;
    }
}

impl ScreenState {
    /// Whether both states are the same. Nothing is proved of the answer `false`.
    pub(crate) fn same(&self, other: &ScreenState) -> bool
        ensures { IsTrue result → self.now ≡ other.now }
    {
        if self.x != other.x {
            return false;
        }
        if self.y != other.y {
            return false;
        }
        if self.wrap != other.wrap {
            return false;
        }
        if self.top != other.top {
            return false;
        }
        if self.bottom != other.bottom {
            return false;
        }
        if !self.pen.same(&other.pen) {
            return false;
        }
        if self.g0 != other.g0 {
            return false;
        }
        if self.g1 != other.g1 {
            return false;
        }
        if self.shift != other.shift {
            return false;
        }
        if self.utf8 != other.utf8 {
            return false;
        }
        if !self.stops.same(&other.stops) {
            return false;
        }
        if self.insert != other.insert {
            return false;
        }
        if self.newline != other.newline {
            return false;
        }
        if self.cursor != other.cursor {
            return false;
        }
        if self.reverse != other.reverse {
            return false;
        }
        if self.origin != other.origin {
            return false;
        }
        if self.autowrap != other.autowrap {
            return false;
        }
        if self.repeat != other.repeat {
            return false;
        }
        if self.visible != other.visible {
            return false;
        }
        if self.keypad != other.keypad {
            return false;
        }
        if !is_same_saved(&self.saved, &other.saved) {
            return false;
        }
        if !self.palette.same(&other.palette) {
            return false;
        }
        if !self.map.same(&other.map) {
            return false;
        }
        true
    }

    /// A copy of the state.
    pub fn copy(&self) -> ScreenState
        ensures { result ≡ self.now }
    {
        let mut copy = ScreenState::start(1);
        copy.copy_from(self);
        copy
    }

    /// Becomes the other state.
    pub(crate) fn copy_from(&mut self, other: &ScreenState)
        ensures { self.new ≡ other.now }
    {
        self.x = other.x;
        self.y = other.y;
        self.wrap = other.wrap;
        self.top = other.top;
        self.bottom = other.bottom;
        self.pen = other.pen;
        self.g0 = other.g0;
        self.g1 = other.g1;
        self.shift = other.shift;
        self.utf8 = other.utf8;
        self.stops.copy_from(&other.stops);
        self.insert = other.insert;
        self.newline = other.newline;
        self.cursor = other.cursor;
        self.reverse = other.reverse;
        self.origin = other.origin;
        self.autowrap = other.autowrap;
        self.repeat = other.repeat;
        self.visible = other.visible;
        self.keypad = other.keypad;
        self.saved = other.saved;
        self.palette.copy_from(&other.palette);
        self.map.copy_from(&other.map);
    }
}

// Whether both saved cursors are the same.
fn is_same_saved(saved: &Saved, other: &Saved) -> bool
    ensures { IsTrue result → saved.now ≡ other.now }
{
    if saved.x != other.x {
        return false;
    }
    if saved.y != other.y {
        return false;
    }
    if !is_same_attr(saved.attr, other.attr) {
        return false;
    }
    if saved.g0 != other.g0 {
        return false;
    }
    if saved.g1 != other.g1 {
        return false;
    }
    if saved.shift != other.shift {
        return false;
    }
    true
}

// Whether both attributes are the same.
fn is_same_attr(attr: Attr, other: Attr) -> bool
    ensures { IsTrue result → attr ≡ other }
{
    attr == other
}
