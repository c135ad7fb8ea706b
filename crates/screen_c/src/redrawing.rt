//! A screen as a text that draws it again.
ghost use Rattle.std.specs.Prelude.{◌≡◌, ◌≤◌, false, length, take, IfNone, IfOk, IfSome, IsTrue, None, Some};
ghost use Rattle.c_calls.specs.Codes.{NOTHING, NOT_DRAWABLE, OK};
ghost use Rattle.c_calls.specs.Text.{HandsOver, IsWritten};
ghost use Rattle.screen_c.specs.Loans.{IsSameLoan};
ghost use Rattle.screen_c.specs.Marks.{IsAtMark, text_from_mark};
ghost use Rattle.vt_redraw.specs.Drawable.{is_redrawable};
ghost use Rattle.vt_redraw.specs.Lengths.{redraw_most};
ghost use Rattle.vt_redraw.specs.Redraw.{IsSameSize, Redraws, redraw_of};
ghost use Rattle.vt_canvas.specs.Screen.{IsWhole, Screen};

use crate::marks::has_same_size;
use crate::{OwnedScreen, ScreenLoan};
use c_calls::{code, hand_over, read};
use std::alloc::Global;
use vt_base::{Bytes, NoMemory};
use vt_redraw::{redraw, redraw_changes, redrawable};

/// The text that draws the screen again on any screen of its size.
#[unsafe(no_mangle)]
pub extern "C" fn vt_lent_screen_redraw(
    loan: &mut ScreenLoan,
    text: &mut [u8],
    count: &mut usize,
    alloc: Global,
) -> u8
    ensures same { IsSameLoan loan.old loan.new }
    ensures nothing { IfNone loan.old.value ((result ≡ NOTHING) × (text.new ≡ text.old) × (count.new ≡ count.old)) }
    ensures undrawable { IfSome loan.old.value (λ o. is_redrawable o.emu.state ≡ false
        → (result ≡ NOT_DRAWABLE) × (text.new ≡ text.old) × (count.new ≡ count.old)) }
    ensures text { IfSome loan.old.value (λ o. IsTrue (is_redrawable o.emu.state)
        → HandsOver (redraw_of o.emu.state) text.old text.new count.old count.new result) }
    ensures again { IfSome loan.old.value (λ o. result ≡ OK → (other : Screen) → IsWhole other
        → IsSameSize other.grid o.emu.state.grid
        → Redraws o.emu.state other (take count.new text.new)) }
    ensures bound { IfSome loan.old.value (λ o. IsWritten result
        → count.new ≤ redraw_most o.emu.state.grid.rows o.emu.state.grid.cols) }
{
    read!(loan, screen => screen.redraw(alloc, text, count))
}

/// The text that draws the screen again on one that shows the marked cells, or on any of its size if no cells of its
/// size are marked.
#[unsafe(no_mangle)]
pub extern "C" fn vt_lent_screen_redraw_changes(
    loan: &mut ScreenLoan,
    text: &mut [u8],
    count: &mut usize,
    alloc: Global,
) -> u8
    ensures same { IsSameLoan loan.old loan.new }
    ensures nothing { IfNone loan.old.value ((result ≡ NOTHING) × (text.new ≡ text.old) × (count.new ≡ count.old)) }
    ensures undrawable { IfSome loan.old.value (λ o. is_redrawable o.emu.state ≡ false
        → (result ≡ NOT_DRAWABLE) × (text.new ≡ text.old) × (count.new ≡ count.old)) }
    ensures text { IfSome loan.old.value (λ o. IsTrue (is_redrawable o.emu.state)
        → HandsOver (text_from_mark o.mark o.emu.state) text.old text.new count.old count.new result) }
    ensures again { IfSome loan.old.value (λ o. result ≡ OK → (other : Screen) → IsWhole other
        → IsAtMark o.mark o.emu.state.grid other.grid
        → Redraws o.emu.state other (take count.new text.new)) }
    ensures bound { IfSome loan.old.value (λ o. IsWritten result
        → count.new ≤ redraw_most o.emu.state.grid.rows o.emu.state.grid.cols) }
{
    read!(loan, screen => screen.redraw_changes(alloc, text, count))
}

impl OwnedScreen {
    fn redraw(&self, alloc: Global, text: &mut [u8], count: &mut usize) -> u8
        ensures undrawable { is_redrawable self.now.emu.state ≡ false
            → (result ≡ NOT_DRAWABLE) × (text.new ≡ text.old) × (count.new ≡ count.old) }
        ensures text { IsTrue (is_redrawable self.now.emu.state)
            → HandsOver (redraw_of self.now.emu.state) text.old text.new count.old count.new result }
        ensures again { result ≡ OK → (other : Screen) → IsWhole other
            → IsSameSize other.grid self.now.emu.state.grid
            → Redraws self.now.emu.state other (take count.new text.new) }
        ensures bound { IsWritten result
            → count.new ≤ redraw_most self.now.emu.state.grid.rows self.now.emu.state.grid.cols }
    {
        if !redrawable(&self.emu) {
            return code::NOT_DRAWABLE;
        }
        match redraw(alloc, &self.emu) {
            Err(_) => code::NO_MEMORY,
            Ok(bytes) => hand_over(bytes.as_slice(), text, count),
        }
    }

    fn redraw_changes(&self, alloc: Global, text: &mut [u8], count: &mut usize) -> u8
        ensures undrawable { is_redrawable self.now.emu.state ≡ false
            → (result ≡ NOT_DRAWABLE) × (text.new ≡ text.old) × (count.new ≡ count.old) }
        ensures text { IsTrue (is_redrawable self.now.emu.state)
            → HandsOver (text_from_mark self.now.mark self.now.emu.state)
            text.old text.new count.old count.new result }
        ensures again { result ≡ OK → (other : Screen) → IsWhole other
            → IsAtMark self.now.mark self.now.emu.state.grid other.grid
            → Redraws self.now.emu.state other (take count.new text.new) }
        ensures bound { IsWritten result
            → count.new ≤ redraw_most self.now.emu.state.grid.rows self.now.emu.state.grid.cols }
    {
        if !redrawable(&self.emu) {
            return code::NOT_DRAWABLE;
        }
        match self.text_from_mark(alloc) {
            Err(_) => code::NO_MEMORY,
            Ok(bytes) => hand_over(bytes.as_slice(), text, count),
        }
    }

    fn text_from_mark(&self, alloc: Global) -> Result<Bytes, NoMemory>
        requires { IsTrue (is_redrawable self.now.emu.state) }
        ensures text { IfOk result (λ text. text.bytes ≡ text_from_mark self.now.mark self.now.emu.state) }
        ensures again { IfOk result (λ text. (other : Screen) → IsWhole other
            → IsAtMark self.now.mark self.now.emu.state.grid other.grid
            → Redraws self.now.emu.state other text.bytes) }
        ensures short { IfOk result (λ text. length text.bytes
            ≤ redraw_most self.now.emu.state.grid.rows self.now.emu.state.grid.cols) }
    {
        if let Some(mark) = &self.mark {
            if has_same_size(mark, self.emu.grid()) {
                return redraw_changes(alloc, mark, &self.emu);
            }
        }
        redraw(alloc, &self.emu)
    }
}
