//! The nearest screen that a text can draw, as a text that draws it.
ghost use Rattle.std.specs.Prelude.{◌≡◌, ◌↔◌, ◌≤◌, length, take, IfNone, IfOk, IfSome, IsTrue, None, Some};
ghost use Rattle.c_calls.specs.Codes.{NOTHING, OK};
ghost use Rattle.c_calls.specs.Text.{HandsOver, IsWritten};
ghost use Rattle.screen_c.specs.Loans.{IsSameLoan};
ghost use Rattle.screen_c.specs.Marks.{IsAtMark, text_from_mark};
ghost use Rattle.screen_c.specs.Shown.{c_left_out};
ghost use Rattle.vt_redraw.specs.Drawable.{is_redrawable};
ghost use Rattle.vt_redraw.specs.Lengths.{redraw_most};
ghost use Rattle.vt_redraw.specs.Near.{left_out, near};
ghost use Rattle.vt_redraw.specs.Redraw.{IsSameSize, Redraws, redraw_of};
ghost use Rattle.vt_canvas.specs.Screen.{IsWhole, Screen};

use crate::marks::has_same_size;
use crate::{OwnedScreen, ScreenLoan};
use c_calls::{code, hand_over, read};
use std::alloc::Global;
use vt_base::{Bytes, NoMemory};
use vt_redraw::{LeftOut, left_out, redraw_changes_near, redraw_near};

/// What a text of the screen leaves out: a sum of enum vt_left_out, which is 0 if a text draws this very screen.
#[tactic(auto, using(vt_redraw::proofs::Stated::nothing_is_left_out))]
#[unsafe(no_mangle)]
pub extern "C" fn vt_lent_screen_left_out(loan: &mut ScreenLoan, parts: &mut u32) -> u8
    ensures same { IsSameLoan loan.old loan.new }
    ensures nothing { IfNone loan.old.value ((result ≡ NOTHING) × (parts.new ≡ parts.old)) }
    ensures parts { IfSome loan.old.value (λ o. (result ≡ OK) × (parts.new ≡ c_left_out (left_out o.emu.state))) }
    ensures none { IfSome loan.old.value (λ o. (parts.new ≡ 0) ↔ IsTrue (is_redrawable o.emu.state)) }
{
    read!(loan, screen => {
        *parts = number_of(left_out(&screen.emu));
        code::OK
    })
}

/// The text that draws the nearest drawable screen on any screen of its size.
#[unsafe(no_mangle)]
pub extern "C" fn vt_lent_screen_redraw_near(
    loan: &mut ScreenLoan,
    text: &mut [u8],
    count: &mut usize,
    alloc: Global,
) -> u8
    ensures same { IsSameLoan loan.old loan.new }
    ensures nothing { IfNone loan.old.value ((result ≡ NOTHING) × (text.new ≡ text.old) × (count.new ≡ count.old)) }
    ensures text { IfSome loan.old.value (λ o.
        HandsOver (redraw_of (near o.emu.state)) text.old text.new count.old count.new result) }
    ensures again { IfSome loan.old.value (λ o. result ≡ OK → (other : Screen) → IsWhole other
        → IsSameSize other.grid o.emu.state.grid
        → Redraws (near o.emu.state) other (take count.new text.new)) }
    ensures bound { IfSome loan.old.value (λ o. IsWritten result
        → count.new ≤ redraw_most o.emu.state.grid.rows o.emu.state.grid.cols) }
{
    let lent = loan.take();
    let answer = match lent.get() {
        None => code::NOTHING,
        Some(screen) => screen.redraw_near(alloc, text, count),
    };
    loan.put(lent);
    answer
}

/// The text that draws the nearest drawable screen on one that shows the marked cells, or on any of its size if no
/// cells of its size are marked.
#[unsafe(no_mangle)]
pub extern "C" fn vt_lent_screen_redraw_changes_near(
    loan: &mut ScreenLoan,
    text: &mut [u8],
    count: &mut usize,
    alloc: Global,
) -> u8
    ensures same { IsSameLoan loan.old loan.new }
    ensures nothing { IfNone loan.old.value ((result ≡ NOTHING) × (text.new ≡ text.old) × (count.new ≡ count.old)) }
    ensures text { IfSome loan.old.value (λ o.
        HandsOver (text_from_mark o.mark (near o.emu.state)) text.old text.new count.old count.new result) }
    ensures again { IfSome loan.old.value (λ o. result ≡ OK → (other : Screen) → IsWhole other
        → IsAtMark o.mark o.emu.state.grid other.grid
        → Redraws (near o.emu.state) other (take count.new text.new)) }
    ensures bound { IfSome loan.old.value (λ o. IsWritten result
        → count.new ≤ redraw_most o.emu.state.grid.rows o.emu.state.grid.cols) }
{
    let lent = loan.take();
    let answer = match lent.get() {
        None => code::NOTHING,
        Some(screen) => screen.redraw_changes_near(alloc, text, count),
    };
    loan.put(lent);
    answer
}

impl OwnedScreen {
    fn redraw_near(&self, alloc: Global, text: &mut [u8], count: &mut usize) -> u8
        ensures text { HandsOver (redraw_of (near self.now.emu.state)) text.old text.new count.old count.new result }
        ensures again { result ≡ OK → (other : Screen) → IsWhole other
            → IsSameSize other.grid self.now.emu.state.grid
            → Redraws (near self.now.emu.state) other (take count.new text.new) }
        ensures bound { IsWritten result
            → count.new ≤ redraw_most self.now.emu.state.grid.rows self.now.emu.state.grid.cols }
    {
        match redraw_near(alloc, &self.emu) {
            Err(_) => code::NO_MEMORY,
            Ok(bytes) => hand_over(bytes.as_slice(), text, count),
        }
    }

    fn redraw_changes_near(&self, alloc: Global, text: &mut [u8], count: &mut usize) -> u8
        ensures text { HandsOver (text_from_mark self.now.mark (near self.now.emu.state))
            text.old text.new count.old count.new result }
        ensures again { result ≡ OK → (other : Screen) → IsWhole other
            → IsAtMark self.now.mark self.now.emu.state.grid other.grid
            → Redraws (near self.now.emu.state) other (take count.new text.new) }
        ensures bound { IsWritten result
            → count.new ≤ redraw_most self.now.emu.state.grid.rows self.now.emu.state.grid.cols }
    {
        match self.near_from_mark(alloc) {
            Err(_) => code::NO_MEMORY,
            Ok(bytes) => hand_over(bytes.as_slice(), text, count),
        }
    }

    fn near_from_mark(&self, alloc: Global) -> Result<Bytes, NoMemory>
        ensures text { IfOk result (λ text. text.bytes ≡ text_from_mark self.now.mark (near self.now.emu.state)) }
        ensures again { IfOk result (λ text. (other : Screen) → IsWhole other
            → IsAtMark self.now.mark self.now.emu.state.grid other.grid
            → Redraws (near self.now.emu.state) other text.bytes) }
        ensures short { IfOk result (λ text. length text.bytes
            ≤ redraw_most self.now.emu.state.grid.rows self.now.emu.state.grid.cols) }
    {
        if let Some(mark) = &self.mark {
            if has_same_size(mark, self.emu.grid()) {
                return redraw_changes_near(alloc, mark, &self.emu);
            }
        }
        redraw_near(alloc, &self.emu)
    }
}

fn number_of(parts: LeftOut) -> u32
    ensures { result ≡ c_left_out parts }
{
    u32::from(parts.cells)
        + 2 * u32::from(parts.colours)
        + 4 * u32::from(parts.saved)
        + 8 * u32::from(parts.region)
        + 16 * u32::from(parts.origin)
        + 32 * u32::from(parts.high_bit)
}
