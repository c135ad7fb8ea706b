//! A screen as a picture.
ghost use Rattle.std.specs.Prelude.{◌≡◌, IfNone, IfSome};
ghost use Rattle.c_calls.specs.Codes.{NOTHING};
ghost use Rattle.c_calls.specs.Text.{HandsOver};
ghost use Rattle.screen_c.specs.Loans.{IsSameLoan};
ghost use Rattle.vt_picture.specs.Picture.{picture_text};

use crate::{OwnedScreen, ScreenLoan};
use c_calls::{code, hand_over, read};
use std::alloc::Global;
use vt_picture::picture;

/// The screen as a picture in SVG 1.1, in UTF-8. This project's own.
#[unsafe(no_mangle)]
pub extern "C" fn vt_lent_screen_picture(
    loan: &mut ScreenLoan,
    text: &mut [u8],
    count: &mut usize,
    alloc: Global,
) -> u8
    ensures same { IsSameLoan loan.old loan.new }
    ensures nothing { IfNone loan.old.value ((result ≡ NOTHING) × (text.new ≡ text.old) × (count.new ≡ count.old)) }
    ensures text { IfSome loan.old.value (λ o.
        HandsOver (picture_text o.emu.state) text.old text.new count.old count.new result) }
{
    read!(loan, screen => screen.picture(alloc, text, count))
}

impl OwnedScreen {
    fn picture(&self, alloc: Global, text: &mut [u8], count: &mut usize) -> u8
        ensures { HandsOver (picture_text self.now.emu.state) text.old text.new count.old count.new result }
    {
        match picture(alloc, &self.emu) {
            Err(_) => code::NO_MEMORY,
            Ok(bytes) => hand_over(bytes.as_slice(), text, count),
        }
    }
}
