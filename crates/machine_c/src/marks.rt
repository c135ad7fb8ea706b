//! Reads the marks of the last call.
ghost use Rattle.std.specs.Prelude.{◌≡◌, IfNone, IfSome, length, map};
ghost use Rattle.c_calls.specs.Codes.{NOTHING, OK};
ghost use Rattle.c_calls.specs.Places.{with_items};
ghost use Rattle.machine_c.specs.Loans.{IsSameLoan};
ghost use Rattle.machine_c.specs.Shown.{c_mark};

use crate::loan::MachineLoan;
use crate::vt_mark::VtMark;
use c_calls::{code, read};
use vt_world::Mark;

/// What the last call caused, in order: as many marks as there is room for, and how many there are.
#[unsafe(no_mangle)]
pub extern "C" fn vt_lent_machine_marks(
    loan: &mut MachineLoan,
    marks: &mut [VtMark],
    count: &mut usize,
) -> u8
    ensures same { IsSameLoan loan.old loan.new }
    ensures nothing { IfNone loan.old.value ((result ≡ NOTHING) × (marks.new ≡ marks.old) × (count.new ≡ count.old)) }
    ensures marks { IfSome loan.old.value (λ m. (result ≡ OK)
        × (marks.new ≡ with_items (map c_mark m.world.trace.marks) marks.old)
        × (count.new ≡ length m.world.trace.marks)) }
{
    read!(loan, machine => {
        let all = machine.world().trace();
        *count = all.len();
        put_marks(all, marks);
        code::OK
    })
}

// Writes the marks into the first places.
fn put_marks(marks: &[Mark], places: &mut [VtMark])
    ensures { places.new ≡ with_items (map c_mark marks.now) places.old }
{
    let count = places.len().min(marks.len());
    let mut n = 0;
    while n < count {
        places[n] = VtMark::of(marks[n]);
        n += 1;
    }
}
