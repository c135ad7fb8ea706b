//! Lists of items compared.
ghost use Rattle.std.specs.Bool.{OnFalse, OnTrue};
ghost use Rattle.std.specs.Prelude.{◌≡◌, ◌≢◌, ◌<◌, IfOk, length, slice_get};
ghost use Rattle.vt_explain.specs.Accepting.{Compares};
ghost use Rattle.vt_explain.specs.declared.judged.Judged.TheVariants as judged;

use crate::{HopWhy, Judged};
use vt_base::NoMemory;

/// The greatest place that an answer can name.
const GREATEST_PLACE: usize = 4_294_967_295;

/// Whether the items are those that were made; otherwise the first place at which they differ.
pub(crate) fn compare(made: &[HopWhy], c: &[HopWhy]) -> Result<Judged, NoMemory>
    ensures { IfOk result (Compares made.now c.now) }
{
    for k in 0..made.len() {
        if !is_same(made, c, k) {
            return no(k);
        }
    }
    if made.len() < c.len() {
        return no(made.len());
    }
    Ok(Judged::Yes)
}

// Whether both have the same item at this place.
fn is_same(made: &[HopWhy], c: &[HopWhy], k: usize) -> bool
    requires { k < length made.now }
    ensures same { OnTrue result (slice_get made.now k ≡ slice_get c.now k) }
    ensures other { OnFalse result (slice_get made.now k ≢ slice_get c.now k) }
{
    if c.len() <= k {
        return false;
    }
    made[k] == c[k]
}

// No, at this place. No journal has so many items that the place is past the greatest number.
fn no(k: usize) -> Result<Judged, NoMemory>
    ensures { IfOk result (λ r. r ≡ judged.No k) }
{
    if GREATEST_PLACE < k {
        return Err(NoMemory);
    }
    Ok(Judged::No { index: k as u32 })
}
