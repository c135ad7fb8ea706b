ghost use Rattle.std.specs.Prelude.{◌≡◌, ◌==◌, ◌%◌, ◌^◌, ◌||◌, ℕ, false};
ghost use Rattle.vt_hub.specs.Waiters.{has_process};

use turn_lock::Rung;

/// The processes whose bells were rung: a bit for each of the 64. A process is added by its [`Rung`], which only a ring
/// makes, so a set of processes at which no bell was rung has none.
#[derive(Drop)]
pub(crate) struct Woken {
    bits: u64,
}

impl Woken {
    pub(crate) fn none() -> Woken
        ensures { (p : ℕ) → has_process result.bits p ≡ false }
    {
        Woken { bits: 0 }
    }

    /// These, and the process of the number whose bell was rung.
    pub(crate) fn and(self, rung: Rung) -> Woken
        ensures { (p : ℕ) → has_process result.bits p ≡ (p % 64 == rung % 64 || has_process self.bits p) }
    {
        let bit = bit_of(rung.number());
        Woken {
            bits: self.bits | bit,
        }
    }
}

// The bit of a process. Process 64 has bit 0.
fn bit_of(number: u64) -> u64
    ensures { result ≡ 2 ^ (number % 64) }
{
    1 << (number % 64)
}
