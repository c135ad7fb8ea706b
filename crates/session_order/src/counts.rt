ghost use Rattle.std.specs.Prelude.{◌≡◌, ◌+◌, ◌-◌, ◌^◌, min, slice_index, slice_set, replicate};

use std::marker::Model;
use vt_base::CallerNo;

/// The places for callers by their numbers.
const CALLER_PLACES: usize = 68;

/// How many calls each caller made.
#[derive(Drop)]
pub(crate) struct Counts {
    places: [u32; CALLER_PLACES],
}

impl Model for Counts {
    ghost use Rattle.std.specs.Prelude.{ℕ, List};

    ghost Value = { List ℕ };

    ghost view = { λ c. c.places };
}

impl Counts {
    /// No calls yet.
    pub(crate) fn new() -> Counts
        ensures { result ≡ replicate 68 0 }
    {
        Counts {
            places: [0; CALLER_PLACES],
        }
    }

    /// How many calls the caller made.
    pub(crate) fn of(&self, caller: CallerNo) -> u32
        ensures { result ≡ slice_index self.now caller }
    {
        self.places[usize::from(caller.get())]
    }

    /// Becomes the other.
    pub(crate) fn copy_from(&mut self, other: &Counts)
        ensures { self.new ≡ other.now }
    {
        self.places = other.places;
    }

    /// Counts one more call of the caller. The greatest count doesn't rise.
    pub(crate) fn add(&mut self, caller: CallerNo)
        ensures { self.new ≡ slice_set self.old caller
            (min (slice_index self.old caller + 1) (2 ^ 32 - 1)) }
    {
        let place = &mut self.places[usize::from(caller.get())];
        *place = place.saturating_add(1);
    }
}
