//! Whether two sets of descriptors are the same.
ghost use Rattle.std.specs.Prelude.{◌≡◌, IsTrue, length};

use crate::Opens;
use vt_base::ConsoleNo;

impl Opens {
    /// Whether both have the same consoles open at the same descriptors. Nothing is proved of the answer
    /// `false`.
    pub(crate) fn same(&self, other: &Opens) -> bool
        ensures { IsTrue result → self.now ≡ other.now }
    {
        are_same_places(&self.places, &other.places)
    }
}

// Whether all places are the same.
fn are_same_places(places: &[Option<ConsoleNo>], others: &[Option<ConsoleNo>]) -> bool
    requires { length places.now ≡ length others.now }
    ensures { IsTrue result → places.now ≡ others.now }
{
    let mut same = true;
    for i in 0..places.len() {
        same = same & is_same_place(places[i], others[i]);
    }
    same
}

// Whether both places are the same.
fn is_same_place(place: Option<ConsoleNo>, other: Option<ConsoleNo>) -> bool
    ensures { IsTrue result → place ≡ other }
{
    match (place, other) {
        (Some(one), Some(two)) => one == two,
        (None, None) => true,
        _ => false,
    }
}
