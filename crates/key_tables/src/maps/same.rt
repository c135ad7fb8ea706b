//! Whether two sets of tables are the same.
ghost use Rattle.std.specs.Prelude.{◌≡◌, IsTrue};

use crate::maps::Maps;
use crate::table::Table;

impl Maps {
    /// Whether both are the same. Nothing is proved of the answer `false`, which two sets may give
    /// whose tables were declared in another order.
    pub(crate) fn same(&self, other: &Maps) -> bool
        ensures { IsTrue result → self.now ≡ other.now }
    {
        are_same_places(self.places.as_slice(), other.places.as_slice())
            && are_same_tables(self.kept.as_slice(), other.kept.as_slice())
    }
}

// Whether all places are the same.
fn are_same_places(places: &[Option<u8>], others: &[Option<u8>]) -> bool
    ensures { IsTrue result → places.now ≡ others.now }
{
    if places.len() != others.len() {
        return false;
    }
    for i in 0..places.len() {
        if !is_same_place(places[i], others[i]) {
            return false;
        }
    }
    true
}

// Whether both places are the same.
fn is_same_place(place: Option<u8>, other: Option<u8>) -> bool
    ensures { IsTrue result → place ≡ other }
{
    match (place, other) {
        (Some(one), Some(two)) => one == two,
        (None, None) => true,
        _ => false,
    }
}

// Whether all tables are the same.
fn are_same_tables(tables: &[Table], others: &[Table]) -> bool
    ensures { IsTrue result → tables.now ≡ others.now }
{
    if tables.len() != others.len() {
        return false;
    }
    for i in 0..tables.len() {
        if !tables[i].same(&others[i]) {
            return false;
        }
    }
    true
}
