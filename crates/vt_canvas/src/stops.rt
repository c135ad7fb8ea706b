ghost use Rattle.std.specs.Prelude.{◌≡◌, ◌<◌, IsTrue, false, length, replicate, slice_set};
ghost use Rattle.vt_canvas.specs.Screen.{has_stop, start_stops};

use std::marker::Model;

/// How many columns can have a tab stop.
const COLUMNS: usize = 255;

/// The tab stops: a set of columns below 255. Contracts see whether each column is one.
#[derive(Drop)]
pub struct Stops {
    columns: [bool; COLUMNS],
}

impl Model for Stops {
    ghost use Rattle.std.specs.Prelude.{◌≡◌, Bool, List, length};

    ghost Value = { List Bool };

    ghost view = { λ s. s.columns };

    ghost invariant = { λ s. length s.columns ≡ 255 };
}

impl Stops {
    /// A stop in every eighth column except the first.
    pub fn start() -> Stops
        ensures { result ≡ start_stops }
    {
        let mut columns = [false; COLUMNS];
        for x in 1..COLUMNS {
            columns[x] = x % 8 == 0;
        }
        Stops { columns }
    }

    /// Whether column `x` is a stop.
    pub fn has(&self, x: u8) -> bool
        ensures stop { result ≡ has_stop self.now x }
        ensures columns { length self.now ≡ 255 }
    {
        usize::from(x) < COLUMNS && self.columns[usize::from(x)]
    }

    /// Sets or clears the stop in a column.
    pub(crate) fn set(&mut self, x: u8, on: bool)
        requires { x < 255 }
        ensures { self.new ≡ slice_set self.old x on }
    {
        self.columns[usize::from(x)] = on;
    }

    /// Whether both have the same stops. Nothing is proved of the answer `false`.
    pub(crate) fn same(&self, other: &Stops) -> bool
        ensures { IsTrue result → self.now ≡ other.now }
    {
        are_same_columns(&self.columns, &other.columns)
    }

    /// Takes over the other's stops.
    pub(crate) fn copy_from(&mut self, other: &Stops)
        ensures { self.new ≡ other.now }
    {
        self.columns = other.columns;
    }

    /// Clears every stop.
    pub(crate) fn clear(&mut self)
        ensures { self.new ≡ replicate 255 false }
    {
        self.columns = [false; COLUMNS];
    }
}

// Whether all columns are the same.
fn are_same_columns(columns: &[bool], others: &[bool]) -> bool
    requires { length columns.now ≡ length others.now }
    ensures { IsTrue result → columns.now ≡ others.now }
{
    let mut same = true;
    for i in 0..columns.len() {
        same = same & (columns[i] == others[i]);
    }
    same
}
