ghost use Rattle.std.specs.Prelude.{Some, codes};

use std::error::Error;
use std::fmt;

/// A read or a write failed, and its source or sink counted that.
#[derive(Clone, Copy, Debug, PartialEq, Eq)]
pub struct Failed;

impl fmt::Display for Failed {
    ghost output = { λ _. Some (codes "failed") };

    fn fmt<W: fmt::Write>(&self, f: &mut fmt::Formatter<W>) -> fmt::Result {
        f.write_str("failed")
    }
}

impl Error for Failed {}
