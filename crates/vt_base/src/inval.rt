ghost use Rattle.std.specs.Prelude.{Some};
ghost use Rattle.vt_base.specs.Errno.{text_of};
ghost use Rattle.vt_base.specs.declared.errno.Errno.TheVariants as errno;

use crate::Errno;
use std::error::Error;
use std::fmt;

/// The call does not take this number or this state; nothing was changed.
#[derive(Clone, Copy, Debug, PartialEq, Eq)]
pub struct Inval;

impl fmt::Display for Inval {
    ghost output = { λ _. Some (text_of errno.Inval) };

    fn fmt<W: fmt::Write>(&self, f: &mut fmt::Formatter<W>) -> fmt::Result {
        write!(f, "{}", Errno::Inval)
    }
}

impl Error for Inval {}
