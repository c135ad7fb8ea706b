//! The text of why a turn stopped.
ghost use Rattle.std.specs.Prelude.{Some};
ghost use Rattle.cooked.specs.StopText.{stop_text};

use crate::Stop;
use std::error::Error;
use std::fmt;

impl fmt::Display for Stop {
    ghost output = { λ s. Some (stop_text s) };

    fn fmt<W: fmt::Write>(&self, f: &mut fmt::Formatter<W>) -> fmt::Result {
        match self {
            Stop::Err(errno) => {
                let number = errno.number();
                write!(f, "error {number}")
            }
            Stop::Full(full) => {
                let events = full.events;
                let bytes = full.bytes;
                let charge = full.charge;
                write!(f, "journal full {events} {bytes} {charge}")
            }
        }
    }
}

impl Error for Stop {}
