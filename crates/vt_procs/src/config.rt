use crate::ProcList;
use vt_base::{ConsoleNo, Size};

/// The start of a machine.
#[derive(Debug, Drop)]
pub struct Config {
    /// The rows and columns of every screen.
    pub size: Size,
    /// The consoles that are allocated: bit n is console n, and bit 0 isn't set.
    pub consoles: u64,
    /// The console in front, which is one of them.
    pub front: ConsoleNo,
    /// How many keyboards there are: 1 to 4.
    pub keyboards: u8,
    pub procs: ProcList,
}
