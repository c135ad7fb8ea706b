use crate::{AnswerPattern, CallPattern};
use vt_base::{Bytes, CallerNo, ConsoleNo, Signal};

/// A fact of a call and of the machine after it.
#[derive(Drop)]
pub enum Fact {
    /// `by P`: P made the call.
    By(CallerNo),
    /// `call WORDS`: the call has these words.
    Call(CallPattern),
    /// `= WORDS`: the answer has these words.
    Answer(AnswerPattern),
    /// `front N`: console N has the display.
    Front(ConsoleNo),
    /// `pending N`, `pending`: console N waits for the display, or some console does.
    Pending(Option<ConsoleNo>),
    /// `graphics N`: console N shows graphics.
    Graphics(ConsoleNo),
    /// `owner N P`, `owner N`: P handles the switches of console N, or some process does.
    Owner(ConsoleNo, Option<CallerNo>),
    /// `locked`: switching is locked.
    Locked,
    /// `lives P`: P is alive.
    Lives(CallerNo),
    /// `waiting P`: P waits.
    Waiting(CallerNo),
    /// `signals P S`, `signals P`: signal S is pending for P, or some signal is.
    Signals(CallerNo, Option<Signal>),
    /// `open P N`: P has console N open.
    Open(CallerNo, ConsoleNo),
    /// `shows N "TEXT"`: a row of console N has this text side by side.
    Shows(ConsoleNo, Bytes),
    /// `ended`: nobody is alive.
    Ended,
    /// `stuck`: nobody is alive, and either a console waits for the display or the one in front shows graphics.
    Stuck,
}

/// A fact that has to hold, or has to fail.
#[derive(Drop)]
pub struct Condition {
    pub holds: bool,
    pub fact: Fact,
}
