//! The counts of the door: a table of three words, with its rule, and the atomic steps on it.
ghost use Rattle.turn_lock.specs.Door.{Arrives, CallsIn, ComesIn, DrawsNumber, LooksForCall, ReadsCame, ReadsEntered};

use crate::at_door::AtDoor;
use atomic_table::{Play, Seat, Table, TableRule};
use std::alloc::Global;

/// How many callers came. It is the number that is drawn next.
pub(crate) const CAME: usize = 0;

/// How many of them were called in: each number below it.
pub(crate) const CALLED: usize = 1;

/// How many of those came in.
pub(crate) const ENTERED: usize = 2;

/// The rule of the counts, which holds between any two atomic steps.
pub(crate) struct InOrder;

impl TableRule<(), AtDoor, ()> for InOrder {
    ghost use Rattle.turn_lock.specs.Door.{DoorRule};
    ghost use Rattle.turn_lock.specs.declared.at_door.AtDoor.TheVariants.{Away};

    ghost holds = { λ _. DoorRule };

    ghost first = { λ _. Away };
}

pub(crate) type Counts = Table<(), AtDoor, (), InOrder, Global>;

pub(crate) type DoorSeat = Seat<(), AtDoor>;

pub(crate) struct Arrive;

impl Play<(), AtDoor> for Arrive {
    ghost then = { Arrives };
}

pub(crate) struct DrawNumber;

impl Play<(), AtDoor> for DrawNumber {
    ghost then = { DrawsNumber };
}

pub(crate) struct LookForCall;

impl Play<(), AtDoor> for LookForCall {
    ghost then = { LooksForCall };
}

pub(crate) struct ComeIn;

impl Play<(), AtDoor> for ComeIn {
    ghost then = { ComesIn };
}

pub(crate) struct ReadEntered;

impl Play<(), AtDoor> for ReadEntered {
    ghost then = { ReadsEntered };
}

pub(crate) struct ReadCame;

impl Play<(), AtDoor> for ReadCame {
    ghost then = { ReadsCame };
}

pub(crate) struct CallIn;

impl Play<(), AtDoor> for CallIn {
    ghost then = { CallsIn };
}
