ghost use Rattle.turn_lock.specs.Visits.{HasCome};

use crate::counts::DoorSeat;

/// A caller at the door. It is not `Drop`, so it ends by `leave`, after the caller came in.
pub(crate) struct Visitor {
    pub(crate) seat: DoorSeat,
    pub(crate) number: u64,
}

impl Visitor {
    /// Ends the visit of a caller that came in.
    pub(crate) fn leave(self)
        requires { HasCome self }
    {
        let Visitor { seat: _, number: _ } = self;
    }
}
