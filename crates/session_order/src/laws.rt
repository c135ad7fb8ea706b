//! Laws of a session's calls: of the serial schedule, and of a race.
ghost use Rattle.session_order.specs.Laws.{FinishedStays, RoundsAddUp, RoundsGoOn, SerialEnds, SerialIsOne, SerialIsRight};
ghost use Rattle.session_order.specs.Meant.{EndsIsMeant, FollowsIsMeant, LegalIsMeant, NextIsMeant, NextIsPlain, ReplayIsMeant};
ghost use Rattle.session_order.specs.Orders.{EntriesAreTurns, HistoriesAreOrders, OrdersAreLegal};
ghost use Rattle.session_order.specs.Races.{RaceIsRight, RunsGrow};

/// The schedule plays one history, which is legal, follows the programs and ends. From a start of the machine
/// there is such a play: each round makes an entry or stops, until it is finished.
pub fn serial_laws()
    ensures stays { FinishedStays }
    ensures sum { RoundsAddUp }
    ensures one { SerialIsOne }
    ensures right { SerialIsRight }
    ensures goes_on { RoundsGoOn }
    ensures ends { SerialEnds }
{}

/// A history's meaning depends on its calls and answers without the spare room of their bytes.
pub fn meant_laws()
    ensures next { NextIsMeant }
    ensures plain { NextIsPlain }
    ensures replay { ReplayIsMeant }
    ensures legal { LegalIsMeant }
    ensures follows { FollowsIsMeant }
    ensures ends { EndsIsMeant }
{}

/// A caller's run of its program grows by the program's next call. A race whose callers have all ended follows
/// the programs and ends.
pub fn race_laws()
    ensures grows { RunsGrow }
    ensures right { RaceIsRight }
{}

/// Orders and histories: the history of an order is legal and follows the programs, and a legal history that
/// follows the programs is that of the order of its callers. So is each part of it up to an entry, and the
/// entry is the next turn of its caller.
pub fn order_laws()
    ensures legal { OrdersAreLegal }
    ensures histories { HistoriesAreOrders }
    ensures turns { EntriesAreTurns }
{}
