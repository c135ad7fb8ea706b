//! The law of searches.
ghost use Rattle.vt_explore.specs.Questions.{NeverInJournals, OrdersArePlayed};
ghost use Rattle.vt_explore.specs.Searches.{OpenedAreAll};

/// If the start is known, and each call after each known order isn't asked for and leads to a known one, no
/// call is asked for in any order. If no history of the programs has such a call, no right journal of the
/// session has one. The play of an order's turns begins with the order's history, unless the journal is full.
pub fn searches_are_whole()
    ensures all { OpenedAreAll }
    ensures journals { NeverInJournals }
    ensures played { OrdersArePlayed }
{}
