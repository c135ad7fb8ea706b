//! Laws of the display: each of its hops was asked for and allowed, and only a hop changes the console in front.
ghost use Rattle.vt_switch.specs.Acts.{OnlyHopsSwitch};
ghost use Rattle.vt_switch.specs.Law.{DisplayLaw, HopsAreDue, OwnersStayLive, TargetLaw};
ghost use Rattle.vt_switch.specs.News.{OneHopIsTold, OneNewsIsTold};

/// An act changes the console in front exactly by its hop.
pub fn only_hops_switch()
    ensures { OnlyHopsSwitch }
{}

/// Each hop of each history was allowed. Either the console in front handled its switches itself and
/// showed text, and switching wasn't locked; or its owner let the display go, or died, after it had
/// been asked to.
pub fn each_hop_was_allowed()
    ensures { DisplayLaw }
{}

/// If a console waits for the display, the owner of the console in front got its release signal, and
/// has neither refused nor set a mode since. Owners of consoles are alive.
pub fn each_target_was_asked_for()
    ensures asked { TargetLaw }
    ensures owners { OwnersStayLive }
{}

/// The marks of one act on the display, and the cause of its hop, after any history.
pub fn acts_tell_one_thing()
    ensures due { HopsAreDue }
    ensures hop { OneHopIsTold }
    ensures news { OneNewsIsTold }
{}
