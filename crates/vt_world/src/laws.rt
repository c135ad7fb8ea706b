//! Laws of histories.
ghost use Rattle.vt_world.specs.History.{LegalGrows, NothingIsLegal, ReplayGrows, StepsAreEntered};
ghost use Rattle.vt_world.specs.Laws.{ActsAreCalls, ActsMakeCores, DisplaysAreLawful, DisplaysAreLawfulFrom, MomentsGrow, OwnersAreLive, ScreensAreTapes, TargetsAreExplained, TerminalsAreAllocated, TracesTellActs, TracesTellDeeds, TracesTellHops, TracesTellNews};
ghost use Rattle.vt_world.specs.RefusalLaws.{BrokenWaitsAreTaken, LaterAnswersStay, RefusalsCanGo, RefusalsChangeNothing};
ghost use Rattle.vt_world.specs.Rights.{AdmissionsAreStarts, AdmissionsComeFirst, RightsAreOwn};
ghost use Rattle.vt_world.specs.StepLaws.{NobodyWaitsAtStart, OneTranslation, SizesStay, TerminalsStay, TicketsAreCalled};

use crate::World;

/// How a legal history grows, entry by entry.
pub fn legal_grows()
    ensures nothing { NothingIsLegal }
    ensures more { LegalGrows }
    ensures replay { ReplayGrows }
    ensures entered { StepsAreEntered }
{}

/// The cause of each switch of the display in every history from a start, and the marks of the
/// traces.
pub fn displays_are_lawful()
    ensures lawful { DisplaysAreLawful }
    ensures waiting { TargetsAreExplained }
    ensures owners { OwnersAreLive }
    ensures acts { ActsMakeCores }
    ensures calls { ActsAreCalls }
    ensures trace { TracesTellDeeds }
    ensures told { TracesTellActs }
    ensures hops { TracesTellHops }
{}

/// The cause of each switch of the display in every history from any machine in which no console
/// waits for the display.
pub fn displays_are_lawful_from(w: &World)
    ensures { DisplaysAreLawfulFrom w.now }
{
    w.owners_live();
}

/// The marks of a history's traces about the display: which owner is asked, and where the display
/// goes; and how the moments of a history grow, entry by entry.
pub fn traces_tell_news()
    ensures news { TracesTellNews }
    ensures moments { MomentsGrow }
{}

/// No event changes the size of new screens.
pub fn sizes_stay()
    ensures { SizesStay }
{}

/// An event leaves the screen and the count of BELs of a console that it doesn't touch, or frees
/// it.
pub fn terminals_stay()
    ensures { TerminalsStay }
{}

/// An event opens no wait except its caller's.
pub fn tickets_are_called()
    ensures { TicketsAreCalled }
{}

/// A refused call changes nothing, neither the machine nor any later answer. So the refused calls of
/// a list can be left out.
pub fn refused_calls_change_nothing()
    ensures refused { RefusalsChangeNothing }
    ensures later { LaterAnswersStay }
    ensures runs { RefusalsCanGo }
    ensures broken { BrokenWaitsAreTaken }
{}

/// A caller's rights matter to its own calls alone. So a process that made no call may have had its
/// rights from the start.
pub fn rights_are_own()
    ensures own { RightsAreOwn }
    ensures first { AdmissionsComeFirst }
    ensures starts { AdmissionsAreStarts }
{}

/// After every history from a start, the scan numbers of all keyboards have the same keycodes.
pub fn one_translation()
    ensures { OneTranslation }
{}

/// Nobody waits at a start.
pub fn nobody_waits_at_start()
    ensures { NobodyWaitsAtStart }
{}

/// After every history from a start each screen is its console's tape, run from the start screen.
pub fn screens_are_tapes()
    ensures screens { ScreensAreTapes }
    ensures terminals { TerminalsAreAllocated }
{}
