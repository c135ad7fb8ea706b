//! Laws of calls and their parts.
ghost use Rattle.std.specs.Prelude.{◌≡◌};
ghost use Rattle.vt_events.specs.Calls.{parts_of};
ghost use Rattle.vt_events.specs.Plain.{plain_event};
ghost use Rattle.vt_events.specs.declared.event.Event.{Event};

/// A call keeps its parts if it is made again from them: the room of its bytes is not a part.
pub fn parts_make_the_call()
    ensures { (e : Event) → parts_of (plain_event e) ≡ parts_of e }
{}
