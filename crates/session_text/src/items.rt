ghost use Rattle.std.specs.Prelude.{◌≡◌, ◌+◌, ◌<◌, [], ◌∷◌, ◌++◌, IfOk};

use std::alloc::Global;
use std::marker::Model;
use vt_base::NoMemory;
use vt_events::Event;

/// The calls of a script, with spare room: adding one within the room takes no memory.
#[derive(Drop)]
pub struct Items {
    events: Vec<Event>,
    room: usize,
}

impl Model for Items {
    ghost use Rattle.std.specs.Prelude.{◌+◌, ◌≤◌, vec_len, vec_capacity};
    ghost use Rattle.session_text.specs.Items.{Listed};

    ghost Value = { Listed };

    ghost view = { λ i. record { events = i.events.items; room = i.room } };

    ghost invariant = { λ i. vec_len i.events + i.room ≤ vec_capacity i.events };
}

impl Items {
    /// No calls, and room for `n`.
    pub fn with_room(alloc: Global, n: usize) -> Result<Items, NoMemory>
        ensures events { IfOk result (λ items. items.events ≡ []) }
        ensures room { IfOk result (λ items. items.room ≡ n) }
    {
        let events = Vec::with_capacity(alloc, n)?;
        Ok(Items { events, room: n })
    }

    /// The number of further calls that fit.
    pub fn room(&self) -> usize
        ensures { result ≡ self.now.room }
    {
        self.room
    }

    /// Adds a call. There must be room for it.
    pub fn push(&mut self, e: Event)
        requires { 0 < self.old.room }
        ensures events { self.new.events ≡ self.old.events ++ e ∷ [] }
        ensures room { self.new.room + 1 ≡ self.old.room }
    {
        let added = self.events.push(e);
        prove!(added.is_ok());
        let _ = added; // only the proof reads it
        self.room -= 1;
    }

    /// The calls in order.
    pub fn as_slice(&self) -> &[Event]
        ensures { result.now ≡ self.now.events }
    {
        self.events.as_slice()
    }
}
