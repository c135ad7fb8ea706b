//! Machines that are kept, each after the turns of an order.
ghost use Rattle.std.specs.Prelude.{◌≡◌, ◌<◌, [], ◌∷◌, ◌++◌, Some, IfOk, IsTrue, OnOk, length};
ghost use Rattle.session_order.specs.Ends.{Setup};
ghost use Rattle.session_order.specs.Orders.{history_of};
ghost use Rattle.session_order.specs.Serial.{call_now};
ghost use Rattle.session_order.specs.Sessions.{AreOfCallers, setup_of};
ghost use Rattle.session_text.specs.Programs.{program_of};
ghost use Rattle.vt_explore.specs.Alike.{AreAlike};
ghost use Rattle.vt_explore.specs.Held.{IsHeld};
ghost use Rattle.vt_explore.specs.Positions.{HasMade};

use crate::Order;
use crate::position::Position;
use session_text::{Program, Session};
use std::alloc::Global;
use std::marker::Model;
use vt_base::{CallerNo, NoMemory};
use vt_events::{Event, Reply};

/// A machine after the turns of an order. It is in a box, so that a move takes a few words.
#[derive(Drop)]
pub(crate) struct Held {
    order: Order,
    position: Box<Position>,
}

impl Model for Held {
    ghost use Rattle.vt_explore.specs.Held.{HeldState};

    ghost Value = { HeldState };

    ghost view = { λ h. record { order = h.order; position = h.position.value } };
}

impl Held {
    /// Before the first turn.
    pub(crate) fn start(alloc: Global, s: &Session) -> Result<Held, NoMemory>
        ensures order { IfOk result (λ held. held.order ≡ []) }
        ensures at { IfOk result (IsHeld (setup_of s.now)) }
    {
        let position = Box::new(alloc, Position::start(alloc, s)?)?;
        Ok(Held {
            order: Order::none(alloc),
            position,
        })
    }

    /// The order.
    pub(crate) fn order(&self) -> &Order
        ensures { result.now ≡ self.now.order }
    {
        &self.order
    }

    /// The machine.
    pub(crate) fn position(&self) -> &Position
        ensures { result.now ≡ self.now.position }
    {
        &self.position
    }

    /// Becomes the other, which is of the same session.
    pub(crate) fn copy_from(&mut self, alloc: Global, other: &Held) -> Result<(), NoMemory>
        ensures { OnOk result ((o : Setup) → IsHeld o self.old → IsHeld o other.now → self.new ≡ other.now) }
    {
        self.order.copy_from(&other.order)?;
        self.position.copy_from(alloc, other.position())?;
        Ok(())
    }

    /// A turn of the caller of this number.
    pub(crate) fn turn(&mut self, alloc: Global, s: &Session, n: u8) -> Result<(), NoMemory>
        requires { length self.old.order < 1_000_000 }
        ensures order { OnOk result (self.new.order ≡ self.old.order ++ n ∷ []) }
        ensures at { OnOk result (IsHeld (setup_of s.now) self.old → IsHeld (setup_of s.now) self.new) }
    {
        self.order.push(n)?;
        self.position.turn_of(alloc, s, n)?;
        Ok(())
    }

    /// p makes this call, which is its next one.
    pub(crate) fn make(
        &mut self,
        alloc: Global,
        program: &Program,
        p: CallerNo,
        event: &Event,
    ) -> Result<Reply, NoMemory>
        requires { length self.old.order < 1_000_000 }
        ensures order { IfOk result (λ reply. self.new.order ≡ self.old.order ++ p ∷ []) }
        ensures made { IfOk result (λ reply. (o : Setup) → program_of o.programs p ≡ Some program.now
            → call_now o (history_of o self.old.order) p ≡ Some event.now → IsHeld o self.old
            → HasMade o (history_of o self.old.order) p event.now reply self.new.position) }
    {
        self.order.push(p.get() as u8)?;
        self.position.make(alloc, program, p, event)
    }

    /// Whether everything goes on alike after both orders. Nothing is proved of the answer `false`.
    pub(crate) fn is_like(&self, other: &Held) -> bool
        ensures { IsTrue result → (o : Setup) → AreOfCallers o.programs → IsHeld o self.now → IsHeld o other.now
            → AreAlike o (history_of o self.now.order) (history_of o other.now.order) }
    {
        self.position().same(other.position())
    }
}
