ghost use Rattle.std.specs.Prelude.{◌≡◌, ◌<◌, ◌+◌, ◌%◌, ◌^◌, ◌++◌, ◌∷◌, [], length, None};
ghost use Rattle.turn_lock.specs.History.{word_of};
ghost use Rattle.turn_lock.specs.declared.entry.Entry.{Entry};
ghost use Rattle.turn_lock.specs.Views.{ticket_of, with_published, without_turn};
ghost use Rattle.turn_lock.specs.Words.{AddsNext, HasTurnIn, MaySeal, RestsWith};
ghost use Rattle.turn_lock.specs.Words.{lock_of, pass_of, value_of, view};

use crate::atomic_steps::{Adding, EndTurn, StoreFront};
use crate::bells::Rung;
use crate::board::{FRONT, SERVING, SLOT};
use crate::door::Looked;
use crate::kept::Kept;
use crate::lock::TurnLock;
use crate::pass::Pass;
use std::marker::Brand;

/// What a caller did when it left: the bell that it rang, and its look at the door. [`Held::leave`] alone makes one.
#[derive(Drop)]
pub struct Left {
    pub(crate) rung: Rung,
    pub(crate) looked: Looked,
}

/// The value, while a pass has its turn. `leave` has to be called.
pub struct Held<'a, K: Kept> {
    pub(crate) lock: &'a TurnLock<K>,
    pub(crate) pass: &'a mut Pass<K>,
    pub(crate) value: K,
}

impl<'a, K: Kept> Held<'a, K> {
    /// Publishes the one entry that the value shows beyond the history.
    pub fn publish(&mut self)
        requires own { HasTurnIn (lock_of self.old) (pass_of self.old) }
        requires adds { AddsNext (K.entries (value_of self.old)) (view (pass_of self.old)) }
        requires found { (view (pass_of self.old)).seal ≡ None }
        requires open { K.seal (value_of self.old) ≡ None }
        requires few { length (view (pass_of self.old)).seen < 2 ^ 57 }
        ensures same { self.new.pass.ghost_name ≡ self.old.pass.ghost_name }
        ensures lock { lock_of self.new ≡ lock_of self.old }
        ensures value { value_of self.new ≡ value_of self.old }
        ensures own { HasTurnIn (lock_of self.new) (pass_of self.new) }
        ensures view { view (pass_of self.new)
            ≡ with_published (K.entries (value_of self.old)) (view (pass_of self.old)) }
        ensures mine { (e : Entry K.What)
            → K.entries (value_of self.old) ≡ (view (pass_of self.old)).seen ++ e ∷ []
            → (view (pass_of self.new)).mine ≡ (view (pass_of self.old)).mine ++ e ∷ [] }
    {
        let front = self.value.front();
        show::<K, Brand>(self.lock, self.pass, &self.value, front);
    }

    /// Gives the value back, ends the turn, rings the bell of the ticket after this one, and looks at the door for a
    /// caller to call in.
    pub fn leave(self) -> Left
        requires own { HasTurnIn (lock_of self) (pass_of self) }
        requires told { K.entries (value_of self) ≡ (view (pass_of self)).seen }
        requires seal { MaySeal (K.seal (value_of self)) (view (pass_of self)) }
        ensures rests { RestsWith (lock_of self.entry)
            (without_turn (K.seal (value_of self.entry)) (view (pass_of self.entry))) self.exit.1.0.now }
        ensures rung { result.rung ≡ (ticket_of (view (pass_of self.entry)).stage + 1) % 2 ^ 64 }
    {
        let Held { lock, pass, value } = self;
        let shared = &lock.board.shared;
        let before = shared.exchange(&mut pass.place, SLOT, Some(value));
        let None = before else { unreachable!() };
        let served = shared.fetch_add::<EndTurn>(&mut pass.place, SERVING, 1);
        let rung = lock.bells.ring(served.wrapping_add(1));
        let looked = lock.door.call(served);
        Left { rung, looked }
    }
}

// Stores the word of the history that the value shows.
fn show<K: Kept, J: Adding<K::What>>(lock: &TurnLock<K>, pass: &mut Pass<K>, value: &K, front: u64)
    requires more { K.entries value.now ≡ (view pass.old).seen ++ J.more }
    requires own { HasTurnIn lock.now pass.old }
    requires adds { AddsNext (K.entries value.now) (view pass.old) }
    requires found { (view pass.old).seal ≡ None }
    requires front { front ≡ word_of K.before (K.entries value.now) }
    requires right { K.right (K.entries value.now) }
    ensures own { HasTurnIn lock.now pass.new }
    ensures view { view pass.new ≡ with_published (K.entries value.now) (view pass.old) }
{
    let _ = value; // opens the value
    lock.board
        .shared
        .store::<StoreFront<J>>(&mut pass.place, FRONT, front);
}
