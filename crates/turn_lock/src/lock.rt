ghost use Rattle.std.specs.Prelude.{◌≡◌};
ghost use Rattle.std.specs.Mem.Slots.{slots_items, slots_len, IsFull};
ghost use Rattle.atomic_table.specs.Table.{Final, Seen};
ghost use Rattle.turn_lock.specs.Rule.{Rule};

use crate::atomic_steps::{
    CompareJoined, JoinStep, LoadFront, LoadServing, Picked, SplitStep, TakeTicket,
};
use crate::bells::{BELLS, Bells};
use crate::board::{FRONT, LockWords, NEXT, Place, SERVING, SLOT};
use crate::door::Door;
use crate::held::Held;
use crate::kept::Kept;
use crate::pass::Pass;
use atomic_table::{Closed, Table};
use crossbeam_utils::sync::Key;
use std::alloc::Global;
use std::hint;
use std::marker::Brand;
use std::sync::Wait;
use vt_base::NoMemory;

/// How often a caller looks before it sleeps: at the door, and again at the bell of its ticket.
const LOOKS: u32 = 20;

/// The lock, with the value under it.
#[derive(Drop)]
pub struct TurnLock<K: Kept> {
    pub(crate) board: LockWords<K>,
    pub(crate) bells: Bells<BELLS>,
    pub(crate) door: Door,
    ghost sized: { (board.shared.table_id.words ≡ 3) × (board.shared.table_id.slots ≡ 1) },
}

impl<K: Kept> TurnLock<K> {
    ghost use Rattle.std.specs.Prelude.{ℕ, ◌%◌, ◌^◌, true, false, [], ◌∷◌, IfOk};
    ghost use Rattle.turn_lock.specs.History.{StartsWith};
    ghost use Rattle.turn_lock.specs.Views.{HasNumber, IsLive, among, joined_of, made_of, number_of};
    ghost use Rattle.turn_lock.specs.Views.{as_caller, both, newcomer, with_known_word, with_number, with_turn};
    ghost use Rattle.turn_lock.specs.Words.{AllJoined, has_joined};
    ghost use Rattle.turn_lock.specs.Words.{HasTurnIn, IsFirstIn, RestsIn, RestsWith};
    ghost use Rattle.turn_lock.specs.Words.{lock_of, name, pass_of, value_of, view};
    ghost use Rattle.turn_lock.specs.Told.{Closes, FindsHistory, Reads};
    ghost use Rattle.turn_lock.specs.declared.view.Stage.TheVariants.{Waits};

    /// A lock with this value under it, and the first pass, which has no number.
    pub fn open(alloc: Global, value: K) -> Result<(TurnLock<K>, Pass<K>), NoMemory>
    where
        K: Drop,
        requires entries { K.entries value ≡ [] }
        requires seal { K.seal value ≡ None }
        ensures { IfOk result (λ made. RestsWith made.0 (newcomer K.before) made.1) }
    {
        let bells = Bells::hang(alloc)?;
        let door = Door::hang(alloc)?;
        let front = value.front();
        let mut slots = Vec::new(alloc);
        slots.push(Some(value))?;
        match Table::new(alloc, &[0, 0, front], slots, &()) {
            Ok((board, place)) => Ok((TurnLock { board, bells, door }, Pass { place })),
            Err(_) => Err(NoMemory),
        }
    }

    /// Makes a pass with this number.
    pub fn split(&self, p: &mut Pass<K>, number: u32) -> Pass<K>
        requires own { IsFirstIn self.now p.old }
        requires fresh { among number (made_of (view p.old).role) ≡ false }
        ensures own { RestsWith self.now (with_number number (view p.old)) p.new }
        ensures made { RestsWith self.now (as_caller number (view p.old)) result }
    {
        self.split_as::<Brand>(p, number)
    }

    fn split_as<J: Picked>(&self, p: &mut Pass<K>, number: u32) -> Pass<K>
        requires picked { number ≡ J.number }
        requires own { IsFirstIn self.now p.old }
        requires fresh { among number (made_of (view p.old).role) ≡ false }
        ensures own { RestsWith self.now (with_number number (view p.old)) p.new }
        ensures made { RestsWith self.now (as_caller number (view p.old)) result }
    {
        let place = self.board.shared.split_seat::<SplitStep<J>>(&mut p.place);
        Pass { place }
    }

    /// Joins another pass: the first pass then knows the longer history of both.
    pub fn join(&self, p: &mut Pass<K>, q: Pass<K>)
        requires own { IsFirstIn self.now p.old }
        requires other { RestsIn self.now q }
        requires numbered { HasNumber (view q).role }
        ensures own { RestsWith self.now (both (view p.old) (view q)) p.new }
        ensures own_seen { StartsWith (view p.new).seen (view p.old).seen }
        ensures other_seen { StartsWith (view p.new).seen (view q).seen }
        ensures own_read { StartsWith (view p.new).read (view p.old).read }
        ensures other_read { StartsWith (view p.new).read (view q).read }
        ensures number { among (number_of (view q).role) (made_of (view p.old).role) ≡ true }
        ensures once { has_joined (number_of (view q).role) (joined_of (view p.old).role) ≡ false }
    {
        self.take_in(p, q);
        // Of the two histories that they had seen one is a prefix of the other, and so it is with those
        // that they had read. The number of the joined pass was made, and no other pass has it.
        self.board.shared.load::<CompareJoined>(&mut p.place, NEXT);
    }

    // Joins another pass, and compares nothing yet.
    fn take_in(&self, p: &mut Pass<K>, q: Pass<K>)
        requires own { IsFirstIn self.now p.old }
        requires other { RestsIn self.now q }
        requires numbered { HasNumber (view q).role }
        ensures { RestsWith self.now (both (view p.old) (view q)) p.new }
    {
        let Pass { place } = q;
        self.board.shared.join_seat::<JoinStep>(&mut p.place, place);
    }

    /// Waits for this pass's turn and returns the value.
    pub fn enter<'a, R: Wait>(&'a self, rt: &R, p: &'a mut Pass<K>) -> Held<'a, K>
        requires { RestsIn self.now p.old }
        ensures lock { name (lock_of result) ≡ name self.now }
        ensures same { result.pass.ghost_name ≡ p.entry.ghost_name }
        ensures turn { HasTurnIn self.now (pass_of result) }
        ensures view { (ticket : ℕ)
            × (view (pass_of result)
            ≡ with_turn ticket (K.entries (value_of result)) (K.seal (value_of result)) (view p.old)) }
        ensures finds { FindsHistory K.before (K.entries (value_of result)) (K.seal (value_of result)) (view p.old) }
    {
        self.stand_aside(rt, p);
        let ticket = self
            .board
            .shared
            .fetch_add::<TakeTicket>(&mut p.place, NEXT, 1);
        let value = self.take(rt, &mut p.place, ticket);
        Held {
            lock: self,
            pass: p,
            value,
        }
    }

    // Looks whether the lock is free, and waits at the door if it isn't. The pass has no ticket yet: nobody waits at
    // the door with one.
    fn stand_aside<R: Wait>(&self, rt: &R, p: &Pass<K>)
        requires { RestsIn self.now p.now }
    {
        let _ = p; // opens the pass
        for _ in 0..LOOKS {
            if !self.is_busy() {
                return;
            }
            hint::spin_loop();
        }
        let mut visitor = self.door.visit();
        // If no ticket is out, no other caller needs to come and leave: this one does the call.
        if let Some(served) = self.idle() {
            let _ = self.door.call(served);
        }
        self.door.wait(rt, &mut visitor);
        visitor.leave();
    }

    // Whether a ticket is out, or the callers stand aside for one that was called in.
    fn is_busy(&self) -> bool {
        // It is read before `serving`, so the ticket that is served is no earlier.
        let since = self.door.since();
        match self.idle() {
            Some(served) => self.door.is_due(served.wrapping_sub(since)),
            None => true,
        }
    }

    // The ticket that is served next, if none is out.
    fn idle(&self) -> Option<u64> {
        // `serving` is read first: if `next` differs from it, the caller with that ticket leaves after this
        // look began.
        let served = self.board.shared.peek(SERVING);
        if self.board.shared.peek(NEXT) == served {
            Some(served)
        } else {
            None
        }
    }

    // Waits until this ticket is served, and takes the value out of its slot.
    fn take<R: Wait>(&self, rt: &R, place: &mut Place<K>, ticket: u64) -> K
        requires own { (place.old.table_id ≡ name self.now) × (place.old.me.1 ≡ []) }
        requires ticket { (t : ℕ) × (ticket ≡ t % 2 ^ 64) × (place.old.me.0.stage ≡ Waits t) }
        requires live { IsLive place.old.me.0.role }
        ensures own { (place.new.table_id ≡ name self.now) × (place.new.me.1 ≡ (0, None) ∷ []) }
        ensures view { (ticket : ℕ)
            × (place.new.me.0 ≡ with_turn ticket (K.entries result) (K.seal result) place.old.me.0) }
        ensures finds { FindsHistory K.before (K.entries result) (K.seal result) place.old.me.0 }
    {
        let mut looks = 0;
        for _ in rt.forever() {
            // A wait is announced before the look, so the bell can't ring between the two unheard.
            let key = self.announced(ticket, looks);
            if self.board.shared.load::<LoadServing>(place, SERVING) == ticket {
                return self.board.shared.exchange(place, SLOT, None).unwrap();
            }
            match key {
                Some(key) => key.wait(rt),
                None => {
                    looks = looks.saturating_add(1);
                    hint::spin_loop();
                }
            }
        }
        unreachable!()
    }

    // After so many looks, a wait at the bell of this ticket.
    fn announced(&self, ticket: u64, looks: u32) -> Option<Key<'_>> {
        if looks < LOOKS {
            return None;
        }
        Some(self.bells.announced(ticket))
    }

    /// Reads the word of the history without waiting.
    pub fn front(&self, p: &mut Pass<K>) -> u64
        requires { RestsIn self.now p.old }
        ensures own { RestsWith self.now (with_known_word (view p.new).read result (view p.old)) p.new }
        ensures reads { Reads K.before K.right (view p.new).read result (view p.old) }
    {
        self.board.shared.load::<LoadFront>(&mut p.place, FRONT)
    }

    /// Closes the lock and returns the value, if all other passes have been joined.
    pub fn close(self, p: Pass<K>) -> K
        requires own { IsFirstIn self p }
        requires all { AllJoined (view p).role }
        ensures { Closes K.before (K.entries result) (K.seal result) (view p) }
    {
        let mut closed = shut(self.board, p.place);
        let value = closed.take(SLOT).unwrap();
        closed.free();
        value
    }
}

// Ends the sharing of the table: its last state agrees with the knowledge of the pass.
fn shut<K: Kept>(board: LockWords<K>, place: Place<K>) -> Closed<Option<K>, Global>
    requires { place.table_id ≡ board.shared.table_id }
    ensures words { slots_len result.words ≡ board.shared.table_id.words }
    ensures slots { slots_len result.slots ≡ board.shared.table_id.slots }
    ensures full { IsFull result.words × IsFull result.slots }
    ensures last { Final (Seen (Rule K.before K.entries K.seal K.right) place.id place.me.0)
        (slots_items result.words) (slots_items result.slots) }
{
    board.close_with(place)
}
