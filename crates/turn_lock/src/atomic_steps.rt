//! The atomic steps on the table, and the steps that make and join passes.
ghost use Rattle.turn_lock.specs.Told.{DrawsTicket, LoadsServing, StoresFront, EndsTurn, ComparesJoined, LoadsFront};
ghost use Rattle.turn_lock.specs.Views.{with_number, as_caller, both, joined_away};
ghost use Rattle.std.specs.Prelude.{ℕ, List, []};
ghost use Rattle.turn_lock.specs.declared.entry.Entry.{Entry};

use crate::kept::Kept;
use crate::view::View;
use atomic_table::{Join, Play, Split};
use std::marker::{Brand, PhantomData};

/// A number, for the proof alone: the caller picks it.
pub(crate) trait Picked {
    ghost number: { ℕ };
}

impl Picked for Brand {
    ghost number = { 0 };
}

/// The entries that are published, for the proof alone: the caller picks them.
pub(crate) trait Adding<W> {
    ghost more: { List (Entry W) };
}

impl<W> Adding<W> for Brand {
    ghost more = { [] };
}

pub(crate) struct TakeTicket;

impl<K: Kept> Play<Option<K>, View<K::What, K::Stop>> for TakeTicket {
    ghost then = { DrawsTicket };
}

pub(crate) struct LoadServing;

impl<K: Kept> Play<Option<K>, View<K::What, K::Stop>> for LoadServing {
    ghost then = { LoadsServing K.before K.entries K.seal };
}

pub(crate) struct StoreFront<J> {
    adding: PhantomData<J>,
}

impl<K: Kept, J: Adding<K::What>> Play<Option<K>, View<K::What, K::Stop>> for StoreFront<J> {
    ghost then = { StoresFront J.more };
}

pub(crate) struct EndTurn;

impl<K: Kept> Play<Option<K>, View<K::What, K::Stop>> for EndTurn {
    ghost then = { EndsTurn K.seal };
}

pub(crate) struct CompareJoined;

impl<K: Kept> Play<Option<K>, View<K::What, K::Stop>> for CompareJoined {
    ghost then = { ComparesJoined };
}

pub(crate) struct LoadFront;

impl<K: Kept> Play<Option<K>, View<K::What, K::Stop>> for LoadFront {
    ghost then = { LoadsFront K.before K.right };
}

pub(crate) struct SplitStep<J> {
    picked: PhantomData<J>,
}

impl<J: Picked, W, Z> Split<View<W, Z>> for SplitStep<J> {
    ghost left = { with_number J.number };

    ghost right = { as_caller J.number };
}

pub(crate) struct JoinStep;

impl<W, Z> Join<View<W, Z>> for JoinStep {
    ghost both = { both };

    ghost spent = { joined_away };
}
