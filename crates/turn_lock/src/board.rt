//! The table of the lock: its words, its slot and its rule.
use crate::kept::Kept;
use crate::view::View;
use atomic_table::{Seat, Table, TableRule};
use std::alloc::Global;
use std::marker::PhantomData;

/// The ticket that is drawn next.
pub(crate) const NEXT: usize = 0;

/// The ticket whose turn it is.
pub(crate) const SERVING: usize = 1;

/// The word of the history.
pub(crate) const FRONT: usize = 2;

/// The slot of the value.
pub(crate) const SLOT: usize = 0;

/// The rule of the lock, which holds between any two atomic steps.
pub(crate) struct Turns<K> {
    of: PhantomData<K>,
}

impl<K: Kept> TableRule<Option<K>, View<K::What, K::Stop>, ()> for Turns<K> {
    ghost use Rattle.turn_lock.specs.Rule.{Rule};
    ghost use Rattle.turn_lock.specs.Views.{newcomer};

    ghost holds = { λ _. Rule K.before K.entries K.seal K.right };

    ghost first = { λ _. newcomer K.before };
}

pub(crate) type LockWords<K: Kept> = Table<
    Option<K>,
    View<<K as Kept>::What, <K as Kept>::Stop>,
    (),
    Turns<K>,
    Global,
>;

pub(crate) type Place<K: Kept> = Seat<Option<K>, View<<K as Kept>::What, <K as Kept>::Stop>>;
