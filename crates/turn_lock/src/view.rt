//! The knowledge of the passes of a lock, for proofs. No value of these types is made; in the
//! definitions the numbers have no greatest value.
use crate::entry::Entry;
use crate::seal::Seal;
use std::collections::LinkedList;

/// The knowledge of a pass when the first pass joined it.
pub struct Joined<W, Z> {
    pub number: u32,
    pub seen: LinkedList<Entry<W>>,
    pub mine: LinkedList<Entry<W>>,
    pub known: u64,
    pub read: LinkedList<Entry<W>>,
    pub seal: Option<Seal<Z>>,
    /// The histories that the first pass had seen and read at that time.
    pub beside: LinkedList<Entry<W>>,
    pub beside_read: LinkedList<Entry<W>>,
}

/// The kind of a pass.
pub enum Role<W, Z> {
    /// The first pass: the numbers that it made, and the passes that it joined, newest first.
    First(LinkedList<u32>, LinkedList<Joined<W, Z>>),
    /// A pass with a number.
    Caller(u32),
    /// A pass that was joined.
    Spent,
}

/// The place of a pass in the lock. Tickets are counted without end.
pub(crate) enum Stage<W> {
    Idle,
    /// It has this ticket.
    Waits(u64),
    /// Its ticket's turn has come: it has the value, which showed this list.
    Has(u64, LinkedList<Entry<W>>),
}

/// The knowledge of a pass.
pub struct View<W, Z> {
    pub role: Role<W, Z>,
    pub stage: Stage<W>,
    /// The history as far as it was seen. A pass that is split starts with that of the first pass, which
    /// takes the longer of both at a join.
    pub seen: LinkedList<Entry<W>>,
    /// The entries that this pass published.
    pub mine: LinkedList<Entry<W>>,
    /// The word that was read last, which is the greatest; before the first, that of no entries. A pass
    /// that is split starts with that of the first pass, which takes the greater of both at a join.
    pub known: u64,
    /// The history with that word. A pass that is split starts with that of the first pass, which takes
    /// the longer of both at a join.
    pub read: LinkedList<Entry<W>>,
    /// The seal, if this pass or one that it joined met it. A pass that is split has met none.
    pub seal: Option<Seal<Z>>,
}
