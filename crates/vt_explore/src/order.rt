ghost use Rattle.vt_explore.specs.Held.{Begins};
ghost use Rattle.std.specs.Prelude.{◌≡◌, ◌<◌, ◌≤◌, [], ◌∷◌, ◌++◌, length, IfOk, IsTrue, OnOk};

use std::alloc::Global;
use std::marker::Model;
use vt_base::NoMemory;

/// The most turns of an order.
pub(crate) const MOST_TURNS: usize = 1_000_000;

/// Whose turn is next, turn by turn, by the callers' numbers.
#[derive(Drop)]
pub struct Order {
    callers: Vec<u8>,
}

impl Model for Order {
    ghost use Rattle.std.specs.Prelude.{◌≤◌, ℕ, List, length};

    ghost Value = { List ℕ };

    ghost view = { λ o. o.callers.items };

    ghost invariant = { λ o. length o.callers.items ≤ 1000000 };
}

impl Order {
    /// No turns.
    pub(crate) fn none(alloc: Global) -> Order
        ensures { result ≡ [] }
    {
        Order {
            callers: Vec::new(alloc),
        }
    }

    /// A copy.
    pub(crate) fn copy(&self, alloc: Global) -> Result<Order, NoMemory>
        ensures { IfOk result (λ order. order ≡ self.now) }
    {
        let callers = Vec::from_slice(alloc, self.callers.as_slice())?;
        Ok(Order { callers })
    }

    /// One more turn.
    pub(crate) fn push(&mut self, caller: u8) -> Result<(), NoMemory>
        requires { length self.old < 1_000_000 }
        ensures { OnOk result (self.new ≡ self.old ++ caller ∷ []) }
    {
        self.callers.push(caller)?;
        Ok(())
    }

    /// Becomes the other order.
    pub(crate) fn copy_from(&mut self, other: &Order) -> Result<(), NoMemory>
        ensures { OnOk result (self.new ≡ other.now) }
    {
        self.callers.clear();
        self.callers.extend_from_slice(other.as_slice())?;
        Ok(())
    }

    /// Whether both are the same.
    pub(crate) fn same(&self, other: &Order) -> bool
        ensures { IsTrue result → self.now ≡ other.now }
    {
        is_same(self.as_slice(), other.as_slice())
    }

    /// Whether this order begins with the other.
    pub(crate) fn begins_with(&self, other: &Order) -> bool
        ensures { IsTrue result → Begins self.now other.now }
    {
        let len = other.as_slice().len();
        if self.as_slice().len() < len {
            return false;
        }
        is_same(&self.as_slice()[..len], other.as_slice())
    }

    /// The number of turns.
    pub(crate) fn len(&self) -> usize
        ensures { result ≡ length self.now }
    {
        self.callers.len()
    }

    /// The callers.
    pub fn as_slice(&self) -> &[u8]
        ensures callers { result.now ≡ self.now }
        ensures few { length result.now ≤ 1_000_000 }
    {
        self.callers.as_slice()
    }
}

// Whether both have the same turns.
fn is_same(turns: &[u8], others: &[u8]) -> bool
    ensures { IsTrue result → turns.now ≡ others.now }
{
    turns == others
}
