ghost use Rattle.std.specs.Prelude.{◌≡◌, ◌++◌, List, [], ◌∷◌, OnOk, length, slice_get};

use crate::Order;
use std::alloc::Global;
use std::marker::Model;
use vt_base::NoMemory;

/// For each question an order, or none. Contracts see the list.
#[derive(Drop)]
pub struct Orders {
    places: Vec<Option<Order>>,
}

impl Model for Orders {
    ghost use Rattle.std.specs.Prelude.{ℕ, List, Option};

    ghost Value = { List (Option (List ℕ)) };

    ghost view = { λ o. o.places.items };
}

impl Orders {
    /// For no question.
    pub(crate) fn none(alloc: Global) -> Orders
        ensures { result ≡ [] }
    {
        Orders {
            places: Vec::new(alloc),
        }
    }

    /// Adds what was found for the next question.
    pub(crate) fn add(&mut self, found: Option<Order>) -> Result<(), NoMemory>
        ensures { OnOk result (self.new ≡ self.old ++ found ∷ []) }
    {
        self.places.push(found)?;
        Ok(())
    }

    /// The places in the order of the questions.
    pub fn as_slice(&self) -> &[Option<Order>]
        ensures { result.now ≡ self.now }
    {
        self.places.as_slice()
    }
}
