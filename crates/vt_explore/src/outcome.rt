use crate::Orders;

/// Where a search over every order ended.
#[derive(Clone, Copy, PartialEq, Eq)]
pub enum End {
    /// Every order was tried.
    Whole,
    /// An order was found for each question.
    Answered,
    /// One order more was kept than the limit allows.
    Limit,
    /// An order has 1,000,000 turns, and a call can be made after it.
    Long,
}

/// What a search found, and how far it was.
#[derive(Drop)]
pub struct Outcome {
    /// For each question an order whose last turn makes a call that it asks for, if one was found.
    pub found: Orders,
    pub end: End,
    /// How many orders the search keeps. No clause states that they lead to different states.
    pub states: usize,
    /// How many calls were made from these states.
    pub calls: u64,
}
