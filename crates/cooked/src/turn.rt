use crate::given::Given;
use crate::stop::Stop;

/// The result of a turn: the item, and why the turn stopped, if it did.
#[derive(Clone, Copy, Debug, PartialEq, Eq)]
pub struct Turn {
    pub given: Given,
    pub stop: Option<Stop>,
}
