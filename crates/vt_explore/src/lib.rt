//! Every order in which the callers of a session can make their calls: an order in which a call is made that a
//! question asks for, or that none is made in any.
#![tactic(auto)]

mod conditions;
mod digests;
mod exploring;
mod fact;
mod findings;
mod held;
mod laws;
mod opened;
mod order;
mod orders;
mod outcome;
mod pattern;
mod places;
mod pool;
mod position;
mod progress;
mod question;
mod search;
mod shows;
mod tried;

pub use conditions::Conditions;
pub use exploring::explore;
pub use fact::{Condition, Fact};
pub use laws::searches_are_whole;
pub use order::Order;
pub use orders::Orders;
pub use outcome::{End, Outcome};
pub use pattern::{AnswerKind, AnswerPattern, CallPattern, NumberAt};
pub use progress::{Progress, Silent};
pub use question::Question;
