//! One machine for callers in several threads: their calls make one legal history.
#![tactic(auto)]

mod answer;
mod hub;
mod kept_impl;
mod look;
mod opening;
mod pass;
mod pass_place;
mod run;
mod seat;
mod shared;
mod state;
mod steward;
mod turned;
mod waiters;
mod wake_ups;
mod woken;

pub use answer::Answer;
pub use hub::Hub;
pub use opening::Opening;
pub use pass::Pass;
pub use pass_place::PassPlace;
pub use run::Run;
pub use seat::Seat;
pub use steward::Steward;
