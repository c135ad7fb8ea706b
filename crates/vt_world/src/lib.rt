//! The machine for one thread: it takes the calls of its callers one by one, and answers each.
#![tactic(auto)]

mod call;
mod effects;
mod input;
mod inputs;
mod keyboard_set;
mod laws;
mod rows;
mod spare;
mod step;
mod table_laws;
mod terminal;
mod terminals;
mod trace;
mod wanted;
mod world;

pub use laws::{
    displays_are_lawful, displays_are_lawful_from, legal_grows, nobody_waits_at_start,
    one_translation, refused_calls_change_nothing, rights_are_own, screens_are_tapes, sizes_stay,
    terminals_stay, tickets_are_called, traces_tell_news,
};
pub use spare::{Spare, spare_for, spare_from};
pub use table_laws::tables_stay;
pub use vt_switch::{Hop, Mark};
pub use world::World;
