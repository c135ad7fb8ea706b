//! Tests of calls, of their journals and bytes, and of the crates that carry them out below the machine: behaviour
//! that no clause covers, and expected values from outside.
#![tactic(auto)]

#[cfg(test)]
mod tests;
