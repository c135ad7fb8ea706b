//! Tests of the screen: behaviour that no clause of its crate covers, and expected values from outside.
#![tactic(auto)]

#[cfg(test)]
mod tests;
