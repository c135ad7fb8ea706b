//! Tests of the crates of keymaps, keys and scan bytes: behaviour that no clause covers, and expected values
//! from outside.
#![tactic(auto)]

#[cfg(test)]
mod tests;
