//! Tests of the crates below the screen: behaviour that none of their clauses covers, and expected values from
//! outside.
#![tactic(auto)]

#[cfg(test)]
mod tests;
