//! Tests of consoles: a machine and its walks, the machine that threads share with cooked lines above it, and
//! races. Behaviour that a command or a single call shows is in the data of `cases`.
#![tactic(auto)]

#[cfg(test)]
mod tests;
