//! Tests of the crates above sessions: certificates, reviews, and the top call over threads, the text of `race`
//! and its status.
#![tactic(auto)]

#[cfg(test)]
mod tests;
