//! Pens: how text is written, and the sequence that changes it (ECMA-48 SGR).
#![tactic(auto)]

mod apply_sgr;
mod change;
mod colour;
mod indices;
mod pen;

pub use apply_sgr::{apply, apply_five, apply_three};
pub use pen::Pen;
