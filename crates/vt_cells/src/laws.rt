//! The law that a character takes at most two columns, and which ones take one.
ghost use Rattle.vt_cells.specs.Width.{AtMostTwo, LowTakeOne, PlainTakeOne, PrivateTakeOne, WorkedColumns};

/// Bounds of the columns of a code, and the columns of some characters.
#[tactic(auto, using(crate::proofs::Widths::widths, crate::proofs::Blocks::blocks))]
pub fn columns_are_few()
    ensures low { LowTakeOne }
    ensures plain { PlainTakeOne }
    ensures private { PrivateTakeOne }
    ensures most { AtMostTwo }
    ensures worked { WorkedColumns }
{}
