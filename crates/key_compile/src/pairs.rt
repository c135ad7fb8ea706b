//! The pairs of the lines.
ghost use Rattle.std.specs.Prelude.{◌≡◌, ◌∷◌, [], ◌++◌, IfOk, IsTrue, OnOk};
ghost use Rattle.key_compile.specs.Dumpable.{AreFit};
ghost use Rattle.key_compile.specs.Pairs.{pairs_by, pairs_in, usual};
ghost use Rattle.key_text.specs.KeymapLine.{is_fit};

use crate::usual::USUAL_PAIRS;
use key_syms::Pair;
use key_text::{Line, LineKind};
use std::alloc::{AllocError, Global};

/// The pairs of the lines, in order. Each line was read, so each is known to be fit.
pub(crate) fn pairs_in(alloc: Global, lines: &[Line]) -> Result<Vec<Pair>, AllocError>
    ensures pairs { IfOk result (λ pairs. pairs.items ≡ pairs_in lines.now) }
    ensures fit { IfOk result (λ _pairs. AreFit lines.now) }
{
    let mut pairs = Vec::new(alloc);
    for i in 0..lines.len() {
        add_pairs(&mut pairs, &lines[i])?;
    }
    Ok(pairs)
}

fn add_pairs(pairs: &mut Vec<Pair>, line: &Line) -> Result<(), AllocError>
    ensures pairs { OnOk result (pairs.new.items ≡ pairs.old.items ++ pairs_by line.now.meaning) }
    ensures fit { IsTrue (is_fit line.now.meaning) }
{
    match &line.kind {
        LineKind::Compose(pair) => add_pair(pairs, *pair),
        LineKind::UsualPairs => pairs.extend_from_slice(usual_pairs()),
        _ => Ok(()),
    }
}

fn add_pair(pairs: &mut Vec<Pair>, pair: Pair) -> Result<(), AllocError>
    ensures { OnOk result (pairs.new.items ≡ pairs.old.items ++ pair ∷ []) }
{
    pairs.push(pair)?;
    Ok(())
}

#[tactic(auto, unfolding(crate::specs::Pairs::usual))]
fn usual_pairs() -> &'static [Pair]
    ensures { result.now ≡ usual }
{
    &USUAL_PAIRS
}
