use key_syms::Pair;
use vt_base::ShortList;

/// Pairs of compose keys in order: at most 256.
pub type PairList = ShortList<Pair, 256>;
