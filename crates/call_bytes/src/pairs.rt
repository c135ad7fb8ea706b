//! Pairs of compose keys as bytes.
ghost use Rattle.std.specs.Prelude.{◌≡◌, ◌+◌, ◌*◌, ◌≤◌, ◌++◌, length};
ghost use Rattle.std.specs.Int.{to_le_bytes, w32};
ghost use Rattle.call_bytes.specs.Pairs.{is_pair_at, pair_at, pair_bytes, pairs_in, pairs_text};

use crate::numbers::{is_number_at, number_at};
use crate::pair_list::PairList;
use key_syms::Pair;
use vt_base::Bytes;

/// The bytes of a pair.
const PAIR_BYTES: usize = 12;

/// The bytes of the most pairs.
const MOST_BYTES: usize = 3_072;

/// Appends the pairs. They must fit the room.
pub fn add_pairs(pairs: &[Pair], out: &mut Bytes)
    requires { 12 * length pairs.now ≤ out.old.room }
    ensures bytes { out.new.bytes ≡ out.old.bytes ++ pairs_text pairs.now }
    ensures room { out.new.room + 12 * length pairs.now ≡ out.old.room }
    ensures whole { out.new.room + length out.new.bytes ≡ out.old.room + length out.old.bytes }
{
    for pair in pairs {
        add_pair(*pair, out);
    }
}

fn add_pair(pair: Pair, out: &mut Bytes)
    requires { 12 ≤ out.old.room }
    ensures bytes { out.new.bytes ≡ out.old.bytes ++ pair_bytes pair }
    ensures room { out.new.room + 12 ≡ out.old.room }
{
    add_number(pair.accent, out);
    add_number(pair.base, out);
    add_number(pair.result, out);
}

fn add_number(n: u16, out: &mut Bytes)
    requires { 4 ≤ out.old.room }
    ensures bytes { out.new.bytes ≡ out.old.bytes ++ to_le_bytes w32 n }
    ensures room { out.new.room + 4 ≡ out.old.room }
{
    out.append(&u32::from(n).to_le_bytes());
}

/// The pairs of these bytes, if they are pairs.
pub fn read_pairs(b: &[u8]) -> Option<PairList>
    ensures { result ≡ pairs_in b.now }
{
    if b.len() > MOST_BYTES || b.len() % PAIR_BYTES != 0 {
        return None;
    }
    let mut pairs = PairList::new();
    for k in 0..b.len() / PAIR_BYTES {
        if !is_pair_at(b, k) {
            return None;
        }
        pairs.push(pair_at(b, k));
    }
    Some(pairs)
}

// Whether the pair at a place has numbers of 16 bits.
fn is_pair_at(b: &[u8], k: usize) -> bool
    requires { 12 * k + 12 ≤ length b.now }
    ensures { result ≡ is_pair_at b.now k }
{
    let at = PAIR_BYTES * k;
    is_number_at(b, at) && is_number_at(b, at + 4) && is_number_at(b, at + 8)
}

fn pair_at(b: &[u8], k: usize) -> Pair
    requires { 12 * k + 12 ≤ length b.now }
    ensures { result ≡ pair_at b.now k }
{
    let at = PAIR_BYTES * k;
    Pair {
        accent: number_at(b, at),
        base: number_at(b, at + 4),
        result: number_at(b, at + 8),
    }
}
