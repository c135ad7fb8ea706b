//! The printable characters of ASCII at the start of a text, searched 16 bytes at a time.
ghost use Rattle.std.specs.List.{prefix_len};
ghost use Rattle.std.specs.Prelude.{◌≡◌, map, not};
ghost use Rattle.std.specs.Simd.Lanes.{mask_l};
ghost use Rattle.vt_units.specs.Bytes.{is_printable};

use crate::bytes::is_printable;
use std::simd::prelude::*;

/// The number of bytes that are searched together.
const LANES: usize = 16;

/// The number of the first bytes that are printable characters of ASCII.
#[tactic(auto, using(crate::proofs::Printables::printable_within))]
pub(crate) fn printable_prefix(b: &[u8]) -> usize
    ensures { result ≡ prefix_len is_printable b.now }
{
    let mut at = 0;
    while b.len() - at >= LANES {
        let stops = stops_in(u8x16::from_slice(&b[at..]));
        if stops != 0 {
            return at + stops.trailing_zeros() as usize;
        }
        at += LANES;
    }
    at + short_prefix(&b[at..])
}

// The number of the first bytes that are printable, found one by one.
fn short_prefix(b: &[u8]) -> usize
    ensures { result ≡ prefix_len is_printable b.now }
{
    for (i, x) in b.iter().enumerate() {
        if !is_printable(*x) {
            return i;
        }
    }
    b.len()
}

// A bit for each byte, set if it isn't printable.
#[inline(always)]
fn stops_in(v: u8x16) -> u64
    ensures { result ≡ mask_l (map (λ b. not (is_printable b)) v) }
{
    (v - u8x16::splat(0x20))
        .simd_ge(u8x16::splat(0x5F))
        .to_bitmask()
}
