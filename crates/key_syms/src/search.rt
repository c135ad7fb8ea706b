//! The search for a name in the symbol table.
ghost use Rattle.std.specs.Prelude.{◌≡◌, ◌≢◌, ℕ, ◌+◌, ◌<◌, ◌≤◌, IfSome, IfNone, slice_index, slice_range};
ghost use Rattle.key_syms.specs.Index.{name_at, place_of_rank};

use crate::index::{LENGTHS, ORDER, STARTS};
use crate::table::{NAME_COUNT, NAMES, NAMES_SIZE};
use std::cmp::Ordering;

/// The place of a name in the table, found by halving the names in their order.
pub(crate) fn place_of(name: &[u8]) -> Option<usize>
    ensures found { IfSome result (λ place. (place < NAME_COUNT) × (name_at place ≡ name.now)) }
    ensures missing { IfNone result
        ((place : ℕ) → place < NAME_COUNT → name_at place ≢ name.now) }
{
    let mut low = 0;
    let mut high = NAME_COUNT;
    while low < high {
        let middle = low + (high - low) / 2;
        let place = place_of_rank(middle);
        match name_at(place).cmp(name) {
            Ordering::Less => {
                low = middle + 1;
                continue;
            }
            Ordering::Equal => return Some(place),
            Ordering::Greater => {
                high = middle;
                continue;
            }
        }
    }
    None
}

// The place of the name of this rank.
#[tactic(auto, using(crate::proofs::Places::order_is_within), unfolding(crate::specs::Index::place_of_rank))]
fn place_of_rank(rank: usize) -> usize
    requires { rank < NAME_COUNT }
    ensures value { result ≡ place_of_rank rank }
    ensures within { result < NAME_COUNT }
{
    usize::from(order_at(rank))
}

/// The name at a place.
#[tactic(auto, using(crate::proofs::Places::name_is_within), unfolding(crate::specs::Index::name_at))]
pub(crate) fn name_at(place: usize) -> &'static [u8]
    requires { place < NAME_COUNT }
    ensures { result.now ≡ name_at place }
{
    let start = usize::from(start_at(place));
    let end = start + usize::from(length_at(place));
    part_of_names(start, end)
}

// Each table is read by a function of its own, so that its numbers stand in no other proof.

fn order_at(rank: usize) -> u16
    requires { rank < NAME_COUNT }
    ensures { result ≡ slice_index ORDER rank }
{
    ORDER[rank]
}

fn start_at(place: usize) -> u16
    requires { place < NAME_COUNT }
    ensures { result ≡ slice_index STARTS place }
{
    STARTS[place]
}

fn length_at(place: usize) -> u8
    requires { place < NAME_COUNT }
    ensures { result ≡ slice_index LENGTHS place }
{
    LENGTHS[place]
}

fn part_of_names(start: usize, end: usize) -> &'static [u8]
    requires order { start ≤ end }
    requires within { end ≤ NAMES_SIZE }
    ensures { result.now ≡ slice_range NAMES start end }
{
    &NAMES[start..end]
}
