ghost use Rattle.std.specs.Prelude.{◌≡◌, ◌⊎◌, ◌+◌, ◌-◌, ◌<◌, ◌≤◌, ◌++◌, length, drop, take, slice_index, IfOk};
ghost use Rattle.vt_grid.specs.Ring.{IsRising};
ghost use Rattle.vt_grid.specs.Store.{part_turned, rotation_by};

use super::Steps;
use std::alloc::Global;
use std::marker::Model;
use std::sync::ledger::Ledger;
use vt_base::NoMemory;

/// Numbers in a ring: the first of them is at `head`.
#[derive(Drop)]
pub(crate) struct Ring {
    head: u8,
    numbers: Vec<u8>,
}

impl Model for Ring {
    ghost use Rattle.std.specs.Prelude.{ℕ, ◌<◌, ◌≤◌, List, length};
    ghost use Rattle.vt_grid.specs.Store.{rotation_by};

    ghost Value = { List ℕ };

    ghost view = { λ r. rotation_by r.head r.numbers.items };

    ghost invariant = { λ r. (r.head < length r.numbers.items) × (length r.numbers.items ≤ 255) };
}

impl Ring {
    /// The numbers from 0 on, `count` of them.
    pub(crate) fn rising(alloc: Global, count: u8) -> Result<Ring, NoMemory>
        requires { 1 ≤ count }
        ensures { IfOk result (λ ring. IsRising count ring) }
    {
        let mut numbers = Vec::with_capacity(alloc, usize::from(count))?;
        for number in 0..count {
            numbers.push(number)?;
        }
        Ok(Ring { head: 0, numbers })
    }

    pub(crate) fn at(&self, y: u8) -> u8
        requires { y < length self.now }
        ensures { result ≡ slice_index self.now y }
    {
        let place = place_of(self.head, y, self.numbers.len());
        self.numbers[place]
    }

    /// The `count` numbers from the one at `from` on, in two pieces.
    pub(crate) fn pieces(&self, from: u8, count: u8) -> (&[u8], &[u8])
        requires { from + count ≤ length self.now }
        ensures { result.0.now ++ result.1.now ≡ take count (drop from self.now) }
    {
        let start = place_of(self.head, from, self.numbers.len());
        let count = usize::from(count);
        let room = self.numbers.len() - start;
        if count <= room {
            (&self.numbers[start..start + count], &self.numbers[..0])
        } else {
            (&self.numbers[start..], &self.numbers[..count - room])
        }
    }

    /// Moves all numbers up by `n` around the end.
    pub(crate) fn turn(&mut self, n: u8)
        requires { n ≤ length self.old }
        ensures { self.new ≡ rotation_by n self.old }
    {
        self.head = place_of(self.head, n, self.numbers.len()) as u8;
    }

    /// Moves the numbers `top` to `bottom` up by `n` around their end, with a step for each.
    #[inline(never)]
    pub(crate) fn rotate<L: Ledger>(&mut self, top: u8, bottom: u8, n: u8, steps: &mut Steps<L>)
        requires order { top ≤ bottom }
        requires last { bottom < length self.old }
        requires some { n ≤ bottom + 1 - top }
        ensures numbers { self.new ≡ part_turned top bottom n self.old }
        ensures steps { steps.new ≡ steps.old + (bottom + 1 - top) }
    {
        let height = usize::from(bottom - top) + 1;
        let mut part = [0; 255];
        read_turned(&self.numbers, self.head, top, n, &mut part[..height]);
        write_part(&mut self.numbers, self.head, top, &part[..height], steps);
    }
}

// The place of the number that is y places after the head, in a ring of len places.
fn place_of(head: u8, y: u8, len: usize) -> usize
    requires head { head < len }
    requires within { y ≤ len }
    ensures within { result < len }
    ensures place { (result ≡ head + y) ⊎ (result + len ≡ head + y) }
{
    let place = usize::from(head) + usize::from(y);
    if place < len { place } else { place - len }
}

fn read_part(numbers: &[u8], head: u8, top: u8, part: &mut [u8])
    requires head { head < length numbers.now }
    requires within { top + length part.old ≤ length numbers.now }
    requires short { length numbers.now ≤ 255 }
    ensures { part.new ≡ take (length part.old) (drop top (rotation_by head numbers.now)) }
{
    for i in 0..part.len() {
        part[i] = numbers[place_of(head, top + i as u8, numbers.len())];
    }
}

// Reads numbers from the one at `top` on: those from `n` on, and then the first `n`.
fn read_turned(numbers: &[u8], head: u8, top: u8, n: u8, part: &mut [u8])
    requires head { head < length numbers.now }
    requires within { top + length part.old ≤ length numbers.now }
    requires short { length numbers.now ≤ 255 }
    requires some { n ≤ length part.old }
    ensures { part.new ≡ rotation_by n (take (length part.old) (drop top (rotation_by head numbers.now))) }
{
    let left = part.len() - usize::from(n);
    let (front, back) = part.split_at_mut(left);
    read_part(numbers, head, top + n, front);
    read_part(numbers, head, top, back);
}

fn write_part<L: Ledger>(numbers: &mut [u8], head: u8, top: u8, part: &[u8], steps: &mut Steps<L>)
    requires head { head < length numbers.old }
    requires within { top + length part.now ≤ length numbers.old }
    requires short { length numbers.old ≤ 255 }
    ensures numbers { rotation_by head numbers.new
        ≡ take top (rotation_by head numbers.old)
        ++ (part.now ++ drop (top + length part.now) (rotation_by head numbers.old)) }
    ensures steps { steps.new ≡ steps.old + length part.now }
{
    for i in 0..part.len() {
        let place = place_of(head, top + i as u8, numbers.len());
        numbers[place] = part[i];
        steps.add(1);
    }
}
