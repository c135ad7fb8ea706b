ghost use Rattle.std.specs.Prelude.{◌≡◌, ◌<◌, vec_len, IfOk};

use crossbeam_utils::sync::{EventCount, Key};
use std::alloc::Global;
use std::marker::Model;
use vt_base::NoMemory;

/// How many bells the tickets of the lock have, and how many the numbers of its door.
pub(crate) const BELLS: usize = 128;

/// That [`Bells::ring`] was called for a number; it alone makes one. Contracts see the number. No clause states that a
/// sleeper wakes.
#[derive(Drop)]
pub struct Rung {
    number: u64,
}

impl Model for Rung {
    ghost use Rattle.std.specs.Prelude.{ℕ};

    ghost Value = { ℕ };

    ghost view = { λ r. r.number };
}

impl Rung {
    /// The number whose bell was rung.
    pub fn number(&self) -> u64
        ensures { result ≡ self.now }
    {
        self.number
    }
}

/// `N` bells: a caller that waits for a number sleeps at the number's bell. Numbers that are `N` apart share a bell.
#[derive(Drop)]
pub struct Bells<const N: usize> {
    each: Vec<EventCount>,
    ghost all: { vec_len each ≡ N },
    ghost some: { 0 < N },
}

impl<const N: usize> Bells<N> {
    /// Bells at which nobody waits.
    pub fn hang(alloc: Global) -> Result<Bells<N>, NoMemory>
        requires { 0 < N }
    {
        let mut each = Vec::with_capacity(alloc, N)?;
        for _bell in 0..N {
            each.push(EventCount::new())?;
        }
        Ok(Bells { each })
    }

    /// Announces a wait at the bell of this number: the wait of the key ends at the next ring. No clause states this.
    pub fn announced(&self, number: u64) -> Key<'_> {
        self.bell(number).prepare_wait()
    }

    /// Ends every wait at the bell of this number.
    pub fn ring(&self, number: u64) -> Rung
        ensures { result ≡ number }
    {
        self.bell(number).notify_all();
        Rung { number }
    }

    fn bell(&self, number: u64) -> &EventCount {
        &self.each[(number % N as u64) as usize]
    }
}
