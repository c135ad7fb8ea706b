ghost use Rattle.std.specs.List.{list_any};
ghost use Rattle.std.specs.Prelude.{◌≡◌, ◌<◌, IfSome, is_some, length, slice_index_or, slice_set, Some, None, if◌then◌else◌};
ghost use Rattle.vt_procs.specs.Callers.{has_open, is_console, lowest_free, with_open};

mod same;

use std::marker::Model;
use vt_base::{ConsoleNo, DESCRIPTORS, Fd};

/// The console of each descriptor of a caller.
#[derive(Clone, Copy, Debug)]
pub struct Opens {
    places: [Option<ConsoleNo>; DESCRIPTORS],
}

impl Model for Opens {
    ghost use Rattle.std.specs.Prelude.{ℕ, List, Option};

    ghost Value = { List (Option ℕ) };

    ghost view = { λ o. o.places };

    ghost inverse = { λ l. record { places = l } };
}

/// No descriptor is open.
pub(crate) const NO_OPENS: Opens = Opens {
    places: [None; DESCRIPTORS],
};

impl Opens {
    /// The console of the descriptor, if that is open.
    pub fn at(&self, fd: u16) -> Option<ConsoleNo>
        ensures { result ≡ slice_index_or self.now fd None }
    {
        let places = self.places.as_slice();
        let fd = usize::from(fd);
        if fd < places.len() { places[fd] } else { None }
    }

    /// The descriptor of this number, if it is open.
    pub fn number(&self, fd: u16) -> Option<Fd>
        ensures { result ≡ (if is_some (slice_index_or self.now fd None) then Some fd else None) }
    {
        number_in(&self.places, fd)
    }

    /// Closes the descriptor.
    pub fn shut(&mut self, fd: Fd)
        ensures { self.new ≡ slice_set self.old fd None }
    {
        self.places[usize::from(fd.get())] = None;
    }

    /// Whether a descriptor is open on the console.
    pub fn has(&self, c: ConsoleNo) -> bool
        ensures { result ≡ has_open self.now c }
    {
        self.places.iter().any(|place| is_console(c, place))
    }

    /// Whether any descriptor is open.
    pub fn any(&self) -> bool
        ensures { result ≡ list_any is_some self.now }
    {
        self.places.iter().any(|place| place.is_some())
    }

    /// Opens the console at the lowest free descriptor, if there is one.
    pub fn add(&mut self, c: ConsoleNo) -> Option<Fd>
        ensures answer { result ≡ lowest_free self.old }
        ensures state { self.new ≡ with_open self.old c (lowest_free self.old) }
    {
        let free = lowest_free(&self.places)?;
        self.places[free] = Some(c);
        Fd::new(free as u16)
    }
}

// The descriptor of the number, if it is open in these places.
fn number_in(places: &[Option<ConsoleNo>], fd: u16) -> Option<Fd>
    requires { length places.now ≡ 16 }
    ensures { result ≡ (if is_some (slice_index_or places.now fd None) then Some fd else None) }
{
    let at = usize::from(fd);
    if at < places.len() && places[at].is_some() {
        Fd::new(fd)
    } else {
        None
    }
}

fn lowest_free(places: &[Option<ConsoleNo>]) -> Option<usize>
    ensures place { result ≡ lowest_free places.now }
    ensures bound { IfSome result (λ n. n < length places.now) }
{
    places.iter().position(|c| !c.is_some())
}

fn is_console(c: ConsoleNo, place: &Option<ConsoleNo>) -> bool
    ensures { result ≡ is_console c place.now }
{
    match place {
        Some(n) => *n == c,
        None => false,
    }
}
