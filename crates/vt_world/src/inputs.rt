ghost use Rattle.std.specs.Prelude.{◌≡◌, ◌≤◌, ◌++◌, IfOk, length, min, replicate, take};
ghost use Rattle.vt_world.specs.Inputs.{comes, with_new_input, input_at, with_key_state, lit, new_input, with_queued, with_bytes, without_bytes};

mod same;

use crate::input::Input;
use in_queue::InQueue;
use key_machine::KbState;
use std::alloc::Global;
use std::marker::Model;
use vt_base::{Bytes, CONSOLES, ConsoleNo, NoMemory};

/// The number of places for consoles, by their numbers. Place 0 stays unused.
pub(crate) const CONSOLE_PLACES: usize = CONSOLES + 1;

/// The input of each console, by its number.
#[derive(Drop)]
pub(crate) struct Inputs {
    places: Vec<Input>,
}

impl Model for Inputs {
    ghost use Rattle.std.specs.Prelude.{◌≡◌, List, vec_len};
    ghost use Rattle.vt_world.specs.declared.input.Input.{Input};

    ghost Value = { List Input };

    ghost view = { λ i. i.places.items };

    ghost invariant = { λ i. vec_len i.places ≡ 64 };
}

impl Inputs {
    /// New input for each console.
    pub(crate) fn start(alloc: Global) -> Result<Inputs, NoMemory>
        ensures { IfOk result (λ inputs. inputs ≡ replicate 64 new_input) }
    {
        let mut places = Vec::with_capacity(alloc, CONSOLE_PLACES)?;
        for _n in 0..CONSOLE_PLACES {
            places.push(Input {
                queue: InQueue::new(alloc)?,
                keys: KbState::start(),
            })?;
        }
        Ok(Inputs { places })
    }

    /// The queue of the console.
    pub(crate) fn queue(&self, c: ConsoleNo) -> &InQueue
        ensures { result.now ≡ (input_at self.now c).queue }
    {
        &self.places[usize::from(c.get())].queue
    }

    /// The key state of the console.
    pub(crate) fn keys(&self, c: ConsoleNo) -> KbState
        ensures { result ≡ (input_at self.now c).keys }
    {
        self.places[usize::from(c.get())].keys
    }

    /// Puts the bytes into the console's queue, all or none. Returns whether some entered.
    pub(crate) fn put(&mut self, c: ConsoleNo, piece: &[u8]) -> bool
        ensures queues { self.new ≡ with_queued c piece.now self.old }
        ensures some { result ≡ comes (input_at self.old c).queue piece.now }
    {
        let input = &mut self.places[usize::from(c.get())];
        put_whole(&mut input.queue, piece)
    }

    /// Takes the first `max` bytes of the console's queue, or all if there are fewer, and appends them to
    /// `out`.
    pub(crate) fn take(&mut self, c: ConsoleNo, out: &mut Bytes, max: usize)
        requires { max ≤ out.old.room }
        ensures queues { let count = min max (length (input_at self.old c).queue.bytes) in
            self.new ≡ without_bytes c count self.old }
        ensures taken { let bytes = (input_at self.old c).queue.bytes in
            out.new.bytes ≡ out.old.bytes ++ take (min max (length bytes)) bytes }
    {
        let input = &mut self.places[usize::from(c.get())];
        let _count = input.queue.take(out, max);
    }

    /// Makes the console's input that of a new console.
    pub(crate) fn clear(&mut self, c: ConsoleNo)
        ensures { self.new ≡ with_new_input c self.old }
    {
        let input = &mut self.places[usize::from(c.get())];
        input.queue.clear();
        input.keys = KbState::start();
    }

    /// Gives the console this key state.
    pub(crate) fn set_keys(&mut self, c: ConsoleNo, keys: KbState)
        ensures { self.new ≡ with_key_state c keys self.old }
    {
        let input = &mut self.places[usize::from(c.get())];
        input.keys = keys;
    }

    /// Sets the console's lights.
    pub(crate) fn light(&mut self, c: ConsoleNo, lights: u8)
        ensures { self.new ≡ lit c lights self.old }
    {
        let mut keys = self.keys(c);
        keys.lights = Some(lights);
        self.set_keys(c, keys);
    }
}

// Puts the bytes into the queue, all or none. Returns whether some entered.
fn put_whole(queue: &mut InQueue, piece: &[u8]) -> bool
    ensures queue { queue.new ≡ with_bytes queue.old piece.now }
    ensures some { result ≡ comes queue.old piece.now }
{
    let whole = queue.put(piece);
    whole && !piece.is_empty()
}
