//! Whether two switches are the same, and the copy of one into the other.
ghost use Rattle.std.specs.Prelude.{◌≡◌, IsTrue, length};

use crate::{Console, Handling, Handshake, Switch, Words};

impl Switch {
    /// Whether both are the same. Nothing is proved of the answer `false`.
    pub fn same(&self, other: &Switch) -> bool
        ensures { IsTrue result → self.now ≡ other.now }
    {
        self.front == other.front
            && self.last == other.last
            && self.locked == other.locked
            && self.pending == other.pending
            && are_same_consoles(&self.consoles, &other.consoles)
    }

    /// Becomes the other switch.
    pub fn copy_from(&mut self, other: &Switch)
        ensures { self.new ≡ other.now }
    {
        self.front = other.front;
        self.last = other.last;
        self.locked = other.locked;
        self.pending = other.pending;
        self.consoles.copy_from_slice(&other.consoles);
    }
}

// Whether all consoles are the same.
fn are_same_consoles(consoles: &[Option<Console>], others: &[Option<Console>]) -> bool
    requires { length consoles.now ≡ length others.now }
    ensures { IsTrue result → consoles.now ≡ others.now }
{
    for i in 0..consoles.len() {
        if !is_same_place(&consoles[i], &others[i]) {
            return false;
        }
    }
    true
}

// Whether both places have the same console, or none.
fn is_same_place(console: &Option<Console>, other: &Option<Console>) -> bool
    ensures { IsTrue result → console.now ≡ other.now }
{
    match (console, other) {
        (Some(one), Some(two)) => is_same_console(one, two),
        (None, None) => true,
        _ => false,
    }
}

// Whether both consoles are the same.
fn is_same_console(console: &Console, other: &Console) -> bool
    ensures { IsTrue result → console.now ≡ other.now }
{
    console.graphics == other.graphics && is_same_handling(&console.handling, &other.handling)
}

// Whether both handle their switches in the same way.
fn is_same_handling(handling: &Handling, other: &Handling) -> bool
    ensures { IsTrue result → handling.now ≡ other.now }
{
    match (handling, other) {
        (Handling::Auto(one), Handling::Auto(two)) => are_same_words(one, two),
        (Handling::Process(one), Handling::Process(two)) => is_same_handshake(one, two),
        _ => false,
    }
}

// Whether both processes handle the switches in the same way.
fn is_same_handshake(handshake: &Handshake, other: &Handshake) -> bool
    ensures { IsTrue result → handshake.now ≡ other.now }
{
    handshake == other
}

// Whether all words are the same.
fn are_same_words(words: &Words, others: &Words) -> bool
    ensures { IsTrue result → words.now ≡ others.now }
{
    words == others
}
