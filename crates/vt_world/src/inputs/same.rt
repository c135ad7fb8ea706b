//! Whether the inputs of two machines are the same, and the copy of one machine's into the other.
ghost use Rattle.std.specs.Prelude.{◌≡◌, IsTrue, length};

use crate::input::Input;
use crate::inputs::Inputs;
use key_machine::KbState;

impl Inputs {
    /// Whether both are the same. Nothing is proved of the answer `false`.
    pub(crate) fn same(&self, other: &Inputs) -> bool
        ensures { IsTrue result → self.now ≡ other.now }
    {
        are_same_inputs(self.places.as_slice(), other.places.as_slice())
    }

    /// Becomes the other.
    pub(crate) fn copy_from(&mut self, other: &Inputs)
        ensures { self.new ≡ other.now }
    {
        copy_inputs(self.places.as_mut_slice(), other.places.as_slice());
    }
}

// Whether all inputs are the same.
fn are_same_inputs(inputs: &[Input], others: &[Input]) -> bool
    ensures { IsTrue result → inputs.now ≡ others.now }
{
    if inputs.len() != others.len() {
        return false;
    }
    for i in 0..inputs.len() {
        if !is_same_input(&inputs[i], &others[i]) {
            return false;
        }
    }
    true
}

// Whether both inputs are the same.
fn is_same_input(input: &Input, other: &Input) -> bool
    ensures { IsTrue result → input.now ≡ other.now }
{
    is_same_state(input.keys, other.keys) && input.queue.same(&other.queue)
}

// Whether both key states are the same.
fn is_same_state(keys: KbState, other: KbState) -> bool
    ensures { IsTrue result → keys ≡ other }
{
    keys == other
}

// All inputs become the others.
fn copy_inputs(inputs: &mut [Input], others: &[Input])
    requires { length inputs.old ≡ length others.now }
    ensures { inputs.new ≡ others.now }
{
    for i in 0..others.len() {
        copy_input(&mut inputs[i], &others[i]);
    }
}

// The input becomes the other.
fn copy_input(input: &mut Input, other: &Input)
    ensures { input.new ≡ other.now }
{
    if !input.queue.same(&other.queue) {
        input.queue.copy_from(&other.queue);
    }
    input.keys = other.keys;
}
