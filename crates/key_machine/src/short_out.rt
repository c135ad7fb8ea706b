ghost use Rattle.std.specs.Prelude.{◌≡◌, ◌≤◌, length};
ghost use Rattle.key_machine.specs.Bytes.{out_of};
ghost use Rattle.key_machine.specs.ShortOuts.{out_with};

use crate::{KeyBytes, KeyOut};
use key_tables::KeyTables;
use vt_base::ShortList;

/// The bytes of a key other than those of a function key's string: at most two characters.
pub type FewBytes = ShortList<u8, 8>;

/// The result of a key event, with the string of a function key by its number: no string is copied.
#[derive(Drop)]
pub enum ShortOut {
    /// Input for the console in front.
    Bytes(FewBytes),
    /// The string of this function key, as input for the console in front.
    Function(u8),
    /// A switch to the console of this number.
    Switch(u8),
    /// A switch to the console that was in front before.
    Last,
    /// A switch to the next console that is allocated.
    Next,
    /// A switch to the previous console that is allocated.
    Prev,
    /// KeyboardSignal: a signal to the process that accepts it (ioctl_console(2), KDSIGACCEPT).
    Spawn,
    /// SAK: the secure attention key.
    Attention,
    /// No bytes and no request.
    Nothing,
}

impl ShortOut {
    /// The result with the string itself.
    pub fn whole(&self, t: &KeyTables) -> KeyOut
        ensures { result ≡ out_with t.now self.now }
    {
        match self {
            ShortOut::Bytes(bytes) => KeyOut::Bytes(KeyBytes::of(bytes.as_slice())),
            ShortOut::Function(i) => string_out(t.func(*i)),
            ShortOut::Switch(n) => KeyOut::Switch(*n),
            ShortOut::Last => KeyOut::Last,
            ShortOut::Next => KeyOut::Next,
            ShortOut::Prev => KeyOut::Prev,
            ShortOut::Spawn => KeyOut::Spawn,
            ShortOut::Attention => KeyOut::Attention,
            ShortOut::Nothing => KeyOut::Nothing,
        }
    }
}

// The string of a function key, if it isn't empty.
fn string_out(text: &[u8]) -> KeyOut
    requires { length text.now ≤ 255 }
    ensures { result ≡ out_of text.now }
{
    if text.is_empty() {
        return KeyOut::Nothing;
    }
    KeyOut::Bytes(KeyBytes::of(text))
}
