//! A user's table as bytes.
ghost use Rattle.std.specs.Prelude.{◌≡◌, ◌+◌, ◌≤◌, ◌++◌, length};
ghost use Rattle.call_bytes.specs.Words.{words_in, words_text};

use crate::numbers::number_at;
use vt_base::Bytes;

/// The code points of a user's table.
const WORDS: usize = 256;

/// Appends the code points of a user's table. They must fit the room.
pub fn add_words(words: &[u16; 256], out: &mut Bytes)
    requires { 512 ≤ out.old.room }
    ensures bytes { out.new.bytes ≡ out.old.bytes ++ words_text words.now }
    ensures room { out.new.room + 512 ≡ out.old.room }
    ensures whole { out.new.room + length out.new.bytes ≡ out.old.room + length out.old.bytes }
{
    for word in words {
        out.append(&word.to_le_bytes());
    }
}

/// The code points of these bytes, if they are 256.
pub fn read_words(b: &[u8]) -> Option<[u16; 256]>
    ensures { result ≡ words_in b.now }
{
    if b.len() != 2 * WORDS {
        return None;
    }
    let mut words = [0; WORDS];
    for k in 0..WORDS {
        words[k] = number_at(b, 2 * k);
    }
    Some(words)
}
