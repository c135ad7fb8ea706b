ghost use Rattle.std.specs.Prelude.{◌≡◌, ◌<◌, ◌+◌, ℕ, List, [], ◌∷◌, ◌++◌, true, length, IfOk};
ghost use Rattle.std.specs.List.{concat};
ghost use Rattle.cooked.specs.KeptText.{but_last, last_of};
ghost use Rattle.cooked.specs.Sizes.{EndsBy, with_put};
ghost use Rattle.vt_chars.specs.Characters.{is_part};

use std::alloc::Global;
use std::marker::Model;
use vt_base::{Bytes, NoMemory};
use vt_chars::{Decoded, decode};

/// The bytes of a full line with its end.
pub(crate) const LINE_BYTES: usize = 4_096;

/// The characters that erases left: their bytes, and the size of each. An erase takes the last size, and so
/// never cuts the bytes into characters again.
#[derive(Drop)]
pub(crate) struct KeptText {
    bytes: Bytes,
    sizes: Bytes,
}

impl Model for KeptText {
    ghost use Rattle.std.specs.Prelude.{ℕ, List};
    ghost use Rattle.cooked.specs.Sizes.{AreSizes, parts};

    ghost Value = { List (List ℕ) };

    ghost view = { λ k. parts k.sizes.bytes k.bytes.bytes };

    ghost invariant = { λ k. AreSizes k.sizes k.bytes };
}

impl KeptText {
    /// No characters, and room for a full line.
    pub(crate) fn new(alloc: Global) -> Result<KeptText, NoMemory>
        ensures { IfOk result (λ k. k ≡ []) }
    {
        let bytes = Bytes::with_room(alloc, LINE_BYTES)?;
        let sizes = Bytes::with_room(alloc, LINE_BYTES)?;
        Ok(KeptText { bytes, sizes })
    }

    /// The bytes in order.
    pub(crate) fn as_slice(&self) -> &[u8]
        ensures { result.now ≡ concat self.now }
    {
        self.bytes.as_slice()
    }

    /// The last character: no byte, if there is none.
    pub(crate) fn last(&self) -> &[u8]
        ensures { result.now ≡ last_of self.now }
    {
        let bytes = self.bytes.as_slice();
        let size = last_size(self.sizes.as_slice());
        &bytes[bytes.len() - usize::from(size)..]
    }

    /// Whether `b` goes on with the last character.
    pub(crate) fn joins(&self, b: u8) -> bool
        ensures { result ≡ is_part (last_of self.now ++ b ∷ []) }
    {
        match decode(self.last(), b) {
            Decoded::Character(_) => true,
            Decoded::Unfinished => true,
            Decoded::Malformed => false,
        }
    }

    /// Adds a byte: to the last character, or as one of its own.
    pub(crate) fn put(&mut self, joins: bool, b: u8)
        requires bytes { length (concat self.old) < 4096 }
        requires characters { length self.old < 4096 }
        requires few { joins ≡ true → length (last_of self.old) < 4 }
        ensures { self.new ≡ with_put joins self.old b }
    {
        self.bytes.push(b);
        if joins {
            let size = take_size(&mut self.sizes);
            self.sizes.push(size + 1);
        } else {
            self.sizes.push(1);
        }
    }

    /// Drops the last character, if there is one.
    pub(crate) fn drop_last(&mut self)
        ensures { self.new ≡ but_last self.old }
    {
        let size = take_size(&mut self.sizes);
        let len = self.bytes.as_slice().len();
        self.bytes.truncate(len - usize::from(size));
    }

    /// Drops all characters.
    pub(crate) fn clear(&mut self)
        ensures { self.new ≡ [] }
    {
        self.sizes.truncate(0);
        self.bytes.truncate(0);
    }

    /// Gives the bytes to `line`, in place of its old ones. Nothing is copied.
    pub(crate) fn give(&mut self, line: &mut Bytes)
        requires { length line.old.bytes + line.old.room ≡ 4096 }
        ensures kept { self.new ≡ [] }
        ensures line { line.new.bytes ≡ concat self.old }
        ensures room { length line.new.bytes + line.new.room ≡ 4096 }
    {
        line.truncate(0);
        self.sizes.truncate(0);
        std::mem::swap(&mut self.bytes, line);
    }
}

// The last size: 0, if there is none.
fn last_size(sizes: &[u8]) -> u8
    ensures { (before : List ℕ) × EndsBy sizes.now before result }
{
    match sizes.split_last() {
        Some((size, _)) => *size,
        None => 0,
    }
}

// Takes the last size away: 0, if there is none.
fn take_size(sizes: &mut Bytes) -> u8
    ensures size { EndsBy sizes.old.bytes sizes.new.bytes result }
    ensures room { length sizes.new.bytes + sizes.new.room ≡ length sizes.old.bytes + sizes.old.room }
{
    let Some((last, before)) = sizes.as_slice().split_last() else {
        return 0;
    };
    let size = *last;
    let count = before.len();
    sizes.truncate(count);
    size
}
