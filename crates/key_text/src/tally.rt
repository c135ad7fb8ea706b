//! The count of the texts that are included, and the bound on their bytes.
ghost use Rattle.std.specs.Prelude.{◌≡◌, ◌<◌, IsFalse};
ghost use Rattle.key_text.specs.Tally.{MOST_INCLUDES, is_too_long, tally_after};

/// The texts included so far, and the bytes that further ones may have together. Without a bound they
/// may have any number.
#[derive(Clone, Copy)]
pub(crate) struct Tally {
    pub(crate) texts: u16,
    pub(crate) room: Option<usize>,
}

impl Tally {
    /// Whether a text of this length has more bytes than there is room for.
    pub(crate) fn is_too_long(self, len: usize) -> bool
        ensures { result ≡ is_too_long self.room len }
    {
        match self.room {
            Some(room) => len > room,
            None => false,
        }
    }

    /// The tally with one text more.
    pub(crate) fn after(self, len: usize) -> Tally
        requires few { self.texts < MOST_INCLUDES }
        requires short { IsFalse (is_too_long self.room len) }
        ensures { result ≡ tally_after self len }
    {
        let room = match self.room {
            Some(room) => Some(room - len),
            None => None,
        };
        Tally {
            texts: self.texts + 1,
            room,
        }
    }
}
