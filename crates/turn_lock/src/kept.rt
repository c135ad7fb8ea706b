ghost use Rattle.std.specs.Prelude.{◌≡◌, ℕ, ◌<◌, ◌≤◌, ◌^◌, List, Option, length};

/// The trait of a value under the lock: its history, a list of entries, its seal, and a fact of every history.
pub trait Kept {
    ghost use Rattle.turn_lock.specs.declared.entry.Entry.{Entry};
    ghost use Rattle.turn_lock.specs.declared.seal.Seal.{Seal};
    ghost use Rattle.turn_lock.specs.History.{word_of};

    /// The content of an entry beyond the fields that the lock knows.
    type What;

    /// The content of a seal beyond the caller's number.
    type Stop;

    // The display before the first entry.
    ghost before: { ℕ };

    // A fact of every history that a value shows.
    ghost right: { List (Entry Self.What) → Type 0 };

    ghost entries: { Self → List (Entry Self.What) };

    ghost seal: { Self → Option (Seal Self.Stop) };

    /// The word of the history: 64 times the number of entries, plus the display after the last one, or
    /// the display at the start if there is none.
    fn front(&self) -> u64
        requires { length (entries self.now) ≤ 2 ^ 57 }
        ensures word { result ≡ word_of before (entries self.now) }
        ensures right { right (entries self.now) };

    ghost display: { (0 < before) × (before < 64) };
}
