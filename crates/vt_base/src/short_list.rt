ghost use Rattle.std.specs.Prelude.{◌≡◌, ◌<◌, ◌≤◌, ◌+◌, [], ◌∷◌, ◌++◌, length};

use arrayvec::ArrayVec;
use std::marker::Model;

/// A list of at most `MOST` items, stored in the value itself: no call takes memory.
#[derive(Debug, Drop)]
pub struct ShortList<T, const MOST: usize> {
    items: ArrayVec<T, MOST>,
}

impl<T, const MOST: usize> Model for ShortList<T, MOST> {
    ghost use Rattle.std.specs.Prelude.{List};

    ghost Value = { List T };

    ghost view = { λ l. l.items.items };
}

impl<T: Default + Drop, const MOST: usize> ShortList<T, MOST> {
    /// An empty list.
    pub fn new() -> ShortList<T, MOST>
        ensures { result ≡ [] }
    {
        ShortList {
            items: ArrayVec::new(),
        }
    }

    /// Removes all items.
    pub fn clear(&mut self)
        ensures { self.new ≡ [] }
    {
        self.items.clear();
    }
}

impl<T: Drop, const MOST: usize> ShortList<T, MOST> {
    /// Adds an item at the end.
    pub fn push(&mut self, item: T)
        requires { length self.old < MOST }
        ensures { self.new ≡ self.old ++ item ∷ [] }
    {
        self.items.push(item);
    }

    /// The items in order.
    pub fn as_slice(&self) -> &[T]
        ensures list { result.now ≡ self.now }
        ensures bound { length result.now ≤ MOST }
        ensures few { length self.now ≤ MOST }
    {
        self.items.as_slice()
    }
}

impl<T: Copy, const MOST: usize> ShortList<T, MOST> {
    /// Adds items at the end.
    pub fn extend(&mut self, items: &[T])
        requires { length self.old + length items.now ≤ MOST }
        ensures { self.new ≡ self.old ++ items.now }
    {
        let kept = self.items.try_extend_from_slice(items);
        prove!(kept.is_ok());
        let _ = kept; // only the proof reads it
    }
}

impl<T: Copy + Default + Drop, const MOST: usize> ShortList<T, MOST> {
    /// A list of these items.
    pub fn of(items: &[T]) -> ShortList<T, MOST>
        requires { length items.now ≤ MOST }
        ensures { result ≡ items.now }
    {
        let mut all = ShortList::new();
        all.extend(items);
        all
    }
}

impl<T: Default + Drop, const MOST: usize> Default for ShortList<T, MOST> {
    ghost is_default = { λ x. x ≡ [] };

    fn default() -> ShortList<T, MOST> {
        ShortList::new()
    }
}
