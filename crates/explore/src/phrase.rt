use std::alloc::Global;
use vt_base::{Bytes, NoMemory};

/// The words of a question.
#[derive(Drop)]
pub(crate) struct Phrase {
    words: Vec<Bytes>,
}

impl Phrase {
    /// The words between the blanks of a text. Blanks between two quotes part no words.
    pub(crate) fn of(alloc: Global, text: &[u8]) -> Result<Phrase, NoMemory> {
        let mut words = Vec::new(alloc);
        let mut word = Bytes::new(alloc);
        let mut quoted = false;
        for b in text {
            if *b == b' ' && !quoted {
                if !word.as_slice().is_empty() {
                    words.push(word)?;
                    word = Bytes::new(alloc);
                }
            } else {
                quoted = quoted != (*b == b'"');
                vt_journal::add(alloc, &mut word, &[*b])?;
            }
        }
        if !word.as_slice().is_empty() {
            words.push(word)?;
        }
        Ok(Phrase { words })
    }

    /// The number of words.
    pub(crate) fn len(&self) -> usize {
        self.words.len()
    }

    /// The word at a place, from 0; no bytes behind the last one.
    pub(crate) fn at(&self, place: usize) -> &[u8] {
        match self.words.get(place) {
            Some(word) => word.as_slice(),
            None => &[],
        }
    }

    /// Whether the words at this place are this one.
    pub(crate) fn has(&self, place: usize, word: &[u8]) -> bool {
        self.at(place) == word
    }

    /// Whether a condition ends before this place: there is no word, or it is `and`.
    pub(crate) fn ends(&self, place: usize) -> bool {
        self.at(place).is_empty() || self.has(place, b"and")
    }
}
