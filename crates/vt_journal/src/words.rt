ghost use Rattle.std.specs.Bool.{OnFalse, OnTrue};
ghost use Rattle.std.specs.Prelude.{◌≡◌, ◌≢◌, ◌==◌, ℕ, List, [], ◌∷◌, MatchOption, position};
ghost use Rattle.vt_journal.specs.Cut.{words_of_text};
ghost use Rattle.vt_journal.specs.Readers.{if_none_left};

use std::marker::Model;

/// The words of a text that are still to be read. The text is cut at each blank.
#[derive(Drop)]
pub struct Words<'a> {
    rest: Option<&'a [u8]>,
}

impl<'a> Model for Words<'a> {
    ghost use Rattle.std.specs.Prelude.{ℕ, List};
    ghost use Rattle.vt_journal.specs.Cut.{cut_of};

    ghost Value = { List (List ℕ) };

    ghost view = { λ words. cut_of words.rest };
}

impl<'a> Words<'a> {
    /// All words of the text.
    pub fn of(text: &'a [u8]) -> Words<'a>
        ensures { result ≡ words_of_text text.now }
    {
        Words { rest: Some(text) }
    }

    /// Takes the next word, if there is one.
    pub fn next(&mut self) -> Option<&'a [u8]>
        ensures { MatchOption result ((self.old ≡ []) × (self.new ≡ []))
            (λ word. self.old ≡ word.now ∷ self.new) }
    {
        let rest = self.rest?;
        match first_blank(rest) {
            Some(i) => {
                self.rest = Some(&rest[i + 1..]);
                Some(&rest[..i])
            }
            None => {
                self.rest = None;
                Some(rest)
            }
        }
    }

    /// The value that was taken from the words, if no word is left.
    pub fn if_none_left<T: Drop>(&self, taken: Option<T>) -> Option<T>
        ensures { result ≡ if_none_left self.now taken }
    {
        match self.rest {
            Some(_rest) => None,
            None => taken,
        }
    }
}

/// Takes the next word. Returns whether it is this one.
pub fn take_word(words: &mut Words, word: &[u8]) -> bool
    ensures found { OnTrue result (words.old ≡ word.now ∷ words.new) }
    ensures none { OnFalse result ((rest : List (List ℕ)) → words.old ≢ word.now ∷ rest) }
{
    match words.next() {
        Some(next) => next == word,
        None => false,
    }
}

// The index of the first blank.
fn first_blank(text: &[u8]) -> Option<usize>
    ensures { result ≡ position (λ b. b == 0x20) text.now }
{
    text.iter().position(|&b| b == b' ')
}
