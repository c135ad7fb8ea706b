ghost use Rattle.std.specs.Prelude.{◌≡◌, ℕ, ◌<◌, List, [], ◌∷◌, ◌++◌, Some, cond, length, vec_len, vec_capacity, OnOk, OnErr};
ghost use Rattle.std.specs.Option.{option_copied};
ghost use Rattle.std.specs.Str.{bytes_eq};
ghost use Rattle.key_text.specs.Included.{text_named, with_text};
ghost use Rattle.key_text.specs.Places.{at_name, text_in};

use crate::included::Included;
use std::alloc::Global;
use std::collections::BTreeMap;
use std::marker::Model;
use vt_base::NoMemory;

/// The texts that a keymap may include, by name.
#[derive(Drop)]
pub struct Includes {
    texts: Vec<Included>,
    places: BTreeMap<Vec<u8>, usize>,
}

impl Model for Includes {
    ghost use Rattle.std.specs.Prelude.{List};
    ghost use Rattle.key_text.specs.Included.{Named};
    ghost use Rattle.key_text.specs.Places.{HasPlaces};

    ghost Value = { List Named };

    ghost view = { λ i. i.texts.items };

    ghost invariant = { λ i. HasPlaces i.places i.texts.items };
}

impl Includes {
    /// An empty list of texts.
    pub fn none(alloc: Global) -> Includes
        ensures { result ≡ [] }
    {
        Includes {
            texts: Vec::new(alloc),
            places: BTreeMap::new(alloc),
        }
    }

    /// Adds a text. If the name is there already, the first text stays.
    pub fn add(&mut self, alloc: Global, name: &[u8], text: &[u8]) -> Result<(), NoMemory>
        ensures ok { OnOk result (self.new ≡ with_text name.now text.now self.old) }
        ensures err { OnErr result (self.new ≡ self.old) }
    {
        if self.text_named(name).is_some() {
            return Ok(());
        }
        let included = Included::new(alloc, name, text)?;
        let key = Vec::from_slice(alloc, name)?;
        self.texts.reserve(1)?;
        put_place(&mut self.places, key, self.texts.len())?;
        add_last(&mut self.texts, included);
        Ok(())
    }

    /// The text of a name.
    pub(crate) fn text_named(&self, name: &[u8]) -> Option<&[u8]>
        ensures { option_copied result ≡ text_named name.now self.entry.now }
    {
        match place_named(&self.places, name) {
            Some(place) => Some(text_at(self.texts.as_slice(), place)),
            None => None,
        }
    }
}

// The place of a name in a map, if it has one.
fn place_named(places: &BTreeMap<Vec<u8>, usize>, name: &[u8]) -> Option<usize>
    ensures { result ≡ at_name places.now name.now }
{
    places.get(name).copied()
}

// Sets the place of a name.
fn put_place(
    places: &mut BTreeMap<Vec<u8>, usize>,
    name: Vec<u8>,
    place: usize,
) -> Result<(), NoMemory>
    ensures ok { OnOk result ((other : List ℕ) → at_name places.new other
        ≡ cond (bytes_eq name.items other) (Some place) (at_name places.old other)) }
    ensures err { OnErr result ((other : List ℕ) → at_name places.new other
        ≡ at_name places.old other) }
{
    places.insert(name, place)?;
    Ok(())
}

// Adds a text for which there is room.
fn add_last(texts: &mut Vec<Included>, included: Included)
    requires { vec_len texts.old < vec_capacity texts.old }
    ensures { texts.new.items ≡ texts.old.items ++ included ∷ [] }
{
    let kept = texts.push(included);
    prove!(kept.is_ok());
    let _ = kept; // only the proof reads it
}

fn text_at<'a>(texts: &'a [Included], place: usize) -> &'a [u8]
    requires { place < length texts.now }
    ensures { result.now ≡ text_in texts.entry.now place }
{
    texts[place].text()
}
