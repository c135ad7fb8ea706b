ghost use Rattle.std.specs.Prelude.{◌≡◌, IfOk};
ghost use Rattle.std.specs.Str.{bytes_eq};
ghost use Rattle.key_text.specs.Included.{make_named};

use std::alloc::{AllocError, Global};
use std::marker::Model;

/// A text and its name.
#[derive(Drop)]
pub(crate) struct Included {
    name: Vec<u8>,
    text: Vec<u8>,
}

impl Model for Included {
    ghost use Rattle.key_text.specs.Included.{Named, make_named};

    ghost Value = { Named };

    ghost view = { λ i. make_named i.name.items i.text.items };
}

impl Included {
    pub(crate) fn new(alloc: Global, name: &[u8], text: &[u8]) -> Result<Included, AllocError>
        ensures { IfOk result (λ i. i ≡ make_named name.now text.now) }
    {
        Ok(Included {
            name: Vec::from_slice(alloc, name)?,
            text: Vec::from_slice(alloc, text)?,
        })
    }

    pub(crate) fn has_name(&self, name: &[u8]) -> bool
        ensures { result ≡ bytes_eq self.now.name name.now }
    {
        self.name.as_slice() == name
    }

    pub(crate) fn text(&self) -> &[u8]
        ensures { result.now ≡ self.now.text }
    {
        self.text.as_slice()
    }
}
