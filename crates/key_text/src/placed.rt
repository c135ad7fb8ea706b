ghost use Rattle.std.specs.Prelude.{◌≡◌};
ghost use Rattle.key_text.specs.Rows.{after, more, next_line};

/// A place in a text: a line and a column in bytes, both from 1. A number above the greatest u32 is
/// replaced by it.
#[derive(Clone, Copy)]
pub struct Place {
    pub line: u32,
    pub column: u32,
}

/// A byte of a text, with its place.
#[derive(Clone, Copy)]
pub struct Placed {
    pub byte: u8,
    pub line: u32,
    pub column: u32,
}

impl Place {
    /// The place of the byte after one here.
    pub(crate) fn after(self) -> Place
        ensures { result ≡ after self }
    {
        Place {
            line: self.line,
            column: more(self.column),
        }
    }

    /// The first place of the next line.
    pub(crate) fn next_line(self) -> Place
        ensures { result ≡ next_line self }
    {
        Place {
            line: more(self.line),
            column: 1,
        }
    }
}

fn more(n: u32) -> u32
    ensures { result ≡ more n }
{
    n.saturating_add(1)
}
