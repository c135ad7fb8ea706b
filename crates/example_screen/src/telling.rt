//! Side effects of a text, and rows of the screen, as lines.
ghost use Rattle.std.specs.Prelude.{◌<◌};

use std::alloc::Global;
use vt_base::{Bytes, NoMemory};
use vt_dump::text_row;
use vt_grid::Grid;
use vt_screen::{Listener, Out};

/// The lines so far. A listener can't answer that memory ran out, so that is kept until the end.
#[derive(Drop)]
pub(crate) struct Teller {
    alloc: Global,
    lines: Bytes,
    is_short: bool,
}

impl Teller {
    /// No lines yet.
    pub(crate) fn new(alloc: Global) -> Teller {
        Teller {
            alloc,
            lines: Bytes::new(alloc),
            is_short: false,
        }
    }

    /// Adds a row after its number.
    pub(crate) fn add_row(&mut self, grid: &Grid, y: u8) -> Result<(), NoMemory>
        requires { y < grid.now.rows }
    {
        let row = text_row(self.alloc, grid, y)?;
        add_number(self.alloc, &mut self.lines, b"row ", y)?;
        self.lines.add(self.alloc, b" ")?;
        self.lines.add(self.alloc, row.as_slice())
    }

    /// The lines, if memory was found for all of them.
    pub(crate) fn finish(self) -> Result<Bytes, NoMemory> {
        if self.is_short {
            return Err(NoMemory);
        }
        Ok(self.lines)
    }
}

impl Listener for Teller {
    ghost hears = { λ old out new. Unit {0} };

    /// Adds a line.
    fn hear(&mut self, out: Out) {
        if add_said(self.alloc, &mut self.lines, &out).is_err() {
            self.is_short = true;
        }
    }
}

fn add_said(alloc: Global, lines: &mut Bytes, out: &Out) -> Result<(), NoMemory> {
    match out {
        // The bytes begin with ESC, which is left out here.
        Out::Report(text) => {
            lines.add(alloc, b"report ESC")?;
            lines.add(alloc, text.as_slice().get(1..).unwrap_or(b""))?;
        }
        Out::SwitchTo(n) => add_number(alloc, lines, b"console ", *n)?,
        Out::SwitchLast => lines.add(alloc, b"console before")?,
        Out::Lights(lights) => add_number(alloc, lines, b"lights ", *lights)?,
        Out::Bell => lines.add(alloc, b"bell")?,
    }
    lines.add(alloc, b"\n")
}

fn add_number(alloc: Global, lines: &mut Bytes, words: &[u8], n: u8) -> Result<(), NoMemory> {
    lines.add(alloc, words)?;
    lines.add_decimal(alloc, u64::from(n))
}
