use crate::calls::opened;
use crate::line::Line;
use crate::spelling::{add_bytes, add_repeated};
use std::alloc::Global;
use vt_base::NoMemory;
use vt_world::World;

/// Room that no text of out fills.
const OUT_ROOM: usize = 10_000_000;

/// Room that no line of err fills.
const ERR_ROOM: usize = 1_000;

/// The values of a case's lines so far.
#[derive(Drop)]
pub(crate) struct Case {
    pub words: Vec<String>,
    pub input: Vec<u8>,
    /// For each read of the source, whether it fails; the same for writes to out and to err.
    pub reads: Vec<u8>,
    pub writes: Vec<u8>,
    pub says: Vec<u8>,
    /// The first and the last room of out that a run is tried with.
    pub rooms: (usize, usize),
    pub err_room: usize,
    pub world: Option<World>,
}

impl Case {
    /// A case without words and input, in which nothing fails.
    pub(crate) fn new(alloc: Global) -> Case {
        Case {
            words: Vec::new(alloc),
            input: Vec::new(alloc),
            reads: Vec::new(alloc),
            writes: Vec::new(alloc),
            says: Vec::new(alloc),
            rooms: (OUT_ROOM, OUT_ROOM),
            err_room: ERR_ROOM,
            world: None,
        }
    }

    /// Takes a line that runs nothing.
    pub(crate) fn take(&mut self, alloc: Global, line: Line<'_>) -> Result<(), NoMemory> {
        match line {
            Line::Case => *self = Case::new(alloc),
            Line::Words(words) => self.words = words_of(alloc, words)?,
            Line::Input(text) => add_line(text, &mut self.input)?,
            Line::Spelled(text) => add_bytes(text, &mut self.input)?,
            Line::Repeated(times, text) => add_repeated(alloc, times, text, &mut self.input)?,
            Line::Reads(calls) => self.reads = flags_of(alloc, calls)?,
            Line::Writes(calls) => self.writes = flags_of(alloc, calls)?,
            Line::Says(calls) => self.says = flags_of(alloc, calls)?,
            Line::Rooms(first, last) => self.rooms = (first, last),
            Line::ErrRoom(room) => self.err_room = room,
            Line::World => self.world = opened(alloc, self.input.as_slice())?,
            _ => {}
        }
        Ok(())
    }
}

fn words_of(alloc: Global, line: &str) -> Result<Vec<String>, NoMemory> {
    let mut words = Vec::new(alloc);
    for word in line.split(' ') {
        words.push(String::from_str(alloc, word)?)?;
    }
    Ok(words)
}

fn add_line(text: &str, input: &mut Vec<u8>) -> Result<(), NoMemory> {
    input.extend_from_slice(text.as_bytes())?;
    input.push(b'\n')?;
    Ok(())
}

// A flag for each call, set if it fails, which is spelled `x`.
fn flags_of(alloc: Global, calls: &str) -> Result<Vec<u8>, NoMemory> {
    let mut flags = Vec::new(alloc);
    for call in calls.bytes() {
        flags.push(u8::from(call == b'x'))?;
    }
    Ok(flags)
}
