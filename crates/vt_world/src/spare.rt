ghost use Rattle.std.specs.Prelude.{◌≡◌, ◌≤◌, ◌↔◌, IfOk, OnErr, IsTrue, Some, None, is_some, length, option_map, if◌then◌else◌};
ghost use Rattle.vt_events.specs.Charge.{greatest_reply, text_of_reply};
ghost use Rattle.vt_events.specs.Plain.{plain_reply};
ghost use Rattle.vt_world.specs.Lent.{buffer_after};
ghost use Rattle.vt_world.specs.Spare.{Fits, HasGrid, IsFit, IsTaken, empty_with, extent, extent_of, is_extent, needed_grid, no_spare};

use std::alloc::Global;
use std::marker::Model;
use std::mem;
use vt_base::{Bytes, NoMemory, Size};
use vt_events::{Event, Reply, reply_bytes};
use vt_grid::Grid;
use vt_screen::BLANK;

/// The memory that a call may need. It is allocated before the call, so that the call allocates
/// none.
#[derive(Drop)]
pub struct Spare {
    pub(crate) grid: Option<Grid>,
    pub(crate) reply: Bytes,
    pub(crate) for_copy: Bytes,
    // It makes the empty buffer that takes the place of one that is used, and takes no memory.
    alloc: Global,
}

impl Model for Spare {
    ghost use Rattle.vt_world.specs.Spare.{SpareView};

    ghost Value = { SpareView };

    ghost view = { λ s. record { grid = s.grid; reply = s.reply; for_copy = s.for_copy } };
}

impl Spare {
    /// No grid and no room: enough for every call that allocates nothing and whose answer has no bytes.
    pub fn none(alloc: Global) -> Spare
        ensures { result ≡ no_spare }
    {
        Spare {
            grid: None,
            reply: Bytes::new(alloc),
            for_copy: Bytes::new(alloc),
            alloc,
        }
    }

    /// Keeps the grid for a later call, if there is one.
    pub fn keep_grid(self, kept: &mut Option<Grid>)
        ensures { kept.new ≡ (if is_some self.grid then self.grid else kept.old) }
    {
        if self.grid.is_some() {
            *kept = self.grid;
        }
    }

    /// A copy of the answer. If the answer has bytes, they go into the second buffer, which leaves the
    /// spare. This call takes no memory.
    pub fn copy(&mut self, reply: &Reply) -> Reply
        requires { length (text_of_reply reply.now) ≤ self.old.for_copy.room }
        ensures answer { plain_reply result ≡ plain_reply reply.now }
        ensures grid { self.new.grid ≡ self.old.grid }
        ensures reply { self.new.reply ≡ self.old.reply }
        ensures for_copy { self.new.for_copy ≡ buffer_after reply.now self.old.for_copy }
    {
        let empty = Bytes::new(self.alloc);
        let room = match reply {
            Reply::Text(_) => mem::replace(&mut self.for_copy, empty),
            _ => empty,
        };
        reply.copy_into(room)
    }

    // Takes the buffer for the answer.
    pub(crate) fn take_reply(&mut self) -> Bytes
        ensures reply { result ≡ self.old.reply }
        ensures taken { self.new.reply ≡ empty_with 0 }
        ensures grid { self.new.grid ≡ self.old.grid }
        ensures for_copy { self.new.for_copy ≡ self.old.for_copy }
    {
        mem::replace(&mut self.reply, Bytes::new(self.alloc))
    }
}

/// The memory that the call may need in a machine of this size.
pub fn spare_for(alloc: Global, e: &Event, size: Size) -> Result<Spare, NoMemory>
    ensures fits { IfOk result (λ spare. Fits size.rows size.cols e.now spare) }
    ensures grid { IfOk result (λ spare. is_some spare.grid
        ≡ is_some (needed_grid (extent size.rows size.cols) e.now)) }
    ensures buffers { IfOk result (λ spare. (spare.reply ≡ empty_with (greatest_reply e.now))
        × (spare.for_copy ≡ empty_with (greatest_reply e.now))) }
{
    spare_from(alloc, e, size, &mut None)
}

/// The same memory. A kept grid of the size that the call needs is taken for it.
pub fn spare_from(
    alloc: Global,
    e: &Event,
    size: Size,
    kept: &mut Option<Grid>,
) -> Result<Spare, NoMemory>
    ensures fits { IfOk result (λ spare. Fits size.rows size.cols e.now spare) }
    ensures grid { IfOk result (λ spare. is_some spare.grid
        ≡ is_some (needed_grid (extent size.rows size.cols) e.now)) }
    ensures buffers { IfOk result (λ spare. (spare.reply ≡ empty_with (greatest_reply e.now))
        × (spare.for_copy ≡ empty_with (greatest_reply e.now))) }
    ensures kept { IfOk result (λ spare. IsTaken (needed_grid (extent size.rows size.cols) e.now)
        kept.old spare.grid kept.new) }
    ensures err { OnErr result (kept.new ≡ kept.old) }
{
    let bytes = reply_bytes(e);
    let reply = Bytes::with_room(alloc, bytes)?;
    let for_copy = Bytes::with_room(alloc, bytes)?;
    let grid = grid_from(alloc, needed_grid(e, size), kept)?;
    Ok(Spare {
        grid,
        reply,
        for_copy,
        alloc,
    })
}

/// A grid of the size that is needed: the kept one if it has this size, otherwise a new one.
pub(crate) fn grid_from(
    alloc: Global,
    needed: Option<Size>,
    kept: &mut Option<Grid>,
) -> Result<Option<Grid>, NoMemory>
    ensures size { IfOk result (λ grid. HasGrid (option_map extent_of needed) grid) }
    ensures some { IfOk result (λ grid. is_some grid ≡ is_some needed) }
    ensures kept { IfOk result (λ grid. IsTaken (option_map extent_of needed) kept.old grid kept.new) }
    ensures err { OnErr result (kept.new ≡ kept.old) }
{
    if is_fit(needed, kept) {
        return Ok(kept.take());
    }
    grid_of(alloc, needed)
}

// Whether there is a grid of the size that is needed.
fn is_fit(needed: Option<Size>, grid: &Option<Grid>) -> bool
    ensures { IsTrue result ↔ IsFit (option_map extent_of needed) grid.now }
{
    match (needed, grid) {
        (Some(size), Some(grid)) => grid.size() == size,
        _ => false,
    }
}

fn grid_of(alloc: Global, needed: Option<Size>) -> Result<Option<Grid>, NoMemory>
    ensures size { IfOk result (λ grid. HasGrid (option_map extent_of needed) grid) }
    ensures some { IfOk result (λ grid. is_some grid ≡ is_some needed) }
{
    match needed {
        Some(size) => Ok(Some(Grid::blank(alloc, size, BLANK)?)),
        None => Ok(None),
    }
}

/// The size of the grid that the call may need.
pub(crate) fn needed_grid(e: &Event, size: Size) -> Option<Size>
    ensures { option_map extent_of result ≡ needed_grid (extent size.rows size.cols) e.now }
{
    match e {
        Event::OpenCon(n) | Event::Activate(_, n) if (1..=63).contains(n) => Some(size),
        Event::Resize(_, rows, cols) => size_from(*rows, *cols),
        _ => None,
    }
}

// The size with this many rows and columns, if a screen can have it.
fn size_from(rows: u16, cols: u16) -> Option<Size>
    ensures { option_map extent_of result
        ≡ (if is_extent rows cols then Some (extent rows cols) else None) }
{
    if !(1..=255).contains(&rows) || !(1..=255).contains(&cols) {
        return None;
    }
    Some(Size {
        rows: rows as u8,
        cols: cols as u8,
    })
}
