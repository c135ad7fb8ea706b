//! Descriptors: they are opened, closed, written to and read from.
ghost use Rattle.std.specs.Prelude.{◌≡◌, ◌≤◌, [], length, min};
ghost use Rattle.vt_events.specs.declared.event.Event.TheVariants as event;
ghost use Rattle.vt_world.specs.Lent.{answer_of, grid_after};
ghost use Rattle.vt_world.specs.Spare.{HasGrid, extent, needed_grid};
ghost use Rattle.vt_world.specs.Step.{HasRowResult, own_row_result, text_of_answer};

use crate::World;
use crate::rows::answers::emptied;
use crate::rows::refusals::check_sense;
use vt_base::{Bytes, CallerNo, Errno, PIECE_BYTES};
use vt_events::Reply;
use vt_grid::Grid;

impl World {
    /// Opens console `n`, or the one in front if `n` is 0, at the lowest free descriptor.
    pub(crate) fn open(
        &mut self,
        p: CallerNo,
        n: u16,
        grid: &mut Option<Grid>,
    ) -> Result<Reply, Errno>
        requires { HasGrid (needed_grid (extent self.old.rows self.old.cols) (event.OpenCon n)) grid.old }
        ensures effect { HasRowResult (own_row_result self.old p (event.OpenCon n)) self.new result }
        ensures grid { grid.new ≡ grid_after self.old p (event.OpenCon n) (answer_of result) grid.old }
    {
        let c = self.named(n).ok_or(Errno::Nxio)?;
        let fd = self.procs.add_open(p, c).ok_or(Errno::Busy)?;
        self.allocate(c, grid);
        Ok(Reply::Num(u32::from(fd.get())))
    }

    /// Closes the descriptor (close(2)).
    pub(crate) fn close(&mut self, p: CallerNo, fd: u16) -> Result<Reply, Errno>
        ensures { HasRowResult (own_row_result self.old p (event.CloseFd fd)) self.new result }
    {
        let number = self.procs.number(p, fd).ok_or(Errno::Badf)?;
        self.procs.shut(p, number);
        Ok(Reply::Done)
    }

    /// Writes the bytes on the screen of the descriptor's console.
    pub(crate) fn write(&mut self, p: CallerNo, fd: u16, b: &Bytes) -> Result<Reply, Errno>
        requires { self.old.trace.marks ≡ [] }
        ensures { HasRowResult (own_row_result self.old p (event.Write fd b.now)) self.new result }
    {
        let text = b.as_slice();
        let c = self.opened(p, fd)?;
        check_sense(text.len() <= PIECE_BYTES)?;
        self.run(c, text);
        Ok(Reply::Num(text.len() as u32))
    }

    /// Reads the first bytes of the input of the descriptor's console (read(2)).
    pub(crate) fn read_in(
        &mut self,
        p: CallerNo,
        fd: u16,
        most: u16,
        reply: Bytes,
    ) -> Result<Reply, Errno>
        requires { min most 4096 ≤ reply.room }
        ensures effect { HasRowResult (own_row_result self.old p (event.ReadIn fd most)) self.new result }
        ensures bytes { length (text_of_answer result) ≤ min most 4096 }
    {
        let c = self.opened(p, fd)?;
        check_sense(1 <= most && usize::from(most) <= PIECE_BYTES)?;
        if self.inputs.queue(c).is_empty() {
            return Err(Errno::Again);
        }
        let mut reply = emptied(reply);
        self.inputs.take(c, &mut reply, usize::from(most));
        Ok(Reply::Text(reply))
    }
}
