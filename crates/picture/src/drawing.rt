use crate::ending::Ending;
use std::alloc::Global;
use vt_base::{Bytes, PIECE_BYTES, Size};
use vt_grid::Grid;
use vt_io::Source;
use vt_picture::picture;
use vt_screen::{BLANK, Emu};

/// The picture of the screen after the source's bytes.
pub(crate) fn drawn<S: Source>(alloc: Global, source: &mut S, size: Size) -> Result<Bytes, Ending> {
    let mut emu = Emu::new(Grid::blank(alloc, size, BLANK)?);
    let mut piece = [0; PIECE_BYTES];
    for _ in 0..u64::MAX {
        let count = source.read(&mut piece)?;
        if count == 0 {
            break;
        }
        emu.write(&piece[..count]);
    }
    Ok(picture(alloc, &emu)?)
}
