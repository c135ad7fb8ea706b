ghost use Rattle.std.specs.Prelude.{◌≡◌, ◌≤◌, length};
ghost use Rattle.vt_tool.specs.Streaming.{CountsFault, EndsByLength, EndsStreaming};

use crate::intake::SCREEN_LIMIT;
use crate::streamed::Streamed;
use vt_io::Source;
use vt_screen::{Emu, any_cut};

/// Draws the bytes of the source on the screen, piece by piece through `buf`. The side effects of the text are
/// dropped.
pub fn screen_stream<S: Source>(src: &mut S, emu: &mut Emu, buf: &mut [u8]) -> Streamed
    requires some { 1 ≤ length buf.old }
    requires few { length buf.old ≤ 4_096 }
    ensures ends { EndsStreaming (S.stream src.old) (S.stream src.new) emu.old emu.new result }
    ensures exact { EndsByLength (S.stream src.old) (S.stream src.new) result }
    ensures count { CountsFault S.steady (S.stream src.old).faults (S.stream src.new).faults result }
{
    any_cut();
    let mut left = SCREEN_LIMIT;
    'reads: loop {
        let Ok(count) = src.read(buf) else {
            return Streamed::Fault;
        };
        if count == 0 {
            return Streamed::End;
        }
        if count > left {
            emu.write(&buf[..left]);
            return Streamed::TooLong;
        }
        emu.write(&buf[..count]);
        left -= count;
    }
}
