//! Writes a text into room that C passes.
ghost use Rattle.std.specs.Prelude.{◌≡◌, take};
ghost use Rattle.c_calls.specs.Codes.{OK};
ghost use Rattle.c_calls.specs.Text.{Hands, HandsOver, HandsOverFreely, room_of};

use crate::code;

/// Writes the text's length, and the text too if there is room for it. Returns OK, or NO_ROOM.
pub fn hand_over(text: &[u8], room: &mut [u8], count: &mut usize) -> u8
    ensures free { HandsOverFreely text.now room.old room.new count.new result }
    ensures text { HandsOver text.now room.old room.new count.old count.new result }
    ensures room { Hands text.now result (room_of room.old count.old) (room_of room.new count.new) }
    ensures front { result ≡ OK → take count.new room.new ≡ text.now }
{
    *count = text.len();
    if room.len() < text.len() {
        return code::NO_ROOM;
    }
    room[..text.len()].copy_from_slice(text);
    code::OK
}
