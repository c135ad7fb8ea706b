//! Answers with bytes.
ghost use Rattle.std.specs.Prelude.{◌≡◌, ◌≤◌, [], length};
ghost use Rattle.vt_events.specs.Charge.{text_of_reply};
ghost use Rattle.vt_events.specs.Kinds.{text};
ghost use Rattle.vt_events.specs.Plain.{plain_reply};
ghost use Rattle.vt_events.specs.declared.reply.Reply.TheVariants as reply;

use vt_base::Bytes;
use vt_events::Reply;

/// The room for an answer, with no bytes in it.
pub(crate) fn emptied(room: Bytes) -> Bytes
    ensures bytes { result.bytes ≡ [] }
    ensures room { room.room ≤ result.room }
{
    let mut room = room;
    room.truncate(0);
    room
}

/// The answer with these bytes, in the given room.
pub(crate) fn text_reply(b: &[u8], room: Bytes) -> Reply
    requires { length b.now ≤ room.room }
    ensures reply { plain_reply result ≡ reply.Text (text b.now) }
    ensures bytes { text_of_reply result ≡ b.now }
{
    let mut room = emptied(room);
    room.append(b);
    Reply::Text(room)
}
