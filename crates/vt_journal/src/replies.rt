//! Answers read from their words.
ghost use Rattle.std.specs.Prelude.{⊤, [], ◌∷◌, IfOk, IfSome};
ghost use Rattle.vt_journal.specs.Replies.{IsFitReply, reply_name};
ghost use Rattle.vt_journal.specs.Readers.{Takes};
ghost use Rattle.vt_journal.specs.Words.{reply_words};

use crate::numbers::take_numbers;
use crate::reading::read_bytes;
use crate::reply_kind::ReplyKind;
use crate::words::Words;
use std::alloc::Global;
use vt_base::NoMemory;
use vt_events::Reply;

/// The answer that the next words spell.
pub(crate) fn take_reply(alloc: Global, words: &mut Words) -> Result<Option<Reply>, NoMemory>
    ensures takes { IfOk result (Takes reply_words IsFitReply words.old words.new) }
    ensures fit { IfOk result (λ found. IfSome found IsFitReply) }
{
    let Some(kind) = take_kind(words) else {
        return Ok(None);
    };
    let Some(numbers) = take_numbers(words, kind.mosts()) else {
        return Ok(None);
    };
    let Some(bytes) = read_bytes(alloc, words, kind.holds_bytes())? else {
        return Ok(None);
    };
    Ok(kind.answer(numbers.as_slice(), bytes))
}

// The next word as the name of a kind.
fn take_kind(words: &mut Words) -> Option<ReplyKind>
    ensures { Takes (λ kind. reply_name kind ∷ []) (λ _. ⊤) words.old words.new result }
{
    let name = words.next()?;
    ReplyKind::named(name)
}
