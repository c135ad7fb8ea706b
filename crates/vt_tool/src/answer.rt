ghost use Rattle.std.specs.Prelude.{◌≡◌, IsTrue};
ghost use Rattle.vt_tool.specs.Outcome.{fine_text, no_text};
ghost use Rattle.vt_tool.specs.Status.{is_command_status};

use crate::status::Status;
use std::alloc::Global;
use std::marker::Model;
use table_fields::TableFault;
use vt_base::Bytes;

/// The result of a command for an input: the status, which is one that a command returns for its
/// input, and the text for standard output.
#[derive(Drop)]
pub(crate) struct Answer {
    status: Status,
    text: Bytes,
}

impl Model for Answer {
    ghost use Rattle.std.specs.Prelude.{IsTrue};
    ghost use Rattle.vt_tool.specs.Outcome.{Outcome};
    ghost use Rattle.vt_tool.specs.Status.{is_command_status};

    ghost Value = { Outcome };

    ghost view = { λ a. record { status = a.status; text = a.text.bytes } };

    ghost invariant = { λ a. IsTrue (is_command_status a.status) };
}

impl Answer {
    /// This status and this text.
    pub(crate) fn new(status: Status, text: Bytes) -> Answer
        requires { IsTrue (is_command_status status) }
        ensures { result ≡ record { status = status; text = text.bytes } }
    {
        Answer { status, text }
    }

    /// This text, with status 0.
    pub(crate) fn fine(text: Bytes) -> Answer
        ensures { result ≡ fine_text text.bytes }
    {
        Answer::new(Status::Fine, text)
    }

    /// The answer to an input that is refused at this place.
    pub(crate) fn refused(alloc: Global, code: u16, a: u32, b: u32) -> Answer
        ensures { result ≡ no_text (Status.Refused code a b) }
    {
        Answer::new(Status::Refused { code, a, b }, Bytes::new(alloc))
    }

    /// The answer to a journal that is illegal at this entry.
    pub(crate) fn illegal(alloc: Global, index: u32, why: u8) -> Answer
        ensures { result ≡ no_text (Status.Illegal index why) }
    {
        Answer::new(Status::Illegal { index, why }, Bytes::new(alloc))
    }

    /// The status, which is never one of words, streams or memory.
    pub(crate) fn status(&self) -> Status
        ensures value { result ≡ self.now.status }
        ensures own { IsTrue (is_command_status self.now.status) }
    {
        self.status
    }

    /// The text for standard output.
    pub(crate) fn text(&self) -> &[u8]
        ensures { result.now ≡ self.now.text }
    {
        self.text.as_slice()
    }
}

/// The answer to a table that is refused at this fault.
pub(crate) fn refused(alloc: Global, fault: TableFault) -> Answer
    ensures { result ≡ no_text (Status.Refused fault.kind fault.part fault.item) }
{
    Answer::refused(alloc, fault.kind, fault.part, fault.item)
}
