use crate::process::Process;
use crate::session_header::SessionHeader;
use crate::session_keyboard::SessionKeyboard;
use vt_base::Bytes;

/// The parts of a session.
#[derive(Drop)]
pub(crate) struct SessionParts {
    pub opening: SessionHeader,
    pub keyboard: SessionKeyboard,
    pub turns: Bytes,
    pub processes: Vec<Process>,
    /// The scan bytes of the further keyboards.
    pub further: Vec<Bytes>,
}
