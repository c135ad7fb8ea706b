use vt_base::ConsoleNo;

/// The numbers at the start of a session.
#[derive(Drop)]
pub(crate) struct SessionHeader {
    pub rows: u8,
    pub cols: u8,
    /// Bit n is console n.
    pub consoles: u64,
    pub front: ConsoleNo,
    pub events: u32,
    pub bytes: u64,
}
