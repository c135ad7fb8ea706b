/// `struct vt_start`: how a machine starts.
#[repr(C)]
#[derive(Clone, Copy, Debug, PartialEq, Eq)]
pub(crate) struct VtStart {
    /// The consoles that are allocated: bit n stands for console n.
    pub consoles: u64,
    /// The most bytes of the journal: the greatest sum of the charges of its entries.
    pub bytes: u64,
    /// The most entries of the journal.
    pub events: u32,
    pub rows: u16,
    pub cols: u16,
    /// The console in front.
    pub front: u8,
    /// How many keyboards there are.
    pub keyboards: u8,
    /// 0.
    pub spare: [u8; 22],
}
