/// A journal that had no room for a call.
#[derive(Clone, Copy, Debug, PartialEq, Eq)]
pub struct Full {
    /// The number of entries.
    pub events: u32,
    /// The sum of their charges, in bytes.
    pub bytes: u64,
    /// The charge that the call would have had, in bytes.
    pub charge: u32,
}
