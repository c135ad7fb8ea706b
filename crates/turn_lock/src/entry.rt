/// An entry of the lock's history: its caller, its place among that caller's entries, and the display after it. The
/// lock knows all of it except `what`. No value of this type is made.
pub struct Entry<W> {
    /// The number of the caller that published it.
    pub by: u32,
    /// The number of this caller's entries before it.
    pub seq: u32,
    /// The display after it, from 1 to 63.
    pub display: u64,
    pub what: W,
}
