/// The mark that the history has stopped. The value under the lock may have one.
#[derive(Drop)]
pub struct Seal<Z> {
    /// The number of the caller that stopped it.
    pub by: u32,
    pub what: Z,
}
