use crate::board::Place;
use crate::kept::Kept;

/// The pass of a caller: a token without bytes, for what the caller knows of the history.
#[derive(Drop)]
pub struct Pass<K: Kept> {
    pub(crate) place: Place<K>,
}
