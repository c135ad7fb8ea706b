/// How the call of a caller after an order was tried.
#[derive(Clone, Copy)]
pub(crate) enum Tried {
    /// It leads to a machine that is known, or there is none.
    Known,
    /// The order would have too many turns.
    Full,
}
