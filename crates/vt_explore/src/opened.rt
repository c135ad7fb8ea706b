/// How the calls of all callers after an order were tried.
#[derive(Clone, Copy)]
pub(crate) enum Opened {
    /// Each leads to a machine that is known.
    All,
    /// An order would have too many turns.
    Long,
    /// There is one order more than the limit allows.
    Many,
}
