/// The state of the pass of a number.
#[derive(Clone, Copy)]
pub enum PassPlace {
    /// No pass of this number was made.
    Unmade,
    /// It was made, and is not joined yet.
    Out,
    /// It was joined.
    Home,
}
