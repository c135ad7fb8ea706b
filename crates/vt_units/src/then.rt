use crate::Unit;

/// What a byte came to: a unit, a control inside a sequence, nothing yet, or a sequence that is dropped.
#[derive(Debug, Drop)]
pub enum Then {
    /// It ends a unit.
    Unit(Unit),
    /// It is a control character inside a sequence and acts at once. The sequence continues.
    Act(u8),
    /// It is part of a text that continues.
    More,
    /// It ends a sequence that is dropped.
    Dropped,
}
