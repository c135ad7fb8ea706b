//! A law of turns.
ghost use Rattle.cooked.specs.Reading.{TurnsRead};

/// The bytes that turns from the start pushed are the bytes of their reads.
pub fn turns_read()
    ensures { TurnsRead }
{}
