//! The law of the codes.
ghost use Rattle.std.specs.Prelude.{◌≡◌};
ghost use Rattle.c_calls.specs.Codes as number;
ghost use Rattle.c_calls.specs.declared.code.TheConstants as code;

/// The codes in the code equal those of the definitions.
pub fn codes_are_kept()
    ensures done { code.OK ≡ number.OK }
    ensures refusals { (code.MADE ≡ number.MADE)
        × (code.RANGE ≡ number.RANGE)
        × (code.NO_MEMORY ≡ number.NO_MEMORY)
        × (code.NOTHING ≡ number.NOTHING)
        × (code.NO_ROOM ≡ number.NO_ROOM)
        × (code.FAULT ≡ number.FAULT)
        × (code.NOT_DRAWABLE ≡ number.NOT_DRAWABLE)
        × (code.FULL ≡ number.FULL) }
{}
