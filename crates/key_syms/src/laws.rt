//! The laws of the symbol table, and of the numbers in the code.
ghost use Rattle.std.specs.Prelude.{◌≡◌};
ghost use Rattle.key_syms.specs.Kinds as number;
ghost use Rattle.key_syms.specs.Laws.{CodePointsAreTheirOwn, NamesAreTheirOwn};
ghost use Rattle.key_syms.specs.Packed.{ActsArePacked, NamesArePacked};
ghost use Rattle.key_syms.specs.declared.kind.TheConstants as kind;

/// Looking up an action's name gives that action, and looking up a code point its character.
pub fn names_are_their_own()
    ensures names { NamesAreTheirOwn }
    ensures code_points { CodePointsAreTheirOwn }
{}

/// The tables in the code have the names and the actions of the symbol table, in its order.
pub fn tables_are_packed()
    ensures names { NamesArePacked }
    ensures acts { ActsArePacked }
{}

/// The kinds in the code equal those of the definitions.
pub fn numbers_are_kept()
    ensures { (kind.HOLE ≡ number.HOLE)
        × (kind.CHARACTER ≡ number.CHARACTER)
        × (kind.LETTER ≡ number.LETTER)
        × (kind.META ≡ number.META)
        × (kind.FUNCTION ≡ number.FUNCTION)
        × (kind.PAD ≡ number.PAD)
        × (kind.CURSOR ≡ number.CURSOR)
        × (kind.DEAD ≡ number.DEAD)
        × (kind.MODIFIER ≡ number.MODIFIER)
        × (kind.LOCK ≡ number.LOCK)
        × (kind.STICKY ≡ number.STICKY)
        × (kind.CONSOLE ≡ number.CONSOLE)
        × (kind.SPECIAL ≡ number.SPECIAL)
        × (kind.ASCII ≡ number.ASCII) }
{}
