use std::marker::Brand;

/// The machine of a hub and the limits of its journal, for proofs alone: a caller of `Hub::open`
/// states both.
pub trait Opening {
    ghost use Rattle.vt_world.specs.State.{WorldState};
    ghost use Rattle.vt_journal.specs.declared.limits.Limits.{Limits};

    ghost start: { WorldState };

    ghost limits: { Limits };
}

impl Opening for Brand {
    ghost use Rattle.std.specs.Prelude.{[]};
    ghost use Rattle.key_tables.specs.Tables.{tables_of};
    ghost use Rattle.vt_world.specs.Start.{start_world};

    ghost start = { start_world 1 1 2 1 1 [] (tables_of [] [] []) };

    ghost limits = { record { events = 0; bytes = 0 } };
}
