ghost use Rattle.std.specs.Prelude.{◌≡◌, false, slice_index_or};
ghost use Rattle.key_text.specs.Tables.{IsTableSet};

use std::marker::Model;

/// A set of at least one table from 0 to 255.
#[derive(Drop)]
pub struct TableSet {
    tables: Vec<bool>,
}

impl Model for TableSet {
    ghost use Rattle.std.specs.Prelude.{List, Bool};
    ghost use Rattle.key_text.specs.Tables.{IsTableSet};

    ghost Value = { List Bool };

    ghost view = { λ s. s.tables.items };

    ghost invariant = { λ s. IsTableSet s.tables.items };
}

impl TableSet {
    /// The set of the tables at whose indices the list has `true`.
    pub(crate) fn of(tables: Vec<bool>) -> TableSet
        requires { IsTableSet tables.items }
        ensures { result ≡ tables.items }
    {
        TableSet { tables }
    }

    /// Whether a table is in the set.
    pub fn has(&self, t: u8) -> bool
        ensures value { result ≡ slice_index_or self.now t false }
        ensures set { IsTableSet self.now }
    {
        self.tables[usize::from(t)]
    }
}
