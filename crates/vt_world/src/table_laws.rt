//! The law of the key tables.
ghost use Rattle.vt_world.specs.TableLaws.{TablesStay};

/// Only `setent`, `setfunc` and `setdia` change the key tables.
pub fn tables_stay()
    ensures { TablesStay }
{}
