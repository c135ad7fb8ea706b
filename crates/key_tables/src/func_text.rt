use vt_base::ShortList;

/// The string of a function key, in room of its own.
pub(crate) type FuncText = ShortList<u8, 255>;
