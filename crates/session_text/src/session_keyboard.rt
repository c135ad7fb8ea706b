use key_tables::KeyTables;
use vt_base::Bytes;

/// The first keyboard of a session: the tables of its keymap, and its scan bytes.
#[derive(Drop)]
pub(crate) struct SessionKeyboard {
    pub tables: KeyTables,
    pub keys: Bytes,
}
