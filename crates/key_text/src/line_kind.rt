use crate::syms::Syms;
use crate::table_set::TableSet;
use key_syms::{Action, Pair};
use vt_base::Bytes;

/// A line of a keymap (keymaps(5)).
#[derive(Drop)]
pub enum LineKind {
    /// `keymaps`: the tables that exist.
    Keymaps(TableSet),
    /// `keycode N =`: the actions of a code in the tables.
    Keys { code: u8, syms: Syms },
    /// `keycode N =` after modifier words: the action of a code in one table.
    One { table: u8, code: u8, action: Action },
    /// `string NAME =`: the string of a function key.
    Text { func: u8, text: Bytes },
    /// `compose A B to C`.
    Compose(Pair),
    /// `alt_is_meta`.
    AltIsMeta,
    /// `strings as usual`.
    UsualStrings,
    /// `compose as usual`.
    UsualPairs,
}
