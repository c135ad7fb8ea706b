use crate::Items;
use sig_hooks::HookTable;
use vt_base::Bytes;

/// A program of a caller: the calls that it makes, in order.
#[derive(Drop)]
pub enum Program {
    /// A keyboard's scan bytes, and then exit.
    Keys(Bytes),
    /// A process's items, each followed by taking the signals, and then exit.
    Script {
        items: Items,
        /// Its acts at the signals that it takes.
        hooks: HookTable,
    },
}
