use crate::Items;
use sig_hooks::HookTable;
use vt_procs::ProcStart;

/// A process of a session: its start and its program.
#[derive(Drop)]
pub(crate) struct Process {
    pub start: ProcStart,
    pub items: Items,
    pub hooks: HookTable,
}
