use sig_hooks::HookTable;
use vt_base::SigSet;

/// The acts of hooks, and the signals that have one.
#[derive(Drop)]
pub(crate) struct Hooked {
    pub acts: HookTable,
    pub signals: SigSet,
}
