use vt_base::Signal;

/// The owner that was asked last to let the display go, the entry that asked it, and the signal.
#[derive(Clone, Copy, Debug)]
pub(crate) struct LastAsk {
    pub(crate) entry: u32,
    pub(crate) signal: Signal,
}
