use crate::KeyBytes;

/// The result of a key event.
#[derive(Debug, Drop)]
pub enum KeyOut {
    /// Input for the console in front.
    Bytes(KeyBytes),
    /// A switch to the console of this number.
    Switch(u8),
    /// A switch to the console that was in front before.
    Last,
    /// A switch to the next console that is allocated.
    Next,
    /// A switch to the previous console that is allocated.
    Prev,
    /// KeyboardSignal: a signal to the process that accepts it (ioctl_console(2), KDSIGACCEPT).
    Spawn,
    /// SAK: the secure attention key.
    Attention,
    /// No bytes and no request.
    Nothing,
}
