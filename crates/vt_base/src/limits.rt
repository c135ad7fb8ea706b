//! The number of things of each kind, and the longest piece of bytes. Contracts use the same numbers from
//! `specs/Limits.antt`.

/// The number of consoles. Their numbers begin with 1.
pub const CONSOLES: usize = 63;

/// The number of signals. Their numbers begin with 1.
pub const SIGNALS: usize = 64;

/// The number of processes. Their numbers as callers begin with 1.
pub const PROCESSES: usize = 64;

/// The number of keyboards, which are numbered from 0: keyboard 0 is caller 0, and every other
/// keyboard k is caller 64 + k.
pub const KEYBOARDS: usize = 4;

/// The number of callers: keyboards and processes.
pub const CALLERS: usize = 68;

/// The number of descriptors of a process. Their numbers begin with 0.
pub const DESCRIPTORS: usize = 16;

/// The most bytes of a write, of a read, and of an input queue.
pub const PIECE_BYTES: usize = 4_096;
