/// A command of the program, in the order of the line of usage.
#[derive(Clone, Copy)]
pub(crate) enum Command {
    /// The rows of a screen of this size after the input.
    Screen { rows: u8, cols: u8 },
    /// The listing of the tables of a keymap text.
    Keys,
    /// A line for each scan byte of the input's table, by the tables of its keymap.
    Typing,
    /// The journal of the calls of the input, and the machine after them.
    Play,
    /// The journal of the calls of the input, made by threads, and the machine after them.
    Race,
    /// The verdict on the journal after the session of the input.
    Check,
    /// Five numbers of a session of eight processes that is made from a seed, with `n` items each.
    Drill { n: u32, seed: u64 },
    /// The journal of version 1 that is the input, in version 2.
    Upgrade,
    /// The lines and signals that the input types, the bytes that are left, and the echo.
    Cook,
    /// The tables of a keymap text as a keymap text.
    DumpKeys,
    /// The notices of the journal after the session of the input, of these kinds, a bit for each, and
    /// of this console, or of all if it is 0.
    Review { kinds: u8, console: u8 },
    /// The reasons for the switches in the journal after the session of the input.
    Explain,
    /// Whether the text after the session and the journal of the input is the journal's certificate.
    Accept,
}
