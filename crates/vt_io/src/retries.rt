/// How often a call over a real stream tries again after an interruption. This project's own.
pub(crate) const RETRIES: u16 = 1_000;
