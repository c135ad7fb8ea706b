use crate::form::Form;

/// What the program's words ask for.
#[derive(Clone, Copy)]
pub(crate) struct Task {
    /// Whether a journal's calls may be those of any programs, and not only those of the session.
    pub is_free: bool,
    /// How the history is printed.
    pub form: Form,
}
