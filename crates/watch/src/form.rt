/// How a history is printed.
#[derive(Clone, Copy, Debug)]
pub(crate) enum Form {
    /// Lines for a person.
    Lines,
    /// Objects of JSON for tools.
    Json,
}
