use crate::fault::KeyFault;
use crate::fit_kind::FitKind;
use crate::placed::Place;

/// The statement of a row.
#[derive(Drop)]
pub(crate) enum Statement {
    /// The row has no word, or no effect.
    Nothing,
    /// The row is a line.
    Means(FitKind),
    /// The row includes a text: its name, the place of the quoted name, and the fault of the words after the
    /// name.
    Includes(Vec<u8>, Place, Option<KeyFault>),
}
