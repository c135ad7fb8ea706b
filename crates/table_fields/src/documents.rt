//! `document`: a text as a TOML document.
ghost use Rattle.toml.specs.View.{table_view};
ghost use Rattle.table_fields.specs.Checked.{Gives};
ghost use Rattle.table_fields.specs.Fields.{document_of};

use crate::fault::{TableError, refused};
use crate::fault_code::NO_DOCUMENT;
use std::alloc::Global;
use toml::Table;

/// The table of a TOML document. Fault 20 at 0:0 if the text is none.
pub fn document(alloc: Global, text: &[u8]) -> Result<Table, TableError>
    ensures { Gives table_view result (document_of text.now) }
{
    match toml::table_from_slice(alloc, text) {
        Ok(table) => Ok(table),
        Err(e) => {
            if e.is_memory() {
                return Err(TableError::NoMemory);
            }
            Err(refused(NO_DOCUMENT, 0, 0))
        }
    }
}
