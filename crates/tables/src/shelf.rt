use crate::rows::TableRows;
use crate::table::{EntryRow, ObjectRow};
use document::checked::Checked;
use types::error::Refusal;

// A document read from rows that the caller holds.
pub type ShelfTables<'a> = Checked<TableRows<'a>>;

// How shelf tables begin and are filled. A trait, since checked rows are a
// type of another crate.
pub trait OpenTables<'a> {
    // The document that has the root alone, an empty map.
    fn bare_root() -> Self;

    // Opens the tables, if every window lies inside and the document that
    // they tell keeps the laws; else it stays as it was.
    fn open(
        &mut self,
        objects: &'a [ObjectRow],
        entries: &'a [EntryRow],
        bytes: &'a [u8],
    ) -> Result<(), Refusal>;
}

mod opening;
