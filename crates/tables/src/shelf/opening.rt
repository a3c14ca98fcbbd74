ghost use Rattle.std.specs.Prelude.{◌≡◌, if◌then◌else◌, Ok, Err};
ghost use Rattle.types.specs.declared.error.Refusal.TheVariants.{UnlawfulRows};
ghost use Rattle.tables.specs.Shelf.{doc_told};
ghost use Rattle.tables.specs.Tables.{doc_of};
ghost use Rattle.tables.specs.Told.{opens, bare_root};

use crate::rows::TableRows;
use crate::shelf::{OpenTables, ShelfTables};
use crate::table::{EntryRow, ObjectRow, Window};
use document::checked::Checked;
use types::error::Refusal;
use types::types::{ObjId, ObjType, OpId};

const ROOT: ObjId = ObjId(OpId {
    counter: 0,
    actor: 0,
});

const BARE: [ObjectRow; 1] = [ObjectRow {
    id: ROOT,
    parent: ROOT,
    kind: ObjType::Map,
    row: Window { from: 0, len: 0 },
}];

impl<'a> OpenTables<'a> for ShelfTables<'a> {
    fn bare_root() -> ShelfTables<'a>
        ensures { doc_told result.rows ≡ bare_root }
    {
        Checked::new(TableRows {
            objects: &BARE,
            entries: &[],
            bytes: b"",
        })
    }

    fn open(
        &mut self,
        objects: &'a [ObjectRow],
        entries: &'a [EntryRow],
        bytes: &'a [u8],
    ) -> Result<(), Refusal>
        ensures answer { result ≡ (if opens objects.now entries.now bytes.now then Ok tt else Err UnlawfulRows) }
        ensures told { doc_told self.new.rows ≡ (if opens objects.now entries.now bytes.now then doc_of objects.now entries.now bytes.now else doc_told self.old.rows) }
    {
        let rows = TableRows::new(objects, entries, bytes)?;
        *self = Checked::check(rows)?;
        Ok(())
    }
}
