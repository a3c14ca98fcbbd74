ghost use Rattle.std.specs.Prelude.{◌≡◌, true, false};
ghost use Rattle.types.specs.declared.error.Refusal.TheVariants.{UnlawfulRows};
ghost use Rattle.tables.specs.Tables.{inside};

use crate::table::{EntryRow, ObjectRow};
use crate::windows::{entries_lie, objects_lie};
use types::error::Refusal;

// Tables whose windows lie inside, before anything is known of the laws. The
// slices are the caller's, as a table of a file has them.
#[derive(Clone, Copy)]
pub struct TableRows<'a> {
    pub objects: &'a [ObjectRow],
    pub entries: &'a [EntryRow],
    pub bytes: &'a [u8],
    ghost within: { inside objects.now entries.now bytes.now ≡ true },
}

impl<'a> TableRows<'a> {
    // Refuses tables with a window that lies outside.
    pub fn new(
        objects: &'a [ObjectRow],
        entries: &'a [EntryRow],
        bytes: &'a [u8],
    ) -> Result<TableRows<'a>, Refusal>
        ensures { elim result [ Ok t ↦ (t.objects.now ≡ objects.now) × (t.entries.now ≡ entries.now) × (t.bytes.now ≡ bytes.now) | Err e ↦ (e ≡ UnlawfulRows) × (inside objects.now entries.now bytes.now ≡ false) ] }
    {
        if objects_lie(objects, entries.len(), bytes.len()) && entries_lie(entries, bytes.len()) {
            Ok(TableRows {
                objects,
                entries,
                bytes,
            })
        } else {
            Err(Refusal::UnlawfulRows)
        }
    }
}
