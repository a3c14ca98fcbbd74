ghost use Rattle.std.specs.Prelude.{◌≡◌, true, length};
ghost use Rattle.document.specs.Views.{content_seen, entry_seen};
ghost use Rattle.tables.specs.Tables.{content_of, cell_lies, entry_lies};
ghost use Rattle.tables.specs.Told.{told, seen_of};

use crate::rows::TableRows;
use crate::table::{Cell, EntryRow, ObjectRow};
use crate::windows::shown;
use document::rows::Rows;
use document::view::{Entry, Head};
use types::types::ObjType;
use types::value::Value;

// What a cell holds, over the bytes.
fn value_in<'a>(bytes: &'a [u8], cell: Cell) -> Value<'a>
    requires { cell_lies (length bytes.now) cell ≡ true }
    ensures { content_seen result ≡ content_of bytes.now cell }
{
    cell.map(|w| shown(bytes, w))
}

// An entry row over the bytes; in a list its key is empty.
fn entry_over<'a>(bytes: &'a [u8], kind: ObjType, e: EntryRow) -> Entry<'a>
    requires { entry_lies (length bytes.now) e ≡ true }
    ensures { entry_seen result ≡ seen_of kind bytes.now e }
{
    let key = if kind.is_sequence() {
        &bytes[0..0]
    } else {
        shown(bytes, e.key)
    };
    Entry {
        key,
        value: value_in(bytes, e.cell),
        id: e.id,
        conflict: e.conflict,
    }
}

impl From<ObjectRow> for Head {
    ghost from_gives = { λ o h. h ≡ record { id = o.id; parent = o.parent; kind = o.kind } };

    fn from(object: ObjectRow) -> Head {
        Head {
            id: object.id,
            parent: object.parent,
            kind: object.kind,
        }
    }
}

#[tactic(auto, using(crate::proofs::Telling::told_here))]
impl Rows for TableRows<'_> {
    ghost shaped = { λ t. told t.objects.now t.entries.now t.bytes.now };

    fn count(&self) -> usize {
        self.objects.len()
    }

    fn head(&self, i: usize) -> Option<Head> {
        Some(Head::from(*self.objects.get(i)?))
    }

    fn size(&self, i: usize) -> usize {
        self.objects.get(i).map_or(0, |o| o.row.len)
    }

    fn entry(&self, i: usize, n: usize) -> Option<Entry<'_>> {
        let object = self.objects.get(i)?;
        match object.kind {
            ObjType::Text => None,
            kind => {
                let entry = shown(self.entries, object.row).get(n)?;
                Some(entry_over(self.bytes, kind, *entry))
            }
        }
    }

    fn text(&self, i: usize) -> Option<&[u8]> {
        let text = self.objects.get(i)?;
        match text.kind {
            ObjType::Text => Some(shown(self.bytes, text.row)),
            _ => None,
        }
    }
}
