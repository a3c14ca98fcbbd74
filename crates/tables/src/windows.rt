ghost use Rattle.std.specs.Prelude.{◌≡◌, ◌+◌, ◌≤◌, true, length};
ghost use Rattle.document.specs.Laws.{every};
ghost use Rattle.tables.specs.Tables.{part, lies, room_of, object_lies, cell_lies, entry_lies};

use crate::table::{Cell, EntryRow, ObjectRow, Window};
use types::types::ObjType;
use types::value::ScalarOf;

// Whether a window lies inside a slice of that length.
fn lies_in(w: Window, len: usize) -> bool
    ensures { result ≡ lies w len }
{
    w.from <= len && w.len <= len - w.from
}

fn object_lies(o: ObjectRow, entries: usize, bytes: usize) -> bool
    ensures { result ≡ object_lies entries bytes o }
{
    match o.kind {
        ObjType::Text => lies_in(o.row, bytes),
        _ => lies_in(o.row, entries),
    }
}

fn cell_lies(cell: Cell, bytes: usize) -> bool
    ensures { result ≡ cell_lies bytes cell }
{
    match cell {
        Cell::Scalar(ScalarOf::Str(w) | ScalarOf::Bytes(w)) => lies_in(w, bytes),
        _ => true,
    }
}

fn entry_lies(e: EntryRow, bytes: usize) -> bool
    ensures { result ≡ entry_lies bytes e }
{
    lies_in(e.key, bytes) && cell_lies(e.cell, bytes)
}

// Whether every row of the objects lies in tables of those lengths.
pub fn objects_lie(objects: &[ObjectRow], entries: usize, bytes: usize) -> bool
    ensures { result ≡ every (object_lies entries bytes) objects.now }
{
    objects.iter().all(|o| object_lies(*o, entries, bytes))
}

// Whether every key, string and byte string lies in that many bytes.
pub fn entries_lie(entries: &[EntryRow], bytes: usize) -> bool
    ensures { result ≡ every (entry_lies bytes) entries.now }
{
    entries.iter().all(|e| entry_lies(*e, bytes))
}

// The part that a window shows.
pub fn shown<T>(items: &[T], w: Window) -> &[T]
    requires { lies w (length items.now) ≡ true }
    ensures { result.now ≡ part w items.now }
{
    &items[w.from..w.from + w.len]
}
