use types::types::{ObjId, ObjType, OpId};
use types::value::ValueOf;

// Where a part of a slice lies: its first place, and how many places it has.
#[derive(Clone, Copy)]
pub struct Window {
    pub from: usize,
    pub len: usize,
}

// An object. Its row is a window of the entry rows, or of the bytes where it
// is a text.
#[derive(Clone, Copy)]
pub struct ObjectRow {
    pub id: ObjId,
    pub parent: ObjId,
    pub kind: ObjType,
    pub row: Window,
}

// What an entry holds; strings and bytes are windows of the bytes.
pub type Cell = ValueOf<Window>;

// An entry. Its key is a window of the bytes, which a list does not look at.
#[derive(Clone, Copy)]
pub struct EntryRow {
    pub key: Window,
    pub cell: Cell,
    pub id: OpId,
    pub conflict: bool,
}
