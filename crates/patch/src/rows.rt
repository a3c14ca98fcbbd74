// What lies in the memory of patches: plain rows that say how much of the
// content behind them is their own.
use types::types::{ObjId, OpId};
use types::value::{PropOf, ScalarOf, ValueOf};

// Where in an object: a key of so many bytes, or a position.
pub type PropRow = PropOf<usize>;

// A step of a path, with the object that it leaves.
#[derive(Clone, Copy)]
pub struct StepRow {
    pub leaves: ObjId,
    pub prop: PropRow,
}

// A scalar; a string or byte string has so many bytes.
pub type ScalarRow = ScalarOf<usize>;

pub type ContentRow = ValueOf<usize>;

// What a patch places. `wide` says that it is not one unit wide in a text.
#[derive(Clone, Copy)]
pub struct ValueRow {
    pub content: ContentRow,
    pub id: OpId,
    pub conflict: bool,
    pub wide: bool,
}

#[derive(Clone, Copy)]
pub enum ActionRow {
    // The bytes of the key.
    PutMap(usize, ValueRow),
    PutSeq(usize, ValueRow),
    // A position, how many values, and how many of them are wide.
    Insert(usize, usize, usize),
    // A position, and how many units.
    SpliceText(usize, usize),
    Increment(PropRow, i64),
    Conflict(PropRow),
    DeleteMap(usize),
    // A position, and how many elements.
    DeleteSeq(usize, usize),
}

// A patch: its object, how many steps and bytes are its own, and what it does.
#[derive(Clone, Copy)]
pub struct PatchRow {
    pub obj: ObjId,
    pub steps: usize,
    pub bytes: usize,
    pub action: ActionRow,
}

// A path from the root, with the bytes of its keys in a row.
#[derive(Clone, Copy)]
pub struct Path<'a> {
    pub steps: &'a [StepRow],
    pub keys: &'a [u8],
}
