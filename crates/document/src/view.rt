use types::types::{ObjId, ObjType, OpId};
use types::value::Value;

// What a document tells of an object: its identity, its parent and its kind.
#[derive(Clone, Copy)]
pub struct Head {
    pub id: ObjId,
    pub parent: ObjId,
    pub kind: ObjType,
}

// An entry of a row, over the document's own bytes. In a list the key is
// empty.
#[derive(Clone, Copy)]
pub struct Entry<'a> {
    pub key: &'a [u8],
    pub value: Value<'a>,
    pub id: OpId,
    pub conflict: bool,
}
