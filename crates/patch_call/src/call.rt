use types::types::OpId;
use types::value::{Prop, Value};

// What is put or inserted: its content, its identity, its conflict flag.
#[derive(Clone, Copy)]
pub struct Entry<'a> {
    pub value: Value<'a>,
    pub id: OpId,
    pub conflict: bool,
}

// A call for some object.
#[derive(Clone, Copy)]
pub enum Call<'a> {
    Put(Prop<'a>, Entry<'a>),
    Insert(usize, Entry<'a>),
    // A position, and how many elements from there on.
    DeleteSeq(usize, usize),
    DeleteMap(&'a [u8]),
    Increment(Prop<'a>, i64, OpId),
    FlagConflict(Prop<'a>),
    // A position, and the text that goes in there.
    SpliceText(usize, &'a [u8]),
}
