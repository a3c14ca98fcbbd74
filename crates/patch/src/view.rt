// A patch with what is its own, over the memory that it lies in: the bytes
// are those of its path's keys, then of its key, then of its values.
use crate::rows::{PatchRow, StepRow, ValueRow};

#[derive(Drop)]
pub struct PatchView<'a, U> {
    pub row: PatchRow,
    pub steps: &'a [StepRow],
    pub values: &'a [ValueRow],
    pub units: &'a [U],
    pub bytes: &'a [u8],
}

// Where the next patch and what is its own begin.
#[derive(Clone, Copy)]
pub struct Cursor {
    pub row: usize,
    pub step: usize,
    pub value: usize,
    pub unit: usize,
    pub byte: usize,
}
