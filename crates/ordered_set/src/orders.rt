// The orders of identities and of keys.
ghost use Rattle.std.specs.Prelude.{◌≡◌};
ghost use Rattle.ordered_set.specs.Orders.{by_bytes, by_id, by_object, total};
ghost use Rattle.ordered_set.specs.Keys.{key_of, by_key};

use crate::order::TotalOrder;
use packed_rows::rows::row_of;
use std::cmp::Ordering;
use std::marker::PhantomData;
use types::types::{ObjId, OpId};

// The order that a type has of its own.
#[derive(Clone, Copy)]
pub struct Ascending<T> {
    pub of: PhantomData<T>,
}

impl<T: Ord + Copy> TotalOrder for Ascending<T> {
    type Item = T;

    ghost order = { λ _. T.cmp };

    fn compare(&self, a: T, b: T) -> Ordering {
        a.cmp(&b)
    }

    ghost total = { λ _. T.Ord.total };
}

pub type OpIdOrder = Ascending<OpId>;

pub type ObjIdOrder = Ascending<ObjId>;

// Identities of entries: by counter, then by actor.
pub fn op_id_order() -> OpIdOrder
    ensures { (a b : OpId) → ⟦<OpIdOrder as TotalOrder>⟧.order result a b ≡ by_id.compare a b }
{
    Ascending { of: PhantomData }
}

// Identities of objects, likewise.
pub fn obj_id_order() -> ObjIdOrder
    ensures { (a b : ObjId) → ⟦<ObjIdOrder as TotalOrder>⟧.order result a b ≡ by_object.compare a b }
{
    Ascending { of: PhantomData }
}

// Two keys by their bytes.
pub fn compare_keys(a: &[u8], b: &[u8]) -> Ordering
    ensures { result ≡ by_bytes.compare a.now b.now }
{
    a.cmp(b)
}

// Keys that lie in packed rows of bytes: an item is the number of its row. The number SOUGHT
// stands for a key that need not be in a row, so that it can be looked for; a number, since the
// places of a set are numbers of 32 bits, and an enum would take twice as much. The slices are the
// caller's tables, as they lie.
#[derive(Clone, Copy)]
pub struct KeyOrder<'a> {
    pub starts: &'a [u32],
    pub bytes: &'a [u8],
    pub sought: &'a [u8],
}

pub const SOUGHT: u32 = 0xffff_ffff;

impl<'a> KeyOrder<'a> {
    // The key that an item stands for.
    pub fn key(&self, item: u32) -> &[u8]
        ensures { result.now ≡ key_of self.now.starts.now self.now.bytes.now self.now.sought.now item }
    {
        if item == SOUGHT {
            return self.sought;
        }
        row_of(self.bytes, self.starts, item as usize)
    }
}

impl TotalOrder for KeyOrder<'_> {
    type Item = u32;

    ghost order = { λ k. (by_key k.starts.now k.bytes.now k.sought.now).compare };

    fn compare(&self, a: u32, b: u32) -> Ordering {
        compare_keys(self.key(a), self.key(b))
    }

    ghost total = { λ k. total (by_key k.starts.now k.bytes.now k.sought.now) };
}
