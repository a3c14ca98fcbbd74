ghost use Rattle.std.specs.Prelude.{◌≡◌};
ghost use Rattle.document.specs.Laws.{every, earlier, rises, rooted, child_ok};
ghost use Rattle.document.specs.Places.{nth};
ghost use Rattle.document.specs.Steps.{passes, ordered};

use crate::rising::Rising;
use crate::rows::Rows;
use types::types::{ObjId, ObjType};

// Whether one object comes before another, by their places.
fn in_order<R: Rows>(rows: &R, i: usize, j: usize) -> bool
    ensures { result ≡ ordered earlier (nth (R.shaped rows.now).doc i) (nth (R.shaped rows.now).doc j) }
{
    match (rows.head(i), rows.head(j)) {
        (Some(a), Some(b)) => a.id < b.id,
        _ => true,
    }
}

// Whether the objects' identities rise.
pub fn check_rising<R: Rows>(rows: &R) -> bool
    ensures { result ≡ rises (R.shaped rows.now).doc }
{
    (0..rows.count()).all(|i| in_order(rows, i, i + 1))
}

impl<R: Rows> Rising<'_, R> {
    // Whether the root is there, is a map and is its own parent.
    pub fn check_root(&self) -> bool
        ensures { result ≡ rooted (R.shaped self.now.rows.now).doc }
    {
        self.object(ObjId::root())
            .is_some_and(|h| h.kind == ObjType::Map && h.parent == ObjId::root())
    }

    // Whether the object at a place is the root, or has a counter above 0 and
    // a parent that comes before it.
    fn is_child(&self, i: usize) -> bool
        ensures { result ≡ passes (child_ok (R.shaped self.now.rows.now).doc) (nth (R.shaped self.now.rows.now).doc i) }
    {
        let Some(h) = self.rows.head(i) else {
            return true;
        };
        h.id == ObjId::root()
            || h.id.0.counter > 0 && h.parent < h.id && self.object(h.parent).is_some()
    }

    // Whether every object but the root has its parent.
    pub fn check_children(&self) -> bool
        ensures { result ≡ every (child_ok (R.shaped self.now.rows.now).doc) (R.shaped self.now.rows.now).doc }
    {
        (0..self.rows.count()).all(|i| self.is_child(i))
    }
}
