ghost use Rattle.std.specs.Prelude.{◌≡◌, ◌==◌, ◌&&◌, ℕ, ◌≤◌, true, List, [], ◌∷◌, length};
ghost use Rattle.meaning.specs.Entries.{rank};
ghost use Rattle.document.specs.Laws.{every, same_kind, refs_of, named, refs_ok};
ghost use Rattle.document.specs.Marks.{Marked, Later, ClearAt, LaterAt, Names, Enters, refs_at};
ghost use Rattle.document.specs.Places.{nth, entry_told};
ghost use Rattle.document.specs.Steps.{passes, pairs_told};

use crate::rising::Rising;
use crate::rows::Rows;
use crate::view::Head;
use types::bounds::DOCUMENT_OBJECTS;
use types::types::{ObjId, ObjType};
use types::value::Value;

// At an object's place, whether an entry named it.
type Marks = [bool; DOCUMENT_OBJECTS];

// Whether an object is of a kind, and an owner's.
fn belongs(head: Head, kind: ObjType, owner: ObjId) -> bool
    ensures { result ≡ (same_kind head.kind kind && rank head.parent == rank owner) }
{
    head.kind == kind && head.parent == owner
}

// An object whose row names others, in rows for which there are marks enough.
#[derive(Drop)]
struct Owner<'a, R: Rows> {
    rows: Rising<'a, R>,
    id: ObjId,
    ghost few: { length (R.shaped rows.rows.now).doc ≤ 1024 },
}

impl<R: Rows> Owner<'_, R> {
    // The place of the object that an entry names, where it may: an object of
    // that kind, not the root, whose parent is this one.
    fn place(&self, id: ObjId, kind: ObjType) -> Option<usize>
        ensures { Names (R.shaped self.now.rows.rows.now).doc (rank self.now.id) (record { kind = kind; object = id }) result }
    {
        if id == ObjId::root() {
            return None;
        }
        let j = self.rows.find(id)?;
        belongs(self.rows.rows.head(j)?, kind, self.id).then_some(j)
    }

    // Marks the object that an entry names; false where it must not be named
    // there or was named before.
    fn enter(&self, id: ObjId, kind: ObjType, marks: &mut Marks) -> bool
        ensures { (seen : List ℕ) → Marked (R.shaped self.now.rows.rows.now).doc (rank self.now.id) marks.old seen → Enters (R.shaped self.now.rows.rows.now).doc (rank self.now.id) seen (record { kind = kind; object = id } ∷ []) marks.new result }
    {
        let Some(j) = self.place(id, kind) else {
            return false;
        };
        if marks[j] {
            return false;
        }
        marks[j] = true;
        true
    }

    fn enter_at(&self, i: usize, n: usize, marks: &mut Marks) -> bool
        ensures { (seen : List ℕ) → Marked (R.shaped self.now.rows.rows.now).doc (rank self.now.id) marks.old seen → Enters (R.shaped self.now.rows.rows.now).doc (rank self.now.id) seen (refs_at (entry_told (nth (R.shaped self.now.rows.rows.now).doc i) n)) marks.new result }
    {
        let Some(e) = self.rows.rows.entry(i, n) else {
            return true;
        };
        match e.value {
            Value::Object(kind) => self.enter(ObjId(e.id), kind, marks),
            Value::Scalar(_) => true,
        }
    }

    // Whether its row, which is at that place, names objects as it may; their
    // marks stay for the later rows. A loop: of what a closure marks, a proof
    // knows nothing afterwards.
    fn check(&self, i: usize, marks: &mut Marks) -> bool
        requires { Marked (R.shaped self.now.rows.rows.now).doc (rank self.now.id) marks.old [] }
        ensures test { result ≡ named (R.shaped self.now.rows.rows.now).doc (rank self.now.id) [] (refs_of (pairs_told (nth (R.shaped self.now.rows.rows.now).doc i))) }
        ensures later { result ≡ true → Later (R.shaped self.now.rows.rows.now).doc (rank self.now.id) marks.new }
    {
        for n in 0..self.rows.rows.size(i) {
            if !self.enter_at(i, n, marks) {
                return false;
            }
        }
        true
    }
}

fn check_names_at<R: Rows>(rows: Rising<'_, R>, i: usize, marks: &mut Marks) -> bool
    requires few { length (R.shaped rows.rows.now).doc ≤ 1024 }
    requires clear { ClearAt (R.shaped rows.rows.now).doc (nth (R.shaped rows.rows.now).doc i) marks.old }
    ensures test { result ≡ passes (refs_ok (R.shaped rows.entry.rows.now).doc) (nth (R.shaped rows.entry.rows.now).doc i) }
    ensures later { result ≡ true → LaterAt (R.shaped rows.entry.rows.now).doc (nth (R.shaped rows.entry.rows.now).doc i) marks.new }
{
    let Some(head) = rows.rows.head(i) else {
        return true;
    };
    match head.kind {
        ObjType::Text => true,
        _ => (Owner { rows, id: head.id }).check(i, marks),
    }
}

// Whether every object entry names an object of its kind, in its parent's
// row, and none twice. A loop, for the reason of `Owner::check`.
pub fn check_all_names<R: Rows>(rows: Rising<'_, R>) -> bool
    requires { length (R.shaped rows.rows.now).doc ≤ 1024 }
    ensures { result ≡ every (refs_ok (R.shaped rows.entry.rows.now).doc) (R.shaped rows.entry.rows.now).doc }
{
    let mut marks = [false; DOCUMENT_OBJECTS];
    for i in 0..rows.rows.count() {
        if !check_names_at(rows, i, &mut marks) {
            return false;
        }
    }
    true
}
