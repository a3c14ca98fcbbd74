ghost use Rattle.std.specs.Prelude.{◌≡◌, ◌<◌};
ghost use Rattle.meaning.specs.Entries.{rank};
ghost use Rattle.meaning.specs.Documents.{find, path_of};
ghost use Rattle.document.specs.Paths.{names_it, Sought, Linked, Climbed, Answered};
ghost use Rattle.document.specs.Views.{entry_seen};

use crate::document::Document;
use crate::step::{PathError, PathStep};
use crate::view::Entry;
use types::bounds::PATH_STEPS;
use types::types::ObjId;
use types::value::Value;

// Whether an entry names that object.
fn names(e: Entry, id: ObjId) -> bool
    ensures { result ≡ names_it (rank id) (entry_seen e.entry) }
{
    match e.value {
        Value::Object(_) => id == ObjId(e.id),
        Value::Scalar(_) => false,
    }
}

// The place in a row at which an object is named.
fn seek<D: Document>(doc: &D, row: ObjId, id: ObjId) -> Option<usize>
    ensures { Sought (find (D.rows doc.now).doc (rank row)) (rank id) result }
{
    for n in 0..doc.size(row) {
        let e = doc.entry(row, n)?;
        if names(e, id) {
            return Some(n);
        }
    }
    None
}

// The last step of the path to an object that is not the root: from its
// parent, through the entry that names it. None where it is hidden.
fn link<D: Document>(doc: &D, id: ObjId) -> Option<PathStep>
    requires { 0 < rank id }
    ensures { Linked (D.rows doc.now).doc id result }
{
    let child = doc.object(id)?;
    let parent = doc.object(child.parent)?;
    let place = seek(doc, child.parent, id)?;
    Some(PathStep {
        leaves: parent.id,
        place,
    })
}

// Writes the steps to an object, those that have a place, and tells how many
// there are; none where a link on the way to the root is hidden.
fn climb<D: Document>(doc: &D, id: ObjId, steps: &mut [PathStep]) -> Option<usize>
    ensures { Climbed (D.rows doc.now).doc (path_of (D.rows doc.now).doc id) steps.old steps.new result }
{
    if id == ObjId::root() {
        return Some(0);
    }
    let step = link(doc, id)?;
    let k = climb(doc, step.leaves, steps)?;
    if k < steps.len() {
        steps[k] = step;
    }
    Some(k + 1)
}

// The path of an object: the steps from the root, written into the places
// that are lent, as many as have one.
pub fn get_path<D: Document>(doc: &D, id: ObjId, steps: &mut [PathStep]) -> Result<usize, PathError>
    ensures { Answered (D.rows doc.now).doc (path_of (D.rows doc.now).doc id) steps.old steps.new result }
{
    let k = climb(doc, id, steps).ok_or(PathError::NoPath)?;
    if k > PATH_STEPS {
        return Err(PathError::TooDeep);
    }
    Ok(k)
}
