use types::types::ObjId;

// A step of a path: the object that it leaves, and the place of the entry in
// that object's row through which it goes.
#[derive(Clone, Copy, PartialEq, Eq, Debug)]
pub struct PathStep {
    pub leaves: ObjId,
    pub place: usize,
}

// Why an object has no path to tell: it is hidden, or the path has more steps
// than a path may have.
#[derive(Clone, Copy, PartialEq, Eq, Debug)]
pub enum PathError {
    NoPath,
    TooDeep,
}
