// Why a sequence does not change.
#[derive(Clone, Copy, PartialEq, Eq, Debug)]
pub enum SequenceError {
    // The place or the part is not among what is held.
    OutOfRange,
    // There are too few places.
    Full,
}
