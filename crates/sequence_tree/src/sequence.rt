// The one sequence: elements in lent places.
ghost use Rattle.std.specs.Prelude.{◌≤◌, length};

mod changes;
mod reads;

// Of the places, the first `len` are in use. The caller lends the memory and bounds it, so this is no `Vec`.
#[derive(Drop)]
pub struct Sequence<'m, T> {
    places: &'m mut [T],
    len: usize,
    ghost fits: { len ≤ length places.now },
}
