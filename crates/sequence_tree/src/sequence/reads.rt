ghost use Rattle.std.specs.Prelude.{◌≡◌, [], length};
ghost use Rattle.std.specs.List.{slice_get};
ghost use Rattle.sequence_tree.specs.Sequences.{held, capacity};

use super::Sequence;

impl<'m, T: Copy> Sequence<'m, T> {
    // An empty sequence in these places.
    pub fn new(places: &'m mut [T]) -> Sequence<'m, T>
        ensures held { held result ≡ [] }
        ensures capacity { capacity result ≡ length places.old }
    {
        Sequence { places, len: 0 }
    }

    pub fn len(&self) -> usize
        ensures { result ≡ length (held self.now) }
    {
        self.len
    }

    pub fn capacity(&self) -> usize
        ensures { result ≡ capacity self.now }
    {
        self.places.len()
    }

    pub fn get(&self, i: usize) -> Option<T>
        ensures { result ≡ slice_get (held self.now) i }
    {
        self.as_slice().get(i).copied()
    }

    // What it holds.
    pub fn as_slice(&self) -> &[T]
        ensures { result.now ≡ held self.now }
    {
        &self.places[..self.len]
    }
}
