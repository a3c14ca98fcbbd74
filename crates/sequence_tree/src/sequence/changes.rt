ghost use Rattle.std.specs.Prelude.{◌≡◌, ◌+◌, ◌≤◌, [], ◌∷◌, ◌++◌, length, is_ok, if◌then◌else◌, Ok, Err, nat_lt};
ghost use Rattle.sequence_tree.specs.declared.error.SequenceError.TheVariants.{OutOfRange, Full};
ghost use Rattle.sequence_tree.specs.Lists.{spliced};
ghost use Rattle.sequence_tree.specs.Refusals.{splicing};
ghost use Rattle.sequence_tree.specs.Sequences.{held, capacity};

use super::Sequence;
use crate::error::SequenceError;
use crate::places::{check_splice, insert_one, replace_range};

impl<'m, T: Copy> Sequence<'m, T> {
    // The k elements from `at` on are replaced by xs, for which there is room.
    pub fn replace(&mut self, at: usize, k: usize, xs: &[T])
        requires inside { at + k ≤ length (held self.old) }
        requires room { length (held self.old) + length xs.now ≤ capacity self.old + k }
        ensures held { held self.new ≡ spliced (held self.old) at k xs.now }
        ensures capacity { capacity self.new ≡ capacity self.old }
    {
        replace_range(self.places, self.len, at, k, xs);
        self.len = self.len - k + xs.len();
    }

    // xs, for which there is room, come after the last.
    pub fn extend(&mut self, xs: &[T])
        requires { length (held self.old) + length xs.now ≤ capacity self.old }
        ensures held { held self.new ≡ held self.old ++ xs.now }
        ensures capacity { capacity self.new ≡ capacity self.old }
    {
        self.replace(self.len, 0, xs);
    }

    // The k elements from `at` on are replaced by xs.
    pub fn splice(&mut self, at: usize, k: usize, xs: &[T]) -> Result<(), SequenceError>
        ensures answer { result ≡ splicing (capacity self.old) (length (held self.old)) at k (length xs.now) }
        ensures held { held self.new ≡ (if is_ok result then spliced (held self.old) at k xs.now else held self.old) }
        ensures capacity { capacity self.new ≡ capacity self.old }
    {
        check_splice(self.capacity(), self.len, at, k, xs.len())?;
        self.replace(at, k, xs);
        Ok(())
    }

    // x is put in at the place i.
    pub fn insert(&mut self, i: usize, x: T) -> Result<(), SequenceError>
        ensures answer { result ≡ splicing (capacity self.old) (length (held self.old)) i 0 1 }
        ensures held { held self.new ≡ (if is_ok result then spliced (held self.old) i 0 (x ∷ []) else held self.old) }
        ensures capacity { capacity self.new ≡ capacity self.old }
    {
        check_splice(self.capacity(), self.len, i, 0, 1)?;
        insert_one(self.places, self.len, i, x);
        self.len += 1;
        Ok(())
    }

    // x comes after the last.
    pub fn push(&mut self, x: T) -> Result<(), SequenceError>
        ensures answer { result ≡ (if nat_lt (length (held self.old)) (capacity self.old) then Ok tt else Err Full) }
        ensures held { held self.new ≡ (if is_ok result then held self.old ++ x ∷ [] else held self.old) }
        ensures capacity { capacity self.new ≡ capacity self.old }
    {
        if self.len >= self.capacity() {
            return Err(SequenceError::Full);
        }
        self.places[self.len] = x;
        self.len += 1;
        Ok(())
    }

    // The element at i is taken out.
    pub fn remove(&mut self, i: usize) -> Result<(), SequenceError>
        ensures answer { result ≡ (if nat_lt i (length (held self.old)) then Ok tt else Err OutOfRange) }
        ensures held { held self.new ≡ (if is_ok result then spliced (held self.old) i 1 [] else held self.old) }
        ensures capacity { capacity self.new ≡ capacity self.old }
    {
        self.splice(i, 1, &[])
    }

    pub fn clear(&mut self)
        ensures held { held self.new ≡ [] }
        ensures capacity { capacity self.new ≡ capacity self.old }
    {
        self.len = 0;
    }
}
