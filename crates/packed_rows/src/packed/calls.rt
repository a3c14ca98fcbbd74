ghost use Rattle.std.specs.Prelude.{◌≡◌, ℕ, ◌+◌, ◌-◌, min, [], length, is_ok, if◌then◌else◌, ◌≢◌};
ghost use Rattle.sequence_tree.specs.Lists.{spliced};
ghost use Rattle.packed_rows.specs.Packs.{row_count, row_of, used_in, room_in, row_splicing};

use super::PackedRows;
use crate::rows::{row_of, splice_row};
use sequence_tree::error::SequenceError;
use sequence_tree::places::check_splice;

impl<'m, T: Copy> PackedRows<'m, T> {
    // Empty rows, one fewer than starts. Places that a start of 32 bits cannot count stay free.
    pub fn new(places: &'m mut [T], starts: &'m mut [u32]) -> PackedRows<'m, T>
        ensures rows { row_count result ≡ length starts.old - 1 }
        ensures room { room_in result ≡ min (length places.old) 4294967295 }
        ensures used { used_in result ≡ 0 }
        ensures empty { (i : ℕ) → row_of result i ≡ [] }
    {
        let room = places.len().min(0xffff_ffff);
        starts.fill(0);
        PackedRows {
            places: &mut places[..room],
            starts,
        }
    }

    pub fn rows(&self) -> usize
        ensures { result ≡ row_count self.now }
    {
        self.starts.len().saturating_sub(1)
    }

    // How many places are in use.
    pub fn used(&self) -> usize
        ensures { result ≡ used_in self.now }
    {
        self.starts.last().copied().unwrap_or(0) as usize
    }

    pub fn capacity(&self) -> usize
        ensures { result ≡ room_in self.now }
    {
        self.places.len()
    }

    // The row i; past the last, an empty one.
    pub fn row(&self, i: usize) -> &[T]
        ensures { result.now ≡ row_of self.now i }
    {
        row_of(self.places, self.starts, i)
    }

    // Whether, in row i, the k elements from `at` on can be replaced by m others.
    fn check(&self, i: usize, at: usize, k: usize, m: usize) -> Result<(), SequenceError>
        ensures { result ≡ row_splicing self.now i at k m }
    {
        if i >= self.rows() {
            return Err(SequenceError::OutOfRange);
        }
        let len = self.row(i).len();
        check_splice(self.capacity() - self.used() + len, len, at, k, m)
    }

    // In row i, the k elements from `at` on are replaced by xs.
    pub fn splice(&mut self, i: usize, at: usize, k: usize, xs: &[T]) -> Result<(), SequenceError>
        ensures answer { result ≡ row_splicing self.old i at k (length xs.now) }
        ensures here { row_of self.new i ≡ (if is_ok result then spliced (row_of self.old i) at k xs.now else row_of self.old i) }
        ensures others { (j : ℕ) → (j ≢ i) → row_of self.new j ≡ row_of self.old j }
        ensures used { used_in self.new + (if is_ok result then k else 0) ≡ used_in self.old + (if is_ok result then length xs.now else 0) }
        ensures rows { row_count self.new ≡ row_count self.old }
        ensures room { room_in self.new ≡ room_in self.old }
    {
        self.check(i, at, k, xs.len())?;
        splice_row(self.places, self.starts, i, at, k, xs);
        Ok(())
    }
}
