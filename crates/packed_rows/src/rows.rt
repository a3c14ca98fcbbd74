// Packed rows in plain slices: many rows in one slice of places, with a slice of their starts. Callers lend the two
// from among tables of their own; where they belong together, `PackedRows` holds them.
ghost use Rattle.std.specs.Prelude.{◌≡◌, ℕ, ◌+◌, ◌-◌, ◌^◌, ◌<◌, ◌≤◌, length, slice_index, slice_range};
ghost use Rattle.packed_rows.specs.Rows.{row, used, Packed, Moved, RowSpliced};

use sequence_tree::places::replace_range;

// The elements from..to, as far as there are places.
fn clipped<T>(places: &[T], from: usize, to: usize) -> &[T]
    ensures { result.now ≡ slice_range places.now from to }
{
    let end = to.min(places.len());
    &places[from.min(end)..end]
}

// The row i; an empty one past the last. Starts that reach beyond the places end with them.
pub fn row_of<'a, T>(places: &'a [T], starts: &[u32], i: usize) -> &'a [T]
    ensures { result.now ≡ row starts.now places.now i }
{
    if i >= starts.len().saturating_sub(1) {
        return &[];
    }
    clipped(places, starts[i] as usize, starts[i + 1] as usize)
}

// The starts past row i move on by m - k.
fn move_starts(starts: &mut [u32], i: usize, k: u32, m: u32)
    requires row { i < length starts.old }
    requires fits { (j : ℕ) → i < j → j < length starts.old → (k ≤ slice_index starts.old j) × (slice_index starts.old j - k + m < 2 ^ 32) }
    ensures { Moved starts.old starts.new i k m }
{
    for start in &mut starts[i + 1..] {
        *start = *start - k + m;
    }
}

// In row i, the k elements from `at` on are replaced by xs. Every other row stays.
#[tactic(auto, using(crate::proofs::PackedRows::bounds))]
pub fn splice_row<T: Copy>(
    places: &mut [T],
    starts: &mut [u32],
    i: usize,
    at: usize,
    k: usize,
    xs: &[T],
)
    requires lawful { Packed starts.old places.old }
    requires row { i + 1 < length starts.old }
    requires inside { at + k ≤ length (row starts.old places.old i) }
    requires room { used starts.old + length xs.now ≤ length places.old + k }
    requires small { length places.old < 2 ^ 32 }
    ensures { RowSpliced starts.old places.old starts.new places.new i at k xs.now }
{
    let used = starts[starts.len() - 1] as usize;
    replace_range(places, used, starts[i] as usize + at, k, xs);
    move_starts(starts, i, k as u32, xs.len() as u32);
}
