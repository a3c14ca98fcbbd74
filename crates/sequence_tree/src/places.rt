// Moving and replacing elements of a slice, for callers that count for themselves how many places are in use;
// `Sequence` holds the places and the count.
ghost use Rattle.std.specs.Prelude.{◌≡◌, ℕ, ◌+◌, ◌-◌, ◌<◌, ◌≤◌, [], ◌∷◌, length, take, slice_index_or};
ghost use Rattle.sequence_tree.specs.Lists.{spliced, Replaced};
ghost use Rattle.sequence_tree.specs.Refusals.{splicing};

use crate::error::SequenceError;

// Of the first n places, those past at + k go to at + m and after; what stands below `at` stays.
fn make_room<T: Copy>(s: &mut [T], n: usize, at: usize, k: usize, m: usize)
    requires { (at + k ≤ n) × ((n ≤ length s.old) × (n + m ≤ length s.old + k)) }
    ensures below { (j : ℕ) (d : T) → j < at → slice_index_or s.new j d ≡ slice_index_or s.old j d }
    ensures tail { (j : ℕ) (d : T) → at + k + j < n → slice_index_or s.new (at + m + j) d ≡ slice_index_or s.old (at + k + j) d }
{
    if m != k {
        s.copy_within(at + k..n, at + m);
    }
}

// Of the first n places, those in at..at + k are replaced by xs: the one way of putting in and taking out.
#[tactic(auto, using(crate::proofs::Splices::written_is))]
pub fn replace_range<T: Copy>(s: &mut [T], n: usize, at: usize, k: usize, xs: &[T])
    requires { (at + k ≤ n) × ((n ≤ length s.old) × (n + length xs.now ≤ length s.old + k)) }
    ensures parts { Replaced s.old s.new n at k xs.now }
    ensures whole { take (n - k + length xs.now) s.new ≡ spliced (take n s.old) at k xs.now }
{
    let m = xs.len();
    make_room(s, n, at, k, m);
    s[at..at + m].copy_from_slice(xs);
}

// Puts x in at the place `at` of the first n places.
#[tactic(auto, using(crate::proofs::Splices::put_is))]
pub fn insert_one<T: Copy>(s: &mut [T], n: usize, at: usize, x: T)
    requires { (at ≤ n) × (n < length s.old) }
    ensures { take (n + 1) s.new ≡ spliced (take n s.old) at 0 (x ∷ []) }
{
    make_room(s, n, at, 0, 1);
    s[at] = x;
}

// Takes the element at `at` out of the first n places.
pub fn remove_one<T: Copy>(s: &mut [T], n: usize, at: usize)
    requires { (at < n) × (n ≤ length s.old) }
    ensures { take (n - 1) s.new ≡ spliced (take n s.old) at 1 [] }
{
    replace_range(s, n, at, 1, &[]);
}

// Whether, of n elements in cap places, the k from `at` on can be replaced by m others.
pub fn check_splice(
    cap: usize,
    n: usize,
    at: usize,
    k: usize,
    m: usize,
) -> Result<(), SequenceError>
    requires { n ≤ cap }
    ensures { result ≡ splicing cap n at k m }
{
    if at > n || k > n - at {
        return Err(SequenceError::OutOfRange);
    }
    if m > cap - n + k {
        return Err(SequenceError::Full);
    }
    Ok(())
}
