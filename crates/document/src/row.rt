ghost use Rattle.std.specs.Prelude.{◌≡◌};
ghost use Rattle.std.specs.Ordering.{is_gt};
ghost use Rattle.meaning.specs.Entries.{compare_keys, content_bytes};
ghost use Rattle.meaning.specs.Documents.{well_spelt};
ghost use Rattle.document.specs.Laws.{every, chained, key_before, good_pair, row_ok};
ghost use Rattle.document.specs.Places.{nth, entry_told};
ghost use Rattle.document.specs.Steps.{passes, ordered, pairs_told, keys_told};
ghost use Rattle.document.specs.Views.{content_seen, entry_seen};

use crate::rows::Rows;
use crate::view::Entry;
use text_value::is_utf8;
use types::bounds::{KEY_BYTES, SCALAR_BYTES};
use types::value::{ScalarValue, Value};

// Whether a string is UTF-8; bytes may be anything. The crate `patch_call`
// has the same test: below both, `types` has the values, `text_value` the
// test of UTF-8, and `meaning`, which has both, no code.
fn is_text(value: Value) -> bool
    ensures { result ≡ well_spelt (content_seen value.entry) }
{
    match value {
        Value::Scalar(ScalarValue::Str(s)) => is_utf8(s),
        _ => true,
    }
}

// Whether a key and its entry are good by themselves.
fn is_good(e: Entry) -> bool
    ensures { result ≡ good_pair (entry_seen e.entry) }
{
    e.key.len() <= KEY_BYTES
        && is_utf8(e.key)
        && e.id.counter > 0
        && e.value.byte_len() <= SCALAR_BYTES
        && is_text(e.value)
}

// Keys compare by bytes. Under a name, since its contract says which order of
// keys that is.
fn key_before(a: &[u8], b: &[u8]) -> bool
    ensures { result ≡ is_gt (compare_keys b.now a.now) }
{
    a < b
}

// The row of the object at a place.
#[derive(Drop)]
pub struct Row<'a, R: Rows> {
    pub rows: &'a R,
    pub i: usize,
}

impl<R: Rows> Row<'_, R> {
    fn is_good_at(&self, n: usize) -> bool
        ensures { result ≡ passes good_pair (entry_told (nth (R.shaped self.now.rows.now).doc self.now.i) n) }
    {
        self.rows.entry(self.i, n).is_none_or(is_good)
    }

    // Whether a row's keys and entries are good by themselves.
    fn check_entries(&self) -> bool
        ensures { result ≡ every good_pair (pairs_told (nth (R.shaped self.now.rows.now).doc self.now.i)) }
    {
        (0..self.rows.size(self.i)).all(|n| self.is_good_at(n))
    }

    fn keys_in_order(&self, n: usize, m: usize) -> bool
        ensures { result ≡ ordered key_before (entry_told (nth (R.shaped self.now.rows.now).doc self.now.i) n) (entry_told (nth (R.shaped self.now.rows.now).doc self.now.i) m) }
    {
        match (self.rows.entry(self.i, n), self.rows.entry(self.i, m)) {
            (Some(a), Some(b)) => key_before(a.key, b.key),
            _ => true,
        }
    }

    // Whether each key of a row comes before the next.
    fn check_chain(&self) -> bool
        ensures { result ≡ chained key_before (pairs_told (nth (R.shaped self.now.rows.now).doc self.now.i)) }
    {
        (0..self.rows.size(self.i)).all(|n| self.keys_in_order(n, n + 1))
    }

    // Whether a map's or table's keys rise.
    fn check_keys(&self) -> bool
        ensures { result ≡ keys_told (nth (R.shaped self.now.rows.now).doc self.now.i) }
    {
        let Some(head) = self.rows.head(self.i) else {
            return true;
        };
        head.kind.is_sequence() || self.check_chain()
    }

    // Whether a row is lawful by itself.
    pub fn check(&self) -> bool
        ensures { result ≡ passes row_ok (nth (R.shaped self.now.rows.now).doc self.now.i) }
    {
        match self.rows.text(self.i) {
            Some(t) => is_utf8(t),
            None => self.check_keys() && self.check_entries(),
        }
    }
}

// Whether every row is.
pub fn check_each_row<R: Rows>(rows: &R) -> bool
    ensures { result ≡ every row_ok (R.shaped rows.now).doc }
{
    (0..rows.count()).all(|i| Row { rows, i }.check())
}
