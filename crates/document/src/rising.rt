ghost use Rattle.std.specs.Prelude.{◌≡◌, true, ⊤, is_some, IfSome};
ghost use Rattle.meaning.specs.Entries.{rank};
ghost use Rattle.meaning.specs.Documents.{find};
ghost use Rattle.document.specs.Laws.{rises};
ghost use Rattle.document.specs.Places.{head_told, size_told, entry_told, text_told};
ghost use Rattle.document.specs.Steps.{Found};
ghost use Rattle.document.specs.Views.{an_entry_seen, bytes_seen};

use crate::heads::check_rising;
use crate::rows::Rows;
use crate::view::{Entry, Head};
use std::alloc::AllocError;
use std::cmp::Ordering;
use types::types::ObjId;

// Rows whose identities rise, so that objects are found by halves.
#[derive(Drop)]
pub struct Rising<'a, R: Rows> {
    pub rows: &'a R,
    pub ghost up: { rises (R.shaped rows.now).doc ≡ true },
}

impl<R: Rows> Clone for Rising<'_, R> {
    ghost is_clone = { λ x y. x ≡ y };

    ghost is_infallible = { λ _. ⊤ };

    fn clone(&self) -> Result<Self, AllocError> {
        Ok(*self)
    }
}

impl<R: Rows> Copy for Rising<'_, R> {}

impl<'a, R: Rows> Rising<'a, R> {
    // For a caller who knows that the identities rise.
    pub fn new(rows: &'a R) -> Rising<'a, R>
        requires { rises (R.shaped rows.now).doc ≡ true }
        ensures { result.rows.now ≡ rows.now }
    {
        Rising { rows }
    }

    // None where an identity does not come before the next.
    pub fn check(rows: &'a R) -> Option<Rising<'a, R>>
        ensures test { is_some result ≡ rises (R.shaped rows.now).doc }
        ensures same { IfSome result (λ s. s.rows.now ≡ rows.now) }
    {
        if check_rising(rows) {
            Some(Rising { rows })
        } else {
            None
        }
    }

    // The place of the object with that identity. By hand: the library
    // searches slices by halves, and rows are behind an interface.
    pub fn find(&self, id: ObjId) -> Option<usize>
        ensures { Found (R.shaped self.now.rows.now).doc (rank id) result }
    {
        let mut lo = 0;
        let mut hi = self.rows.count();
        while lo < hi {
            let mid = lo + (hi - lo) / 2;
            let head = self.rows.head(mid)?;
            match head.id.cmp(&id) {
                Ordering::Less => lo = mid + 1,
                Ordering::Equal => return Some(mid),
                Ordering::Greater => hi = mid,
            }
        }
        None
    }

    // Kind and parent of an object; none where the identity is no object's.
    pub fn object(&self, id: ObjId) -> Option<Head>
        ensures { result ≡ head_told (find (R.shaped self.now.rows.now).doc (rank id)) }
    {
        self.rows.head(self.find(id)?)
    }

    // How many entries its row has, or how many bytes it has as a text; 0
    // where no object is.
    pub fn size(&self, id: ObjId) -> usize
        ensures { result ≡ size_told (find (R.shaped self.now.rows.now).doc (rank id)) }
    {
        self.find(id).map_or(0, |i| self.rows.size(i))
    }

    // The n-th entry of its row; none past the last, in a text, and where no
    // object is.
    pub fn entry(&self, id: ObjId, n: usize) -> Option<Entry<'a>>
        ensures { an_entry_seen result ≡ entry_told (find (R.shaped self.now.rows.now).doc (rank id)) n }
    {
        self.rows.entry(self.find(id)?, n)
    }

    // Its bytes, where it is a text.
    pub fn text(&self, id: ObjId) -> Option<&'a [u8]>
        ensures { bytes_seen result ≡ text_told (find (R.shaped self.now.rows.now).doc (rank id)) }
    {
        self.rows.text(self.find(id)?)
    }
}
