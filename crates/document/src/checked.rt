ghost use Rattle.std.specs.Prelude.{◌≡◌, true, false, ⊤};
ghost use Rattle.types.specs.declared.error.Refusal.TheVariants.{UnlawfulRows};
ghost use Rattle.meaning.specs.Documents.{Lawful};
ghost use Rattle.document.specs.Laws.{lawful};
ghost use Rattle.document.specs.Lawful.{judged};

use crate::check::check_rows;
use crate::document::Document;
use crate::rising::Rising;
use crate::rows::Rows;
use crate::view::{Entry, Head};
use std::alloc::AllocError;
use types::error::Refusal;
use types::types::ObjId;

// Rows that keep all laws: a document.
#[derive(Drop)]
pub struct Checked<R: Rows> {
    pub rows: R,
    pub ghost ok: { lawful (R.shaped rows).doc ≡ true },
}

impl<R: Rows + Copy> Clone for Checked<R> {
    ghost is_clone = { λ x y. x ≡ y };

    ghost is_infallible = { λ _. ⊤ };

    fn clone(&self) -> Result<Self, AllocError> {
        Ok(*self)
    }
}

impl<R: Rows + Copy> Copy for Checked<R> {}

impl<R: Rows> Checked<R> {
    // For a caller who knows that the rows keep the laws.
    pub fn new(rows: R) -> Checked<R>
        requires { lawful (R.shaped rows).doc ≡ true }
        ensures { result.rows ≡ rows }
    {
        Checked { rows }
    }

    // Its rows, by whose order its objects are found.
    fn rising(&self) -> Rising<'_, R>
        ensures { result.rows.now ≡ self.now.rows }
    {
        Rising::new(&self.rows)
    }
}

impl<R: Rows + Copy> Checked<R> {
    // Refuses rows that break a law.
    pub fn check(rows: R) -> Result<Checked<R>, Refusal>
        ensures test { elim result [ Ok c ↦ c.rows ≡ rows | Err e ↦ (e ≡ UnlawfulRows) × (lawful (R.shaped rows).doc ≡ false) ] }
    {
        if check_rows(&rows) {
            Ok(Checked { rows })
        } else {
            Err(Refusal::UnlawfulRows)
        }
    }
}

// By place.
impl<R: Rows> Rows for Checked<R> {
    ghost shaped = { λ c. R.shaped c.rows };

    fn count(&self) -> usize {
        self.rows.count()
    }

    fn head(&self, i: usize) -> Option<Head> {
        self.rows.head(i)
    }

    fn size(&self, i: usize) -> usize {
        self.rows.size(i)
    }

    fn entry(&self, i: usize, n: usize) -> Option<Entry<'_>> {
        self.rows.entry(i, n)
    }

    fn text(&self, i: usize) -> Option<&[u8]> {
        self.rows.text(i)
    }
}

// By identity.
impl<R: Rows> Document for Checked<R> {
    ghost rows = { λ c. judged (R.shaped c.rows).doc c.ok };

    fn object(&self, id: ObjId) -> Option<Head> {
        self.rising().object(id)
    }

    fn size(&self, id: ObjId) -> usize {
        self.rising().size(id)
    }

    fn entry(&self, id: ObjId, n: usize) -> Option<Entry<'_>> {
        self.rising().entry(id, n)
    }

    fn text(&self, id: ObjId) -> Option<&[u8]> {
        self.rising().text(id)
    }
}
