ghost use Rattle.std.specs.Prelude.{◌≡◌, Some, Ok, Err};
ghost use Rattle.record_codec.specs.Layout.{says, doc_of};
ghost use Rattle.record.specs.Told.{bare_doc};
ghost use Rattle.record.specs.Opening.{opening};

use crate::index::RecordIndex;
use document::checked::Checked;
use document::{check_rising, check_rows};
use types::error::Refusal;

// A document that is read from the bytes of a record, which it borrows.
pub type ShelfRecord<'a> = Checked<RecordIndex<'a>>;

// How a shelf record begins and is filled. A trait, since checked rows are a
// type of another crate.
pub trait OpenRecord<'a> {
    // The document that has the root alone, an empty map.
    fn bare_root() -> Self;

    // Reads the document of a record, whole; on a refusal it tells what it
    // told.
    fn open(&mut self, bytes: &'a [u8]) -> Result<(), Refusal>;
}

impl<'a> OpenRecord<'a> for ShelfRecord<'a> {
    fn bare_root() -> ShelfRecord<'a>
        ensures { doc_of result.rows.bytes.now ≡ bare_doc }
    {
        Checked::new(RecordIndex::bare())
    }

    fn open(&mut self, bytes: &'a [u8]) -> Result<(), Refusal>
        ensures answer { result ≡ opening bytes.now }
        ensures holds { elim result [ Ok _ ↦ says bytes.now ≡ Some (doc_of self.new.rows.bytes.now) | Err _ ↦ self.new ≡ self.old ] }
    {
        let mut index = RecordIndex::bare();
        index.read(bytes)?;
        if !check_rising(&index) {
            return Err(Refusal::InvalidLayout);
        }
        if !check_rows(&index) {
            return Err(Refusal::UnlawfulRows);
        }
        *self = Checked::new(index);
        Ok(())
    }
}

#[cfg(test)]
mod tests {
    use super::*;
    use document::document::Document;
    use types::types::ObjId;

    #[test]
    fn the_bare_root_has_no_entry(rt: HostRuntime) {
        let record = ShelfRecord::bare_root();
        assert_eq!(rt;
            <ShelfRecord<'_> as Document>::size(&record, ObjId::root()),
            0
        );
        assert!(rt; <ShelfRecord<'_> as Document>::entry(&record, ObjId::root(), 0).is_none());
    }

    // A root with the list (1, 2) under the key "a".
    #[test]
    fn a_refused_record_leaves_the_one_before(rt: HostRuntime) {
        let bytes =
            b"\0\0\0\x02\0\0\0\0\0\0\0\0\0\0\0\0\0\0\0\0\0\0\0\0\0\0\0\x01\0\0\0\x01a\0\0\0\x0b\0\0\0\x01\0\0\0\x02\0\0\0\0\0\0\0\x01\0\0\0\x02\0\0\0\0\0\0\0\0\0\0\0\x02\0\0\0\0";
        let mut record = ShelfRecord::bare_root();
        assert!(rt; record.open(bytes).is_ok());
        assert!(rt; record.open(&bytes[0..72]).is_err());
        assert_eq!(rt;
            <ShelfRecord<'_> as Document>::size(&record, ObjId::root()),
            1
        );
    }
}
