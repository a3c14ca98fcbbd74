ghost use Rattle.std.specs.Prelude.{◌≡◌, ℕ, ◌<◌, true, length, take, is_some, None, Ok, Err, slice_index};
ghost use Rattle.types.specs.declared.error.Refusal.TheVariants.{InvalidLayout};
ghost use Rattle.record_codec.specs.Layout.{put_obj, parsed, doc_of};
ghost use Rattle.record.specs.Index.{offsets, entry_offsets, first_numbers, entry_count};
ghost use Rattle.record.specs.Reading.{FoundAt, SizeAt, EntryAt};
ghost use Rattle.record.specs.Told.{bare_record, told_by};

use crate::cursor::Cursor;
use crate::places::Places;
use document::rows::Rows;
use document::view::{Entry, Head};
use record_codec::read::{take_entry, take_head, take_text, take_u32};
use types::bounds::RECORD_BYTES;
use types::error::Refusal;
use types::types::ObjType;

// The record of the root alone: one object, four numbers of its identity and
// its parent's, the code of a map, no entries.
const BARE: &[u8; 28] = b"\0\0\0\x01\0\0\0\0\0\0\0\0\0\0\0\0\0\0\0\0\0\0\0\0\0\0\0\0";

// The bytes of a record with the places of its objects and entries.
#[derive(Clone, Copy)]
pub struct RecordIndex<'a> {
    bytes: &'a [u8],
    objects: usize,
    places: Places,
    ghost typed: { (k : ℕ) → slice_index bytes.now k < 256 },
    ghost said: { is_some (parsed bytes.now) ≡ true },
    ghost counted: { objects ≡ length (doc_of bytes.now) },
    ghost started: { take objects places.starts ≡ offsets put_obj 4 (doc_of bytes.now) },
    ghost numbered: { take objects places.firsts ≡ first_numbers 0 (doc_of bytes.now) },
    ghost indexed: { take (entry_count (doc_of bytes.now)) places.entries ≡ entry_offsets 4 (doc_of bytes.now) },
}

impl<'a> RecordIndex<'a> {
    // The record of the root alone, an empty map.
    pub fn bare() -> RecordIndex<'a>
        ensures { result.bytes.now ≡ bare_record }
    {
        let mut places = Places::NONE;
        places.starts[0] = 4;
        RecordIndex {
            bytes: BARE,
            objects: 1,
            places,
        }
    }

    // Reads a whole record once, and writes the index whole. Where the bytes
    // do not follow the layout, the order of objects aside, it stays.
    pub fn read(&mut self, bytes: &'a [u8]) -> Result<(), Refusal>
        ensures { elim result [ Ok _ ↦ self.new.bytes.now ≡ bytes.now | Err e ↦ (e ≡ InvalidLayout) × (parsed bytes.now ≡ None) × (self.new ≡ self.old) ] }
    {
        if bytes.len() > RECORD_BYTES {
            return Err(Refusal::InvalidLayout);
        }
        let (count, rest) = take_u32(bytes).ok_or(Refusal::InvalidLayout)?;
        let objects = count as usize;
        let mut places = Places::NONE;
        let end = places
            .scan(objects, Cursor::start(bytes.len(), rest))
            .ok_or(Refusal::InvalidLayout)?;
        if !end.is_empty() {
            return Err(Refusal::InvalidLayout);
        }
        *self = RecordIndex {
            bytes,
            objects,
            places,
        };
        Ok(())
    }

    // The head of the object at that place, and the bytes from its row on.
    fn row_at(&self, i: usize) -> Option<(Head, &[u8])>
        ensures { FoundAt (doc_of self.now.bytes.now) i result }
    {
        if i >= self.objects {
            return None;
        }
        take_head(&self.bytes[self.places.starts[i] as usize..])
    }

    // How many entries or bytes the row at that place has: it begins with the
    // number.
    fn size_at(&self, i: usize) -> Option<usize>
        ensures { SizeAt (doc_of self.now.bytes.now) i result }
    {
        let (_, row) = self.row_at(i)?;
        let (size, _) = take_u32(row)?;
        Some(size as usize)
    }

    // The bytes that begin with that entry, and whether it has a key.
    fn entry_at(&self, i: usize, n: usize) -> Option<(bool, &[u8])>
        ensures { EntryAt (doc_of self.now.bytes.now) i n result }
    {
        let (head, row) = self.row_at(i)?;
        if head.kind == ObjType::Text {
            return None;
        }
        let (count, _) = take_u32(row)?;
        if n >= count as usize {
            return None;
        }
        let place = self.places.entries[self.places.firsts[i] as usize + n];
        Some((!head.kind.is_sequence(), &self.bytes[place as usize..]))
    }
}

impl Rows for RecordIndex<'_> {
    ghost shaped = { λ t. told_by t.bytes.now t.typed t.said };

    fn count(&self) -> usize {
        self.objects
    }

    fn head(&self, i: usize) -> Option<Head> {
        self.row_at(i).map(|(head, _)| head)
    }

    fn size(&self, i: usize) -> usize {
        self.size_at(i).unwrap_or(0)
    }

    fn entry(&self, i: usize, n: usize) -> Option<Entry<'_>> {
        let (keyed, bytes) = self.entry_at(i, n)?;
        let (entry, _) = take_entry(keyed, bytes)?;
        Some(entry)
    }

    #[tactic(auto, using(crate::proofs::Held::text_none, crate::proofs::Held::text_some, crate::proofs::Held::text_unread, crate::proofs::Scanning::text_is))]
    fn text(&self, i: usize) -> Option<&[u8]> {
        let (head, row) = self.row_at(i)?;
        if head.kind != ObjType::Text {
            return None;
        }
        let (text, _) = take_text(row)?;
        Some(text)
    }
}
