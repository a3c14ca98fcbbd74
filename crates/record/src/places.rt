use crate::cursor::Cursor;
use crate::scan::scan_row;
use record_codec::read::take_head;
use types::bounds::RECORD_BYTES;

// An object has 24 bytes at least and an entry 16, so a record has no more of
// them than this.
pub const OBJECTS: usize = RECORD_BYTES / 24 + 1;

pub const ENTRIES: usize = RECORD_BYTES / 16;

// Where the objects and entries of a record begin: the objects' places, the
// number of each one's first entry, and the entries' places. Of fixed size:
// no heap is used.
#[derive(Clone, Copy)]
pub struct Places {
    pub starts: [u32; OBJECTS],
    pub firsts: [u32; OBJECTS],
    pub entries: [u32; ENTRIES],
}

impl Places {
    ghost use Rattle.std.specs.Prelude.{◌≡◌};
    ghost use Rattle.record.specs.Reading.{IndexesAll};

    // No place at all.
    pub const NONE: Places = Places {
        starts: [0; OBJECTS],
        firsts: [0; OBJECTS],
        entries: [0; ENTRIES],
    };

    // Reads that many objects, and tells what is left then.
    pub fn scan<'a>(&mut self, count: usize, from: Cursor<'a>) -> Option<&'a [u8]>
        requires { from.entries ≡ 0 }
        ensures { IndexesAll count from.entry.total from.entry.rest.now self.new.starts self.new.firsts self.new.entries result }
    {
        let mut at = from;
        for i in 0..count {
            let (head, row) = take_head(at.rest)?;
            let next = scan_row(head.kind, at.over(row), &mut self.entries)?;
            self.starts[i] = at.place();
            self.firsts[i] = at.entries as u32;
            at = next;
        }
        Some(at.rest)
    }
}
