ghost use Rattle.record.specs.Reading.{IndexesEntries, IndexesRow};

use crate::cursor::Cursor;
use crate::places::ENTRIES;
use record_codec::read::{take_entry, take_text, take_u32};
use types::types::ObjType;

// One pass over a record, which writes down where its entries begin.

// Reads that many entries.
fn scan_entries<'a>(
    keyed: bool,
    count: usize,
    from: Cursor<'a>,
    places: &mut [u32; ENTRIES],
) -> Option<Cursor<'a>>
    ensures { IndexesEntries keyed count from.entry places.old places.new result }
{
    let mut rest = from.rest;
    for i in 0..count {
        let (_, more) = take_entry(keyed, rest)?;
        places[from.entries + i] = (from.total - rest.len()) as u32;
        rest = more;
    }
    Some(Cursor {
        total: from.total,
        rest,
        entries: from.entries + count,
    })
}

// Reads a row of that kind.
pub fn scan_row<'a>(
    kind: ObjType,
    from: Cursor<'a>,
    places: &mut [u32; ENTRIES],
) -> Option<Cursor<'a>>
    ensures { IndexesRow kind from.entry places.old places.new result }
{
    if kind == ObjType::Text {
        let (_, rest) = take_text(from.rest)?;
        return Some(from.over(rest));
    }
    let (count, rest) = take_u32(from.rest)?;
    scan_entries(!kind.is_sequence(), count as usize, from.over(rest), places)
}
