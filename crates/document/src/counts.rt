ghost use Rattle.std.specs.Prelude.{◌≡◌};
ghost use Rattle.meaning.specs.Values.{within_value};
ghost use Rattle.meaning.specs.Documents.{doc_counts};
ghost use Rattle.document.specs.Places.{nth, entry_told};
ghost use Rattle.document.specs.Room.{left, pair_bytes, counts_told, taken_up};

use crate::room::Room;
use crate::row::Row;
use crate::rows::Rows;
use types::bounds::{VALUE_BYTES, VALUE_ENTRIES, VALUE_UNITS};

impl<R: Rows> Row<'_, R> {
    // The room that an entry leaves of `room` bytes; none where it has too little.
    fn spend_entry(&self, n: usize, room: usize) -> Option<usize>
        ensures { result ≡ left room (pair_bytes (entry_told (nth (R.shaped self.now.rows.now).doc self.now.i) n)) }
    {
        match self.rows.entry(self.i, n) {
            Some(e) => room
                .checked_sub(e.key.len())?
                .checked_sub(e.value.byte_len()),
            None => Some(room),
        }
    }

    // The same of a row that is no text.
    fn spend_bytes(&self, room: usize) -> Option<usize>
        ensures { result ≡ left room (counts_told (nth (R.shaped self.now.rows.now).doc self.now.i)).byte_count }
    {
        let mut left = room;
        for n in 0..self.rows.size(self.i) {
            left = self.spend_entry(n, left)?;
        }
        Some(left)
    }

    // The room that an object leaves; none where it has too little.
    fn spend(&self, room: Room) -> Option<Room>
        ensures { result ≡ taken_up room (counts_told (nth (R.shaped self.now.rows.now).doc self.now.i)) }
    {
        match self.rows.text(self.i) {
            Some(t) => Some(Room {
                units: room.units.checked_sub(t.len())?,
                ..room
            }),
            None => Some(Room {
                entries: room.entries.checked_sub(self.rows.size(self.i))?,
                bytes: self.spend_bytes(room.bytes)?,
                ..room
            }),
        }
    }
}

// Whether all rows together stay within the bounds of a value.
pub fn check_counts<R: Rows>(rows: &R) -> bool
    ensures { result ≡ within_value (doc_counts (R.shaped rows.now).doc) }
{
    let mut room = Room {
        entries: VALUE_ENTRIES,
        units: VALUE_UNITS,
        bytes: VALUE_BYTES,
    };
    for i in 0..rows.count() {
        let Some(next) = (Row { rows, i }).spend(room) else {
            return false;
        };
        room = next;
    }
    true
}
