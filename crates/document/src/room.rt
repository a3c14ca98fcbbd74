// What a document may still hold: entries, text bytes, and bytes of keys and
// scalars.
#[derive(Clone, Copy)]
pub struct Room {
    pub entries: usize,
    pub units: usize,
    pub bytes: usize,
}
