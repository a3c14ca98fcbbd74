ghost use Rattle.std.specs.Prelude.{◌≡◌, ℕ, ◌+◌, ◌-◌, ◌*◌, ◌<◌, ◌≤◌, length, slice_index};
ghost use Rattle.types.specs.Limits.{limits};

// Where reading stands in a record of `total` bytes: the bytes that are left,
// and how many entries were read before them. An entry has 16 bytes at least.
#[derive(Clone, Copy)]
pub struct Cursor<'a> {
    pub total: usize,
    pub rest: &'a [u8],
    pub entries: usize,
    ghost typed: { (k : ℕ) → slice_index rest.now k < 256 },
    ghost fit: { total ≤ limits.record_bytes },
    ghost room: { 16 * entries + length rest.now ≤ total },
}

impl<'a> Cursor<'a> {
    // Before the first entry.
    pub fn start(total: usize, rest: &'a [u8]) -> Cursor<'a>
        requires fit { total ≤ limits.record_bytes }
        requires room { length rest.now ≤ total }
        ensures total { result.total ≡ total }
        ensures rest { result.rest.now ≡ rest.now }
        ensures entries { result.entries ≡ 0 }
    {
        Cursor {
            total,
            rest,
            entries: 0,
        }
    }

    // Where the bytes begin that are left.
    pub fn place(self) -> u32
        ensures { result ≡ self.entry.total - length self.entry.rest.now }
    {
        (self.total - self.rest.len()) as u32
    }

    // The same, over no more bytes. By its fields: `..self` is not for a
    // struct with ghost fields.
    pub fn over(self, rest: &'a [u8]) -> Cursor<'a>
        requires { length rest.now ≤ length self.rest.now }
        ensures total { result.total ≡ self.entry.total }
        ensures rest { result.rest.now ≡ rest.now }
        ensures entries { result.entries ≡ self.entry.entries }
    {
        Cursor {
            total: self.total,
            rest,
            entries: self.entries,
        }
    }
}
