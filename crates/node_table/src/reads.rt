// Reading the tree in the tables.
ghost use Rattle.std.specs.Prelude.{◌≡◌, ℕ, ◌+◌, ◌*◌, ◌<◌, ◌≤◌, length};
ghost use Rattle.packed_rows.specs.Rows.{row};
ghost use Rattle.node_chains.specs.Chains.{item_at};
ghost use Rattle.node_table.specs.Held.{slot};
ghost use Rattle.node_table.specs.Edits.{nodes_in, kids, key_in, string_in, units_at, units_used};

use crate::tables::Tables;
use node_chains::node::Item;
use packed_rows::rows::row_of;
use types::bounds::{KEY_BYTES, SCALAR_BYTES};

// The first n bytes of the slot i, where each is `width` bytes wide.
pub(crate) fn slot_of(bytes: &[u8], width: usize, i: usize, n: usize) -> &[u8]
    requires { width * i + n ≤ length bytes.now }
    ensures { result.now ≡ slot width bytes.now i n }
{
    let from = width * i;
    &bytes[from..from + n]
}

// The units of the text at c. Over the slices, which may be in any order.
pub fn text_at<'a, U: Copy>(begins: &[u32], units: &'a [U], c: usize) -> &'a [U]
    ensures { result.now ≡ row begins.now units.now c }
{
    row_of(units, begins, c)
}

impl<'m, U: Copy> Tables<'m, U> {
    // What the entry at c is.
    pub fn item(&self, c: usize) -> Item
        requires { c < length (nodes_in self.now) }
        ensures { result ≡ item_at (nodes_in self.now) c }
    {
        self.chains.item(c)
    }

    // The places of the children of c.
    pub fn children(&self, c: usize) -> &[u32]
        ensures { result.now ≡ kids self.now c }
    {
        self.chains.children(c)
    }

    // The key of the entry at c; past the last node, an empty one.
    pub fn key(&self, c: usize) -> &[u8]
        ensures { result.now ≡ key_in self.now c }
    {
        if c >= self.chains.nodes.len() {
            return &[];
        }
        slot_of(self.keys, KEY_BYTES, c, self.item(c).key_len as usize)
    }

    // The bytes of the string at c.
    pub fn string(&self, c: usize) -> &[u8]
        requires { c < length (nodes_in self.now) }
        ensures { result.now ≡ string_in self.now c (item_at (nodes_in self.now) c).string_len }
    {
        let n = self.item(c).string_len as usize;
        slot_of(self.strings, SCALAR_BYTES, c, n)
    }

    // The units of the text at c.
    pub fn text(&self, c: usize) -> &[U]
        ensures { result.now ≡ units_at self.now c }
    {
        text_at(self.begins, self.units, c)
    }

    // How many units all texts have.
    pub fn unit_count(&self) -> usize
        ensures { result ≡ units_used self.now }
    {
        self.begins[self.begins.len() - 1] as usize
    }
}
