// Finding a key among the children of a map.
ghost use Rattle.std.specs.Prelude.{◌≡◌, ℕ, ◌+◌, ◌*◌, ◌<◌, ◌≤◌, List, length, MatchResult, Ok, Err};
ghost use Rattle.packed_rows.specs.Rows.{row};
ghost use Rattle.meaning.specs.Entries.{compare_keys};
ghost use Rattle.node_chains.specs.Chains.{Placing, item_at};
ghost use Rattle.node_table.specs.Keys.{key_of, KeysRise, Found, Missing};
ghost use Rattle.node_table.specs.Edits.{kids, key_in};

use crate::reads::slot_of;
use crate::tables::Tables;
use node_chains::node::Node;
use packed_rows::rows::row_of;
use std::cmp::Ordering;
use types::bounds::KEY_BYTES;

// Keys compare by bytes, a part of a key before the whole.
#[tactic(auto, using(crate::proofs::KeyOrder::keys_are))]
pub fn compare_keys(a: &[u8], b: &[u8]) -> Ordering
    ensures { result ≡ compare_keys a.now b.now }
{
    a.cmp(b)
}

// The key of the entry at c. Over the slices: for callers who have nodes and keys alone.
pub fn key_at<'k>(nodes: &[Node], keys: &'k [u8], c: usize) -> &'k [u8]
    requires inside { c < length nodes.now }
    requires slots { 64 * length nodes.now ≤ length keys.now }
    requires short { (item_at nodes.now c).key_len ≤ 64 }
    ensures { result.now ≡ key_of nodes.now keys.now c }
{
    slot_of(keys, KEY_BYTES, c, nodes[c].item.key_len as usize)
}

// The key of the entry at c; past the last node, an empty one.
fn key_or_empty<'k>(nodes: &[Node], keys: &'k [u8], c: usize) -> &'k [u8]
    requires slots { 64 * length nodes.now ≤ length keys.now }
    requires short { (i : ℕ) → (item_at nodes.now i).key_len ≤ 64 }
    ensures { result.now ≡ key_of nodes.now keys.now c }
{
    if c >= nodes.len() {
        return &[];
    }
    key_at(nodes, keys, c)
}

// The position of the entry with this key among entries whose keys rise, or else the one where it belongs. By
// hand: the library's search goes on after it has met the key.
fn search(nodes: &[Node], keys: &[u8], places: &[u32], key: &[u8]) -> Result<usize, usize>
    requires slots { 64 * length nodes.now ≤ length keys.now }
    requires short { (i : ℕ) → (item_at nodes.now i).key_len ≤ 64 }
    requires rising { KeysRise (key_of nodes.now keys.now) places.now }
    ensures { MatchResult result (Found (key_of nodes.now keys.now) places.now key.now) (Missing (key_of nodes.now keys.now) places.now key.now) }
{
    let mut low = 0;
    let mut high = places.len();
    while low < high {
        let mid = low + (high - low) / 2;
        match compare_keys(key_or_empty(nodes, keys, places[mid] as usize), key) {
            Ordering::Less => low = mid + 1,
            Ordering::Equal => return Ok(mid),
            Ordering::Greater => high = mid,
        }
    }
    Err(low)
}

// The position of the child of the map o with this key, or else the one where it belongs. Over the slices: for
// callers who have neither strings nor units.
pub fn find_key(
    nodes: &[Node],
    starts: &[u32],
    chain: &[u32],
    keys: &[u8],
    f: usize,
    o: usize,
    key: &[u8],
) -> Result<usize, usize>
    requires lawful { Placing f nodes.now starts.now chain.now }
    requires inside { o < f }
    requires slots { 64 * (f + 1) ≤ length keys.now }
    requires short { (i : ℕ) → (item_at nodes.now i).key_len ≤ 64 }
    requires rising { KeysRise (key_of nodes.now keys.now) (row starts.now chain.now o) }
    ensures { elim result [ Ok p ↦ Found (key_of nodes.now keys.now) (row starts.now chain.now o) key.now p | Err p ↦ Missing (key_of nodes.now keys.now) (row starts.now chain.now o) key.now p ] }
{
    search(nodes, keys, row_of(chain, starts, o), key)
}

impl<'m, U: Copy> Tables<'m, U> {
    // The position of the child of the map o with this key, or else the one where it belongs.
    pub fn find_key(&self, o: usize, key: &[u8]) -> Result<usize, usize>
        requires { KeysRise (key_in self.now) (kids self.now o) }
        ensures { MatchResult result (Found (key_in self.now) (kids self.now o) key.now) (Missing (key_in self.now) (kids self.now o) key.now) }
    {
        search(self.chains.nodes, self.keys, self.children(o), key)
    }
}
