// Changes of the tree in the tables: each at one place and nowhere else.
ghost use Rattle.std.specs.Prelude.{◌≡◌, ℕ, ◌+◌, ◌*◌, ◌^◌, ◌<◌, ◌≤◌, true, List, [], ◌∷◌, length};
ghost use Rattle.sequence_tree.specs.Lists.{Replaced};
ghost use Rattle.packed_rows.specs.Rows.{row, Packed};
ghost use Rattle.node_chains.specs.Tree.{node, none, splice_kids, pruned, relabel, Under};
ghost use Rattle.node_chains.specs.Chains.{item_at, lev_at};
ghost use Rattle.node_chains.specs.Changes.{free_row, SameSizes, SameSlices};
ghost use Rattle.node_table.specs.Kinds.{branches};
ghost use Rattle.node_table.specs.Held.{Used, Dry, Spelled, Changed, Stands, Cleared, Wiped, held, below, item_bytes, refilled};
ghost use Rattle.node_table.specs.Edits.{nodes_in, kids, Edited};

use crate::tables::Tables;
use crate::weigh::item_bytes;
use node_chains::chains::Chains;
use node_chains::node::{Content, Item, Node};
use packed_rows::rows::{row_of, splice_row};
use sequence_tree::places::replace_range;
use types::bounds::{KEY_BYTES, SCALAR_BYTES};

// Writes xs from the place `at` on.
fn write_at(s: &mut [u8], at: usize, xs: &[u8])
    requires { at + length xs.now ≤ length s.old }
    ensures { Replaced s.old s.new (length s.old) at (length xs.now) xs.now }
{
    let all = s.len();
    replace_range(s, all, at, xs.len(), xs);
}

// The key of c is written into its slot.
fn write_key(keys: &mut [u8], c: usize, key: &[u8])
    requires { 64 * c + length key.now ≤ length keys.old }
    ensures { Replaced keys.old keys.new (length keys.old) (64 * c) (length key.now) key.now }
{
    write_at(keys, KEY_BYTES * c, key);
}

// And so is its string.
fn write_string(strings: &mut [u8], c: usize, string: &[u8])
    requires { 256 * c + length string.now ≤ length strings.old }
    ensures { Replaced strings.old strings.new (length strings.old) (256 * c) (length string.now) string.now }
{
    write_at(strings, SCALAR_BYTES * c, string);
}

// How many places are free.
fn free_count(chains: &Chains) -> usize
    ensures { result ≡ length (row chains.now.starts.now chains.now.chain.now (free_row chains.now)) }
{
    chains.children(chains.free_row()).len()
}

// Takes the units of c away.
fn clear_units<U: Copy>(begins: &mut [u32], units: &mut [U], c: usize)
    requires packed { Packed begins.old units.old }
    requires inside { c + 1 < length begins.old }
    requires small { length units.old < 2 ^ 31 }
    ensures { Cleared c begins.old units.old begins.new units.new }
{
    let n = row_of(units, begins, c).len();
    if n > 0 {
        splice_row(units, begins, c, 0, n, &[]);
    }
}

// The free places from the one at `from` on lose what they held. Over the parts: the tables are not in order
// until all is done.
fn wipe<U: Copy>(
    chains: &mut Chains,
    begins: &mut [u32],
    units: &mut [U],
    bytes: &mut usize,
    from: usize,
)
    requires inside { from ≤ length (row chains.old.starts.now chains.old.chain.now (free_row chains.old)) }
    requires packed { Packed begins.old units.old }
    requires rows { length begins.old ≡ free_row chains.old + 2 }
    requires counted { bytes.old ≡ below (free_row chains.old) (λ i. item_bytes (item_at chains.old.nodes.now i)) }
    requires small { length units.old < 2 ^ 31 }
    ensures rows { (chains.new.starts.now ≡ chains.old.starts.now) × (chains.new.chain.now ≡ chains.old.chain.now) }
    ensures sizes { length chains.new.nodes.now ≡ length chains.old.nodes.now }
    ensures slices { SameSlices chains.old chains.new }
    ensures wiped { Wiped (free_row chains.old) from (length (row chains.old.starts.now chains.old.chain.now (free_row chains.old))) chains.old.nodes.now chains.new.nodes.now chains.old.starts.now chains.old.chain.now begins.old begins.new units.old units.new bytes.new }
{
    let free = chains.free_row();
    // By place: the chain cannot be lent while its nodes change.
    for p in from..chains.children(free).len() {
        let c = chains.child_at(free, p);
        *bytes -= item_bytes(chains.item(c));
        chains.set_item(c, Item::NONE);
        clear_units(begins, units, c);
    }
}

// What c holds gives way to new content, with no children and no units; its key stays. Over the parts, too.
fn refill<U: Copy>(
    chains: &mut Chains,
    begins: &mut [u32],
    units: &mut [U],
    bytes: &mut usize,
    c: usize,
    content: Content,
    conflict: bool,
    string_len: usize,
)
    requires lawful { Used (free_row chains.old) chains.old.nodes.now chains.old.starts.now chains.old.chain.now bytes.old }
    requires dry { Dry chains.old.nodes.now (row begins.old units.old) }
    requires used { Under (row chains.old.starts.now chains.old.chain.now) 0 c }
    requires below { 0 < c }
    requires short { string_len ≤ 256 }
    requires packed { Packed begins.old units.old }
    requires rows { length begins.old ≡ free_row chains.old + 2 }
    requires small { length units.old < 2 ^ 31 }
    ensures sizes { SameSizes chains.old chains.new }
    ensures slices { SameSlices chains.old chains.new }
    ensures lawful { Used (free_row chains.old) chains.new.nodes.now chains.new.starts.now chains.new.chain.now bytes.new }
    ensures packed { Packed begins.new units.new }
    ensures dry { Dry chains.new.nodes.now (row begins.new units.new) }
    ensures spelled { Spelled (free_row chains.old) begins.old units.old → Spelled (free_row chains.old) begins.new units.new }
    ensures changed { (keys strings strings2 string : List ℕ) → length string ≡ string_len → length strings ≡ 256 * (free_row chains.old + 1) → length strings2 ≡ length strings → Replaced strings strings2 (length strings) (256 * c) (length string) string → Changed (row chains.old.starts.now chains.old.chain.now) c (λ x. relabel (refilled content conflict string) (pruned x)) (held chains.old.nodes.now chains.old.starts.now chains.old.chain.now keys strings (row begins.old units.old)) (held chains.new.nodes.now chains.new.starts.now chains.new.chain.now keys strings2 (row begins.new units.new)) }
{
    let free = chains.free_row();
    let from = chains.children(free).len();
    chains.empty_node(c);
    wipe(chains, begins, units, bytes, from);
    clear_units(begins, units, c);
    let item = chains.item(c);
    *bytes = *bytes - item.string_len as usize + string_len;
    let item = Item {
        content,
        conflict,
        string_len: string_len as u32,
        ..item
    };
    chains.set_item(c, item);
}

// The last free place becomes the child `at` of the container o, and holds a new entry. Over the parts: they may
// lie in the tables or outside.
fn put_child<U: Copy>(
    chains: &mut Chains,
    keys: &mut [u8],
    strings: &mut [u8],
    bytes: &mut usize,
    o: usize,
    at: usize,
    key: &[u8],
    content: Content,
    conflict: bool,
    string: &[u8],
)
    requires lawful { Used (free_row chains.old) chains.old.nodes.now chains.old.starts.now chains.old.chain.now bytes.old }
    requires used { Under (row chains.old.starts.now chains.old.chain.now) 0 o }
    requires container { branches (item_at chains.old.nodes.now o).content ≡ true }
    requires deep { lev_at chains.old.nodes.now o < 17 }
    requires position { at ≤ length (row chains.old.starts.now chains.old.chain.now o) }
    requires room { 0 < length (row chains.old.starts.now chains.old.chain.now (free_row chains.old)) }
    requires short { (length key.now ≤ 64) × (length string.now ≤ 256) }
    requires slots { (length keys.old ≡ 64 * (free_row chains.old + 1)) × (length strings.old ≡ 256 * (free_row chains.old + 1)) }
    ensures sizes { SameSizes chains.old chains.new }
    ensures slices { SameSlices chains.old chains.new }
    ensures lawful { Used (free_row chains.old) chains.new.nodes.now chains.new.starts.now chains.new.chain.now bytes.new }
    ensures dry { (u : ℕ → List U) → Dry chains.old.nodes.now u → Dry chains.new.nodes.now u }
    ensures changed { (u : ℕ → List U) → Dry chains.old.nodes.now u → Changed (row chains.old.starts.now chains.old.chain.now) o (splice_kids at 0 (node (record { key = key.now; content = content; conflict = conflict; string = string.now; units = [] }) none ∷ [])) (held chains.old.nodes.now chains.old.starts.now chains.old.chain.now keys.old strings.old u) (held chains.new.nodes.now chains.new.starts.now chains.new.chain.now keys.new strings.new u) }
    ensures stands { Stands (row chains.old.starts.now chains.old.chain.now) (row chains.new.starts.now chains.new.chain.now) o }
{
    let item = Item {
        content,
        conflict,
        key_len: key.len() as u32,
        string_len: string.len() as u32,
    };
    let free = chains.free_row();
    let last = chains.children(free).len() - 1;
    let n = chains.child_at(free, last);
    write_key(keys, n, key);
    write_string(strings, n, string);
    let _place = chains.move_child(free, last, o, at, item);
    *bytes += key.len() + string.len();
}

// The child k of o goes, with all under it, and so do their units and bytes. Over the parts, too.
fn cut_child<U: Copy>(
    chains: &mut Chains,
    begins: &mut [u32],
    units: &mut [U],
    bytes: &mut usize,
    o: usize,
    k: usize,
)
    requires lawful { Used (free_row chains.old) chains.old.nodes.now chains.old.starts.now chains.old.chain.now bytes.old }
    requires dry { Dry chains.old.nodes.now (row begins.old units.old) }
    requires used { Under (row chains.old.starts.now chains.old.chain.now) 0 o }
    requires child { k < length (row chains.old.starts.now chains.old.chain.now o) }
    requires packed { Packed begins.old units.old }
    requires rows { length begins.old ≡ free_row chains.old + 2 }
    requires small { length units.old < 2 ^ 31 }
    ensures sizes { SameSizes chains.old chains.new }
    ensures slices { SameSlices chains.old chains.new }
    ensures lawful { Used (free_row chains.old) chains.new.nodes.now chains.new.starts.now chains.new.chain.now bytes.new }
    ensures packed { Packed begins.new units.new }
    ensures dry { Dry chains.new.nodes.now (row begins.new units.new) }
    ensures spelled { Spelled (free_row chains.old) begins.old units.old → Spelled (free_row chains.old) begins.new units.new }
    ensures changed { (keys strings : List ℕ) → Changed (row chains.old.starts.now chains.old.chain.now) o (splice_kids k 1 []) (held chains.old.nodes.now chains.old.starts.now chains.old.chain.now keys strings (row begins.old units.old)) (held chains.new.nodes.now chains.new.starts.now chains.new.chain.now keys strings (row begins.new units.new)) }
    ensures stands { Stands (row chains.old.starts.now chains.old.chain.now) (row chains.new.starts.now chains.new.chain.now) o }
{
    let from = free_count(chains);
    chains.unlink(o, k);
    wipe(chains, begins, units, bytes, from);
}

// A new entry becomes the child `at` of the container o, with no children and no units. Over the slices: for
// callers whose units lie elsewhere.
pub fn insert_child<U: Copy>(
    nodes: &mut [Node],
    starts: &mut [u32],
    chain: &mut [u32],
    keys: &mut [u8],
    strings: &mut [u8],
    bytes: &mut usize,
    f: usize,
    o: usize,
    at: usize,
    key: &[u8],
    content: Content,
    conflict: bool,
    string: &[u8],
)
    requires lawful { Used f nodes.old starts.old chain.old bytes.old }
    requires used { Under (row starts.old chain.old) 0 o }
    requires container { branches (item_at nodes.old o).content ≡ true }
    requires deep { lev_at nodes.old o < 17 }
    requires position { at ≤ length (row starts.old chain.old o) }
    requires room { 0 < length (row starts.old chain.old f) }
    requires short { (length key.now ≤ 64) × (length string.now ≤ 256) }
    requires slots { (length keys.old ≡ 64 * (f + 1)) × (length strings.old ≡ 256 * (f + 1)) }
    requires small { (length chain.old < 2 ^ 31) × (f < 2 ^ 31) }
    ensures lawful { Used f nodes.new starts.new chain.new bytes.new }
    ensures dry { (u : ℕ → List U) → Dry nodes.old u → Dry nodes.new u }
    ensures changed { (u : ℕ → List U) → Dry nodes.old u → Changed (row starts.old chain.old) o (splice_kids at 0 (node (record { key = key.now; content = content; conflict = conflict; string = string.now; units = [] }) none ∷ [])) (held nodes.old starts.old chain.old keys.old strings.old u) (held nodes.new starts.new chain.new keys.new strings.new u) }
    ensures stands { Stands (row starts.old chain.old) (row starts.new chain.new) o }
{
    let mut chains = Chains {
        nodes,
        starts,
        chain,
    };
    put_child::<U>(
        &mut chains,
        keys,
        strings,
        bytes,
        o,
        at,
        key,
        content,
        conflict,
        string,
    );
}

// The child k of o goes, with all under it, and so do their units and bytes. Over the slices, without keys and strings.
pub fn remove_child<U: Copy>(
    nodes: &mut [Node],
    starts: &mut [u32],
    chain: &mut [u32],
    unit_starts: &mut [u32],
    units: &mut [U],
    bytes: &mut usize,
    f: usize,
    o: usize,
    k: usize,
)
    requires lawful { Used f nodes.old starts.old chain.old bytes.old }
    requires dry { Dry nodes.old (row unit_starts.old units.old) }
    requires used { Under (row starts.old chain.old) 0 o }
    requires child { k < length (row starts.old chain.old o) }
    requires packed { Packed unit_starts.old units.old }
    requires rows { length unit_starts.old ≡ f + 2 }
    requires small { (length chain.old < 2 ^ 31) × ((f < 2 ^ 31) × (length units.old < 2 ^ 31)) }
    ensures lawful { Used f nodes.new starts.new chain.new bytes.new }
    ensures packed { Packed unit_starts.new units.new }
    ensures dry { Dry nodes.new (row unit_starts.new units.new) }
    ensures spelled { Spelled f unit_starts.old units.old → Spelled f unit_starts.new units.new }
    ensures changed { (keys strings : List ℕ) → Changed (row starts.old chain.old) o (splice_kids k 1 []) (held nodes.old starts.old chain.old keys strings (row unit_starts.old units.old)) (held nodes.new starts.new chain.new keys strings (row unit_starts.new units.new)) }
    ensures stands { Stands (row starts.old chain.old) (row starts.new chain.new) o }
{
    let mut chains = Chains {
        nodes,
        starts,
        chain,
    };
    cut_child(&mut chains, unit_starts, units, bytes, o, k);
}

// What c holds gives way to new content, with no children and no units; its key stays. Over the slices, without keys.
pub fn replace_content<U: Copy>(
    nodes: &mut [Node],
    starts: &mut [u32],
    chain: &mut [u32],
    unit_starts: &mut [u32],
    units: &mut [U],
    strings: &mut [u8],
    bytes: &mut usize,
    f: usize,
    c: usize,
    content: Content,
    conflict: bool,
    string: &[u8],
)
    requires lawful { Used f nodes.old starts.old chain.old bytes.old }
    requires dry { Dry nodes.old (row unit_starts.old units.old) }
    requires used { Under (row starts.old chain.old) 0 c }
    requires below { 0 < c }
    requires short { length string.now ≤ 256 }
    requires slots { length strings.old ≡ 256 * (f + 1) }
    requires packed { Packed unit_starts.old units.old }
    requires rows { length unit_starts.old ≡ f + 2 }
    requires small { (length chain.old < 2 ^ 31) × ((f < 2 ^ 31) × (length units.old < 2 ^ 31)) }
    ensures lawful { Used f nodes.new starts.new chain.new bytes.new }
    ensures packed { Packed unit_starts.new units.new }
    ensures dry { Dry nodes.new (row unit_starts.new units.new) }
    ensures spelled { Spelled f unit_starts.old units.old → Spelled f unit_starts.new units.new }
    ensures changed { (keys : List ℕ) → Changed (row starts.old chain.old) c (λ x. relabel (refilled content conflict string.now) (pruned x)) (held nodes.old starts.old chain.old keys strings.old (row unit_starts.old units.old)) (held nodes.new starts.new chain.new keys strings.new (row unit_starts.new units.new)) }
{
    let mut chains = Chains {
        nodes,
        starts,
        chain,
    };
    refill(
        &mut chains,
        unit_starts,
        units,
        bytes,
        c,
        content,
        conflict,
        string.len(),
    );
    write_string(strings, c, string);
}

impl<'m, U: Copy> Tables<'m, U> {
    // A new entry becomes the child `at` of the container o, with no children and no units.
    pub fn insert_child(
        &mut self,
        o: usize,
        at: usize,
        key: &[u8],
        content: Content,
        conflict: bool,
        string: &[u8],
    )
        requires used { Under (kids self.old) 0 o }
        requires container { branches (item_at (nodes_in self.old) o).content ≡ true }
        requires deep { lev_at (nodes_in self.old) o < 17 }
        requires position { at ≤ length (kids self.old o) }
        requires room { 0 < length (kids self.old (free_row self.old.chains)) }
        requires short { (length key.now ≤ 64) × (length string.now ≤ 256) }
        ensures edited { Edited o (splice_kids at 0 (node (record { key = key.now; content = content; conflict = conflict; string = string.now; units = [] }) none ∷ [])) self.old self.new }
        ensures stands { Stands (kids self.old) (kids self.new) o }
    {
        put_child::<U>(
            &mut self.chains,
            self.keys,
            self.strings,
            &mut self.bytes,
            o,
            at,
            key,
            content,
            conflict,
            string,
        );
    }

    // The child k of o goes, with all under it, and so do their units and bytes.
    pub fn remove_child(&mut self, o: usize, k: usize)
        requires used { Under (kids self.old) 0 o }
        requires child { k < length (kids self.old o) }
        ensures edited { Edited o (splice_kids k 1 []) self.old self.new }
        ensures stands { Stands (kids self.old) (kids self.new) o }
    {
        cut_child(
            &mut self.chains,
            self.begins,
            self.units,
            &mut self.bytes,
            o,
            k,
        );
    }

    // What c holds gives way to new content, with no children and no units; its key stays.
    pub fn replace_content(&mut self, c: usize, content: Content, conflict: bool, string: &[u8])
        requires used { Under (kids self.old) 0 c }
        requires below { 0 < c }
        requires short { length string.now ≤ 256 }
        ensures { Edited c (λ x. relabel (refilled content conflict string.now) (pruned x)) self.old self.new }
    {
        refill(
            &mut self.chains,
            self.begins,
            self.units,
            &mut self.bytes,
            c,
            content,
            conflict,
            string.len(),
        );
        write_at(self.strings, SCALAR_BYTES * c, string);
    }
}
