ghost use Rattle.std.specs.Prelude.{◌≡◌, ℕ, ◌+◌, ◌-◌, ◌^◌, ◌<◌, ◌≤◌, [], length, ◌≢◌, slice_index};
ghost use Rattle.packed_rows.specs.Rows.{row};
ghost use Rattle.node_chains.specs.Chains.{Placing, Moved, item_at, lev_at, up_at};
ghost use Rattle.node_chains.specs.Changes.{free_row, kids, SameSizes, SameSlices, ItemSet, Moves, Empties, Frees, Unlinks};

use super::Chains;
use crate::node::{Item, Node};
use packed_rows::rows::{row_of, splice_row};

// How deep below the root a node can lie.
const DEPTH: usize = 17;

// Makes the child k of a the child `at` of b. Over the slices: between the two splices the chains are not in order.
fn relink(
    nodes: &mut [Node],
    starts: &mut [u32],
    chain: &mut [u32],
    a: usize,
    k: usize,
    b: usize,
    at: usize,
    item: Item,
) -> usize
    requires lawful { Placing (length nodes.old - 1) nodes.old starts.old chain.old }
    requires inside { (a < length nodes.old) × (b < length nodes.old) }
    requires apart { (b ≢ a) × (up_at nodes.old b ≢ a) }
    requires placed { (up_at nodes.old a ≡ length nodes.old - 1 → a ≡ length nodes.old - 1) × (up_at nodes.old b ≡ length nodes.old - 1 → b ≡ length nodes.old - 1) }
    requires position { at ≤ length (row starts.old chain.old b) }
    requires child { k < length (row starts.old chain.old a) }
    requires bare { row starts.old chain.old (slice_index (row starts.old chain.old a) k) ≡ [] }
    requires deep { (b ≢ length nodes.old - 1) → lev_at nodes.old b < 17 }
    requires small { (length chain.old < 2 ^ 31) × (length nodes.old ≤ 2 ^ 31) }
    ensures lawful { Placing (length nodes.old - 1) nodes.new starts.new chain.new }
    ensures moved { Moved a k b at result item nodes.old nodes.new starts.old chain.old starts.new chain.new }
{
    let n = row_of(chain, starts, a)[k] as usize;
    let depth = nodes[b].depth + 1;
    splice_row(chain, starts, a, k, 1, &[]);
    splice_row(chain, starts, b, at, 0, &[n as u32]);
    nodes[n] = Node {
        item,
        parent: b as u32,
        depth,
    };
    n
}

impl<'m> Chains<'m> {
    // The row of the free places.
    pub fn free_row(&self) -> usize
        ensures { result ≡ free_row self.now }
    {
        self.nodes.len() - 1
    }

    // The children of i, in order.
    pub fn children(&self, i: usize) -> &[u32]
        ensures { result.now ≡ kids self.now i }
    {
        row_of(self.chain, self.starts, i)
    }

    // The child k of i.
    pub fn child_at(&self, i: usize, k: usize) -> usize
        requires { k < length (kids self.now i) }
        ensures { result ≡ slice_index (kids self.now i) k }
    {
        self.children(i)[k] as usize
    }

    pub fn item(&self, i: usize) -> Item
        requires { i < length self.now.nodes.now }
        ensures { result ≡ item_at self.now.nodes.now i }
    {
        self.nodes[i].item
    }

    pub fn set_item(&mut self, i: usize, item: Item)
        requires { i < length self.old.nodes.now }
        ensures set { ItemSet i item self.old self.new }
        ensures slices { SameSlices self.old self.new }
    {
        self.nodes[i].item = item;
    }

    // Makes the child k of a, which has no children, the child `at` of b.
    pub fn move_child(&mut self, a: usize, k: usize, b: usize, at: usize, item: Item) -> usize
        requires inside { (a ≤ free_row self.old) × (b ≤ free_row self.old) }
        requires apart { (b ≢ a) × (up_at self.old.nodes.now b ≢ a) }
        requires placed { (up_at self.old.nodes.now a ≡ free_row self.old → a ≡ free_row self.old) × (up_at self.old.nodes.now b ≡ free_row self.old → b ≡ free_row self.old) }
        requires position { at ≤ length (kids self.old b) }
        requires child { k < length (kids self.old a) }
        requires bare { kids self.old (slice_index (kids self.old a) k) ≡ [] }
        requires deep { (b ≢ free_row self.old) → lev_at self.old.nodes.now b < 17 }
        ensures sizes { SameSizes self.old self.new }
        ensures slices { SameSlices self.old self.new }
        ensures moved { Moves a k b at result item self.old self.new }
    {
        relink(self.nodes, self.starts, self.chain, a, k, b, at, item)
    }

    // Makes the child k of i, which has no children, the last of the free places.
    fn free_child(&mut self, i: usize, k: usize)
        requires inside { i < free_row self.old }
        requires placed { up_at self.old.nodes.now i ≢ free_row self.old }
        requires child { k < length (kids self.old i) }
        requires bare { kids self.old (slice_index (kids self.old i) k) ≡ [] }
        ensures sizes { SameSizes self.old self.new }
        ensures slices { SameSlices self.old self.new }
        ensures freed { Frees i k self.old self.new }
    {
        let free = self.free_row();
        let end = self.children(free).len();
        let item = self.item(self.child_at(i, k));
        let _place = self.move_child(i, k, free, end, item);
    }

    // Takes the children of i away, with all under them; their places are free then.
    pub fn free_children(&mut self, i: usize, depth: usize)
        requires inside { i < free_row self.old }
        requires placed { up_at self.old.nodes.now i ≢ free_row self.old }
        requires deep { 17 ≤ lev_at self.old.nodes.now i + depth }
        ensures sizes { SameSizes self.old self.new }
        ensures slices { SameSlices self.old self.new }
        ensures emptied { Empties i depth self.old self.new }
    {
        for n in (0..self.children(i).len()).rev() {
            let child = self.child_at(i, n);
            self.free_children(child, depth - 1);
            self.free_child(i, n);
        }
    }

    // Takes what is under c away.
    pub fn empty_node(&mut self, c: usize)
        requires inside { c < free_row self.old }
        requires placed { up_at self.old.nodes.now c ≢ free_row self.old }
        ensures sizes { SameSizes self.old self.new }
        ensures slices { SameSlices self.old self.new }
        ensures emptied { Empties c 17 self.old self.new }
    {
        self.free_children(c, DEPTH);
    }

    // Takes the child k of o away, with all under it.
    pub fn unlink(&mut self, o: usize, k: usize)
        requires inside { o < free_row self.old }
        requires placed { up_at self.old.nodes.now o ≢ free_row self.old }
        requires child { k < length (kids self.old o) }
        ensures sizes { SameSizes self.old self.new }
        ensures slices { SameSlices self.old self.new }
        ensures unlinked { Unlinks o k self.old self.new }
    {
        let child = self.child_at(o, k);
        self.empty_node(child);
        self.free_child(o, k);
    }
}
