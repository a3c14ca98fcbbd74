// Reading what the entries under a node weigh.
ghost use Rattle.std.specs.Prelude.{◌≡◌, ℕ, ◌+◌, ◌^◌, ◌<◌, length};
ghost use Rattle.packed_rows.specs.Rows.{row};
ghost use Rattle.node_chains.specs.Tree.{Under, weight};
ghost use Rattle.node_chains.specs.Chains.{item_at, under};
ghost use Rattle.node_table.specs.Held.{Used, item_bytes};
ghost use Rattle.node_table.specs.Edits.{nodes_in, kids, tree_under};

use crate::tables::Tables;
use node_chains::node::{Item, Node};
use packed_rows::rows::row_of;

// The bytes of an entry's key and string.
pub(crate) fn item_bytes(item: Item) -> usize
    ensures { result ≡ item_bytes item }
{
    item.key_len as usize + item.string_len as usize
}

// The bytes of the entry at c and of all under it.
fn tree_bytes(nodes: &[Node], starts: &[u32], chain: &[u32], f: usize, c: usize) -> usize
    requires lawful { (bytes : ℕ) × Used f nodes.now starts.now chain.now bytes }
    requires used { Under (row starts.now chain.now) 0 c }
    requires small { f < 2 ^ 31 }
    ensures inside { c < length nodes.now }
    ensures sum { result ≡ weight (under starts.now chain.now 17 c) (λ i. item_bytes (item_at nodes.now i)) }
{
    let mut sum = item_bytes(nodes[c].item);
    for child in row_of(chain, starts, c) {
        sum += tree_bytes(nodes, starts, chain, f, *child as usize);
    }
    sum
}

// The bytes of all entries under c, without those of c itself. Over the slices: for callers who have the nodes
// and their chains alone.
pub fn bytes_under(nodes: &[Node], starts: &[u32], chain: &[u32], f: usize, c: usize) -> usize
    requires lawful { (bytes : ℕ) × Used f nodes.now starts.now chain.now bytes }
    requires used { Under (row starts.now chain.now) 0 c }
    requires small { f < 2 ^ 31 }
    ensures { result + item_bytes (item_at nodes.now c) ≡ weight (under starts.now chain.now 17 c) (λ i. item_bytes (item_at nodes.now i)) }
{
    tree_bytes(nodes, starts, chain, f, c) - item_bytes(nodes[c].item)
}

impl<'m, U: Copy> Tables<'m, U> {
    // The bytes of the entry at c and of all under it.
    fn tree_bytes(&self, c: usize) -> usize
        requires { Under (kids self.now) 0 c }
        ensures inside { c < length (nodes_in self.now) }
        ensures sum { result ≡ weight (tree_under self.now c) (λ i. item_bytes (item_at (nodes_in self.now) i)) }
    {
        let chains = &self.chains;
        tree_bytes(
            chains.nodes,
            chains.starts,
            chains.chain,
            chains.free_row(),
            c,
        )
    }

    // The bytes of all entries under c, without those of c itself.
    pub fn bytes_under(&self, c: usize) -> usize
        requires { Under (kids self.now) 0 c }
        ensures { result + item_bytes (item_at (nodes_in self.now) c) ≡ weight (tree_under self.now c) (λ i. item_bytes (item_at (nodes_in self.now) i)) }
    {
        self.tree_bytes(c) - item_bytes(self.item(c))
    }
}
