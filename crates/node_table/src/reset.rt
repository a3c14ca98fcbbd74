// Making the tables hold an empty map.
ghost use Rattle.std.specs.Prelude.{◌≡◌, ℕ, ◌+◌, ◌-◌, ◌*◌, ◌^◌, ◌<◌, ◌≤◌, List, [], length, slice_index, slice_index_or, ◌≢◌};
ghost use Rattle.packed_rows.specs.Rows.{row, Packed};
ghost use Rattle.node_chains.specs.Tree.{node, none};
ghost use Rattle.node_chains.specs.Chains.{no_item, blank};
ghost use Rattle.node_chains.specs.Changes.{free_row};
ghost use Rattle.node_table.specs.Held.{Used, Spelled, held, root_item, empty_root};
ghost use Rattle.node_table.specs.Edits.{nodes_in, kids, tree_of};

use crate::tables::Tables;
use node_chains::chains::Chains;
use node_chains::node::{Item, Node};

fn fill_starts(starts: &mut [u32], f: usize)
    requires { (length starts.old ≡ f + 2) × ((0 < f) × (f < 2 ^ 31)) }
    ensures zeros { (j : ℕ) → j ≤ f → slice_index starts.new j ≡ 0 }
    ensures end { slice_index starts.new (f + 1) ≡ f - 1 }
{
    starts.fill(0);
    starts[f + 1] = f as u32 - 1;
}

fn fill_chain(chain: &mut [u32])
    requires { length chain.old < 2 ^ 31 }
    ensures { (j : ℕ) → j < length chain.old → slice_index chain.new j ≡ j + 1 }
{
    for (j, place) in chain.iter_mut().enumerate() {
        *place = j as u32 + 1;
    }
}

fn fill_nodes(nodes: &mut [Node], f: usize)
    requires { (length nodes.old ≡ f + 1) × ((0 < f) × (f < 2 ^ 31)) }
    ensures taken { (j : ℕ) → 0 < j → j < f → slice_index_or nodes.new j blank ≡ record { item = no_item; parent = f; depth = 1 } }
    ensures root { slice_index_or nodes.new 0 blank ≡ record { item = root_item; parent = 0; depth = 0 } }
    ensures top { slice_index_or nodes.new f blank ≡ record { item = root_item; parent = f; depth = 0 } }
{
    let free = Node {
        item: Item::NONE,
        parent: f as u32,
        depth: 1,
    };
    nodes.fill(free);
    nodes[0] = Node {
        item: Item::ROOT,
        parent: 0,
        depth: 0,
    };
    nodes[f] = Node {
        item: Item::ROOT,
        parent: f as u32,
        depth: 0,
    };
}

// An empty map at the root; all other places are free. Over the slices: nothing is in order before it.
pub fn reset<U: Copy>(
    nodes: &mut [Node],
    starts: &mut [u32],
    chain: &mut [u32],
    unit_starts: &mut [u32],
    bytes: &mut usize,
    f: usize,
)
    requires sizes { (length nodes.old ≡ f + 1) × ((length starts.old ≡ f + 2) × ((length chain.old + 1 ≡ f) × (length unit_starts.old ≡ f + 2))) }
    requires small { f < 2 ^ 31 }
    ensures lawful { Used f nodes.new starts.new chain.new bytes.new }
    ensures room { length (row starts.new chain.new f) + 1 ≡ f }
    ensures bare { (i : ℕ) → (i ≢ f) → row starts.new chain.new i ≡ [] }
    ensures units { (us : List U) → Packed unit_starts.new us × Spelled f unit_starts.new us × ((i : ℕ) → row unit_starts.new us i ≡ []) }
    ensures empty { (keys strings : List ℕ) (us : List U) → held nodes.new starts.new chain.new keys strings (row unit_starts.new us) ≡ node empty_root none }
{
    fill_starts(starts, f);
    fill_chain(chain);
    fill_nodes(nodes, f);
    unit_starts.fill(0);
    *bytes = 0;
}

impl<'m, U: Copy> Tables<'m, U> {
    // Tables that hold an empty map; all other places are free.
    pub fn new(
        nodes: &'m mut [Node],
        starts: &'m mut [u32],
        chain: &'m mut [u32],
        keys: &'m mut [u8],
        strings: &'m mut [u8],
        begins: &'m mut [u32],
        units: &'m mut [U],
    ) -> Tables<'m, U>
        requires nodes { (1 < length nodes.old) × (length nodes.old ≤ 2 ^ 31) }
        requires rows { (length starts.old ≡ length nodes.old + 1) × ((length chain.old + 2 ≡ length nodes.old) × (length begins.old ≡ length nodes.old + 1)) }
        requires slots { (length keys.old ≡ 64 * length nodes.old) × (length strings.old ≡ 256 * length nodes.old) }
        requires units { length units.old < 2 ^ 31 }
        ensures empty { tree_of result ≡ node empty_root none }
        ensures bare { (i : ℕ) → (i ≢ free_row result.chains) → kids result i ≡ [] }
        ensures room { length (kids result (free_row result.chains)) ≡ length chain.old }
        ensures sizes { (length (nodes_in result) ≡ length nodes.old) × (length result.units.now ≡ length units.old) }
        ensures chain { length result.chains.chain.now ≡ length chain.old }
    {
        let mut bytes = 0;
        let free = nodes.len() - 1;
        reset::<U>(nodes, starts, chain, begins, &mut bytes, free);
        let chains = Chains {
            nodes,
            starts,
            chain,
        };
        Tables {
            chains,
            keys,
            strings,
            begins,
            units,
            bytes,
        }
    }
}
