// Lent places for one value.
ghost use Rattle.std.specs.Prelude.{◌≡◌, length};
ghost use Rattle.meaning.specs.Values.{map_v, no_entry};
ghost use Rattle.value_memory.specs.Memory.{shown, Good};

use node_chains::node::Node;
use node_table::tables::Tables;
use types::bounds::{KEY_BYTES, SCALAR_BYTES, VALUE_ENTRIES};

// The root and the node of the free places come beside the entries.
pub const NODES: usize = VALUE_ENTRIES + 2;

// A row more starts where the last one ends.
pub const STARTS: usize = NODES + 1;

pub const KEYS: usize = NODES * KEY_BYTES;

pub const STRINGS: usize = NODES * SCALAR_BYTES;

// The tables of an empty map.
pub fn empty_tables<'m, U: Copy>(
    nodes: &'m mut [Node; NODES],
    starts: &'m mut [u32; STARTS],
    chain: &'m mut [u32; VALUE_ENTRIES],
    keys: &'m mut [u8; KEYS],
    strings: &'m mut [u8; STRINGS],
    begins: &'m mut [u32; STARTS],
    units: &'m mut [U],
) -> Tables<'m, U>
    requires { length units.old ≡ 32768 }
    ensures good { Good result }
    ensures empty { shown result ≡ map_v no_entry }
{
    Tables::new(nodes, starts, chain, keys, strings, begins, units)
}
