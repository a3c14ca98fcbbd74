// The tables of a value, in lent places.
ghost use Rattle.std.specs.Prelude.{◌-◌, length};
ghost use Rattle.node_table.specs.Sound.{Sound};

use node_chains::chains::Chains;

// Each node has an entry: its key and its string lie in slots of `keys` and `strings`, the units of its
// text are a row of `units`, which begins where `begins` says. `bytes` counts the bytes of all keys and
// strings. (`begins` and `units` are no PackedRows: its changes can be refused, and here the contract has the room.)
#[derive(Drop)]
pub struct Tables<'m, U> {
    pub chains: Chains<'m>,
    pub keys: &'m mut [u8],
    pub strings: &'m mut [u8],
    pub begins: &'m mut [u32],
    pub units: &'m mut [U],
    pub bytes: usize,
    ghost sound: { Sound (length chains.nodes.now - 1) chains.nodes.now chains.starts.now chains.chain.now keys.now strings.now begins.now units.now bytes },
}
