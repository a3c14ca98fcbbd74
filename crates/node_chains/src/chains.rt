// The chains of children: putting a node in, taking it out, freeing what is under it.
ghost use Rattle.std.specs.Prelude.{◌-◌, ◌^◌, ◌<◌, ◌≤◌, length};
ghost use Rattle.node_chains.specs.Chains.{Placing};

use crate::node::Node;

mod calls;

// The children of each node are a row of `chain`, which begins where `starts` says; the row of the last
// node has the free places. All are lent by the caller, who bounds the memory.
#[derive(Drop)]
pub struct Chains<'m> {
    pub nodes: &'m mut [Node],
    pub starts: &'m mut [u32],
    pub chain: &'m mut [u32],
    ghost placing: { Placing (length nodes.now - 1) nodes.now starts.now chain.now },
    ghost few: { length nodes.now ≤ 2 ^ 31 },
    ghost short: { length chain.now < 2 ^ 31 },
}
