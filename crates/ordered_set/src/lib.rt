// The total order as an interface with its laws, and the one ordered set over any such order.
#![tactic(auto)]

pub mod order;
pub mod orders;
pub mod set;
#[cfg(test)]
mod tests;
