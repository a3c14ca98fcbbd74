// The memory that patches lie in, and the receipt for a batch of them.
#![tactic(auto)]

pub mod batch;
mod making;
pub mod memory;
pub mod path;
pub mod rows;
#[cfg(test)]
mod tests;
pub mod view;
