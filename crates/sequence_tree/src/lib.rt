// The one sequence over a lent slice, and the functions over slices that it stands on.
#![tactic(auto)]

pub mod error;
pub mod places;
pub mod sequence;
#[cfg(test)]
mod tests;
