#![tactic(auto)]

mod places;
pub mod rows;
pub mod shelf;
pub mod table;
#[cfg(test)]
mod tests;
mod windows;
