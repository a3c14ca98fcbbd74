// The memory of a screen's value: nodes in tables, with packed rows of their children and units.
#![tactic(auto)]

pub mod edits;
pub mod find;
pub mod in_place;
pub mod reads;
pub mod reset;
pub mod tables;
#[cfg(test)]
mod tests;
pub mod values;
pub mod weigh;
