// The nodes of a value in plain tables, with packed rows of their children.
#![tactic(auto)]

pub mod chains;
pub mod node;
