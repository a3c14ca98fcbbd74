// The memory of a screen's value: the tables that hold it, with the room that its bounds ask.
#![tactic(auto)]

pub mod memory;
