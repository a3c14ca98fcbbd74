#![tactic(auto)]

mod code;
mod entry_type;
pub mod limit;
pub mod read;
