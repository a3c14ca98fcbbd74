#![tactic(auto)]

pub mod bounds;
pub mod error;
pub mod types;
pub mod value;
