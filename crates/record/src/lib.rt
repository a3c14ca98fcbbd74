#![tactic(auto)]

mod cursor;
pub mod index;
mod places;
pub mod record;
mod scan;
