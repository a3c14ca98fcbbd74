// Many rows in one lent slice of places, which move as one.
#![tactic(auto)]

pub mod packed;
pub mod rows;
#[cfg(test)]
mod tests;
