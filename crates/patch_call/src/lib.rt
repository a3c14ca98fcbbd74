// The seven calls that log and builder share, over borrowed bytes, and what
// of a call is refused wherever it is made.
#![tactic(auto)]

pub mod call;
mod check;
mod content;
#[cfg(test)]
mod tests;

pub use check::check_call;
