#![tactic(auto)]

mod check;
pub mod checked;
mod counts;
pub mod document;
mod heads;
mod names;
mod path;
pub mod rising;
mod room;
mod row;
pub mod rows;
pub mod step;
pub mod view;

pub use check::check_rows;
pub use heads::check_rising;
pub use path::get_path;
