//! Lists that contracts see as their items in order, with room that grows or with room for a fixed number.
#![tactic(auto)]

mod few;
mod list;

pub use few::Few;
pub use list::List;
