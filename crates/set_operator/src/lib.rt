//! The operator: the row levels that a table of levels admits, exactly, with what reaches them, and why a state
//! admits nothing (Judd, Yeltekin and Conklin 2003; one set of bounds for each state after Yeltekin, Cai and Judd 2017).
#![tactic(auto)]

mod alive;
mod best;
mod boxes;
mod lesser;
mod lines;
mod most;
mod prepared;
mod program;
mod reasons;
mod row;
mod search;
mod sides;

pub use alive::is_alive;
pub use lesser::Lesser;
pub use prepared::{Prepared, stays_prepared};
pub use row::{RowAnswer, Support, Verdict, row_level};
