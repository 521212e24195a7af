//! The settling test: whether each finite level of a table is supported within a slack, with what supports it.
#![tactic(auto)]

mod parts;
mod settle;

pub use parts::{settled, settled_by_states};
pub use settle::{choice_laws, failing_row, verdict_of};
