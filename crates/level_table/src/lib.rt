//! Levels, tables of them, the opening, and the definitions of the operator over them.
#![tactic(auto)]

mod level;
mod notes;
mod openings;
mod problem;
mod reason;
mod table;
#[cfg(test)]
mod tests;
pub mod worked;

pub use level::{Level, at_most, lesser, level_of, word_of, word_order};
pub use notes::{Notes, most_profiles};
pub use openings::{OpeningFault, opening, unit};
pub use problem::Problem;
pub use reason::{Item, Items, Note, Reason, ReasonList};
pub use table::{LevelTable, below};
