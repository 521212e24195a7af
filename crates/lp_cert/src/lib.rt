//! Rows of linear programs of one to three variables, and certificates: multipliers that prove a bound of the objective, or that no point meets the rows.
#![tactic(auto)]

mod certificates;
mod multipliers;
mod rows;

pub use certificates::{bound_every_point, meet_no_point, proves_bound, proves_empty};
pub use multipliers::{Dual, Farkas, Multipliers};
pub use rows::{Row, Rows};
