//! Runs of sweeps: a table of levels comes down from a start until it is supported within a slack or a budget is
//! spent (Judd, Yeltekin and Conklin 2003; one set of bounds for each state after Yeltekin, Cai and Judd 2017).
#![tactic(auto)]

mod run;
mod sweeper;
#[cfg(test)]
mod tests;

pub use run::{Run, run_from, run_sweeps};
