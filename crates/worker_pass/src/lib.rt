//! Workers at a board: each draws rows, loads the levels that a row's operator reads, and lowers the row to its row
//! level. In a sweep the owner takes in what they saw, and clears the states in which nothing is admissible
//! (Judd, Yeltekin and Conklin 2003; one set of bounds for each state after Yeltekin, Cai and Judd 2017).
#![tactic(auto)]

mod clearing;
mod joining;
mod loading;
mod scratch;
mod sweeping;
#[cfg(test)]
mod tests;
mod updating;
mod working;

pub use scratch::Scratch;
pub use sweeping::{SweepNote, crew, sweep};
pub use updating::{UpdateNote, update};
pub use working::Worker;
