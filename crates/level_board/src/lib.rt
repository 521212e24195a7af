//! The shared words of a run: one atomic word for each level, without a lock. Between any two atomic steps the words and
//! the passes are a valid state of the core, and each call is an event of it.
#![tactic(auto)]

mod board;
#[cfg(test)]
mod tests;
mod view;

pub use board::{Board, Owner, Pass};
