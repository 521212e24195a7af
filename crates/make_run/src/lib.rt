//! The run of a game that is made from a number: its greatest table in eight directions, and what is told of it.
#![tactic(auto)]

mod budget;
mod made;
mod solving;
mod summary;

pub use made::{Made, make, same_numbers, text_of_made};

#[cfg(test)]
mod tests;
