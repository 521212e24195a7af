//! The lines of a report: their words, the numbers in them, and the forms that they have.
#![tactic(auto)]

mod forms;
mod pattern;
mod spelled;
mod words;

pub use forms::fault_place;
pub use words::Words;

#[cfg(test)]
mod tests;
