//! The text of a report, and the report itself.
#![tactic(auto)]

mod nearest;
mod noted;
mod read;
mod replay;
mod report;
mod rules;
mod sets;
#[cfg(test)]
mod tests;
mod text;

pub use read::{ReportFault, read_report};
pub use replay::{Replay, text_of_replay};
pub use report::Report;
pub use text::{fraction_word_law, text_of};
