//! The top call: from words and files to a report.
#![tactic(auto)]

mod answer;
mod checking;
mod ending;
mod inner;
mod outcome;
mod replaying;
mod run;
mod solve;
mod task;
mod write;

pub use ending::{exit_of, line_of};
pub use game_files::FileId;
pub use outcome::{Outcome, Status};
pub use run::payoff_run;

#[cfg(test)]
mod check_tests;
#[cfg(test)]
mod file_tests;
#[cfg(test)]
mod make_tests;
#[cfg(test)]
mod replay_tests;
#[cfg(test)]
mod tests;
