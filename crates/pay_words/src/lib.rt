//! The words of the command line, in any order and with defaults.
#![tactic(auto)]

mod command;
mod options;

pub use command::{Command, UsageFault, command_laws, command_of};
pub use options::{MOST_INNER, MOST_WORKERS, Settings};

#[cfg(test)]
mod tests;
