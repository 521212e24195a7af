//! Transition files: the states of a dynamic game, the file of each state's stage game, and its successors. And the
//! game that such a file makes of the games of its states.
#![tactic(auto)]

mod assembling;
mod fault;
mod file_name;
mod measures;
mod reading;
mod repeated;
mod transitions;
mod worked;
mod writing;

pub use assembling::{assemble, one_build_fault};
pub use fault::BuildFault;
pub use file_name::FileName;
pub use reading::read_dyn;
pub use repeated::{single, single_fits};
pub use transitions::{Dyn, DynState};
pub use worked::{faults_of_files, files_have_states, games_of_files, writable_transitions};
pub use writing::write_dyn;

#[cfg(test)]
mod tests;
