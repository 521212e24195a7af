//! Gambit's strategic form games, from bytes to values.
#![tactic(auto)]

mod fault;
mod gambit;
mod nfg;
pub mod outcomes;
pub mod wants;
mod what;
mod worked;
pub mod writing;

pub use fault::NfgFault;
pub use gambit::{numbers, read_nfg};
pub use nfg::{Nfg, Strategies};
pub use what::What;
pub use worked::{faults_of_files, read_games_keep_their_form, writable_game};

#[cfg(test)]
mod tests;
