//! A checker of self-generating correspondences (Abreu, Pearce and Stacchetti 1990), with a punishment at the state that
//! a deviation reaches (Yeltekin, Cai and Judd 2017), and their text.
#![tactic(auto)]

mod checker;
mod claim;
mod corr;
mod corr_text;
mod entry;
mod fault;
mod limits;
mod lottery;
mod measures;
mod reading;
mod sums;
mod text_fault;
mod writing;
mod written;

pub use checker::{Checked, Refused, check};
pub use corr::Corr;
pub use corr_text::read_corr;
pub use entry::Entry;
pub use fault::{CorrFault, Why};
pub use limits::keeps_limits;
pub use lottery::Lottery;
pub use sums::{number_of, place_of};
pub use text_fault::CorrTextFault;
pub use writing::write_corr;

#[cfg(test)]
mod tests;
#[cfg(test)]
mod text_tests;
