//! Games that are made from a number: two players with four strategies each, up to 64 states, whole payoffs from 0 to
//! 15, and the discount factor 1/2.
#![tactic(auto)]

mod draws;
mod game;
pub mod worked;

pub use game::{game_from, generated};

#[cfg(test)]
mod tests;
