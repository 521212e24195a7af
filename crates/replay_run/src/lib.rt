//! Replays: what the moves of a schedule make of the words, of what each worker has seen, and of the notes.
#![tactic(auto)]

mod moving;
mod replaying;
#[cfg(test)]
mod tests;

pub use replaying::replay;
