//! The game that files make: a stage game's file, or a transition file and the file of each of its states.
#![tactic(auto)]

mod fault;
mod first;
mod laws;
mod loading;
mod reading;

pub use fault::{FileId, GameFault};
pub use first::First;
pub use laws::game_laws;
pub use loading::{LONGEST_FILE, load};
pub use reading::read_game;
