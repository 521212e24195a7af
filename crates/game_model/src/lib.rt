//! The game as numbers, and what self-generation means.
#![tactic(auto)]

mod game;
mod parts;
pub mod worked;

pub use game::{Game, list_fault};
pub use lists::List;
pub use parts::{GameParts, ShapeFault, ShapeWhat};
