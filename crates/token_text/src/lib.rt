//! Texts as tokens with places: braces, quoted texts and words, with blanks between.
#![tactic(auto)]

mod kept;
mod tokens;
mod worked;

pub use kept::{Text, put, text};
pub use tokens::{Lexeme, LexemeKind, Lexer};
pub use worked::token_places;

#[cfg(test)]
mod tests;
