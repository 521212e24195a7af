//! A game from a number, its run, and the text of what is told.

ghost use Rattle.direction_set.specs.DirectionTable.{direction_vectors};
ghost use Rattle.make_run.specs.Made.{IsMade, made_text};
ghost use Rattle.pay_words.specs.Options.{IsMakeable};
ghost use Rattle.std.specs.Prelude.{◌≡◌, ℕ, IfOk, string_bytes};

use crate::solving::{DIRECTIONS, GRID, greatest};
use crate::summary::summary;
use case_maker::game_from;
use case_maker::worked::profiles_are_drawn;
use direction_set::Directions;
use level_table::Problem;
use pay_outside::Gate;
use std::alloc::{AllocError, Global};
use std::thread::Threads;

/// What is told of the greatest table of a game that was made from a number.
#[derive(Clone, Copy, Debug, PartialEq, Eq)]
pub struct Made {
    /// The number.
    pub seed: u32,
    /// How many states the game has.
    pub states: u32,
    /// How many states are empty.
    pub empty: u32,
    /// How many rows are finite.
    pub rows: u32,
    /// The sum of the finite levels, in sixteenths of a payoff of 1.
    pub total: i64,
}

/// Makes the game of `states` states from the seed and solves it in eight directions by so many workers, with a budget
/// that is enough for any run. The numbers are a function of the seed and the states alone.
///
/// # Errors
///
/// Want of memory.
pub fn make<R: Threads + Sync, G: Gate + Sync>(
    rt: &R,
    alloc: Global,
    seed: u32,
    states: u32,
    workers: u32,
    gate: &G,
) -> Result<Made, AllocError>
    requires { IsMakeable seed states workers }
    ensures { IfOk result (IsMade seed states) }
{
    profiles_are_drawn();
    let game = game_from(alloc, seed, states)?;
    let dirs = directions();
    let levels = greatest(rt, alloc, &game, &dirs, workers, gate)?;
    let p = Problem::new(&game, &dirs, GRID);
    Ok(summary(&p, seed, &levels))
}

/// The directions, for two players.
fn directions() -> Directions
    ensures { result ≡ record { players = 2; vectors = direction_vectors 2 8 } }
{
    Directions::of(2, DIRECTIONS).unwrap()
}

/// The text, with a line feed behind each line.
pub fn text_of_made(alloc: Global, made: &Made) -> Result<String, AllocError>
    ensures { IfOk result (λ s. string_bytes s ≡ made_text made.now) }
{
    let Made {
        seed,
        states,
        empty,
        rows,
        total,
    } = *made;
    format!(in alloc;
        "payoff make 1\nseed {seed}\nstates {states}\nempty {empty}\nrows {rows}\ntotal {total}\nend\n"
    )
}

/// A law: whatever the workers and their order, the same is told.
pub fn same_numbers()
    ensures { (seed count : ℕ) (a b : Made) → IsMade seed count a → IsMade seed count b → a ≡ b }
{}
