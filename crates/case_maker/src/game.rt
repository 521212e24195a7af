//! The parts of a game that is made from a number.

ghost use Rattle.case_maker.specs.Generated.{generated_game, number_after, payoffs_drawn, successors_drawn};
ghost use Rattle.game_model.specs.Game.{IsGame};
ghost use Rattle.game_model.specs.Parts.{HasNoFault, KeepLimits, shape_of};
ghost use Rattle.std.specs.Prelude.{◌≡◌, ◌≤◌, ◌<◌, ◌^◌, ◌∷◌, [], IfOk, OnOk};

use crate::draws::{Draws, PROFILES, STRATEGIES};
use game_model::{Game, GameParts};
use std::alloc::{AllocError, Global};

/// What is drawn of one state.
#[derive(Drop)]
struct Stage {
    payoffs: Vec<i64>,
    next: Vec<u32>,
}

/// The parts of the game of `count` states that is made from the seed. Three draws a profile, state by state and
/// profile by profile, give the payoff of player 0, that of player 1, and the state that follows.
///
/// # Errors
///
/// Want of memory.
pub fn generated(alloc: Global, seed: u32, count: u32) -> Result<GameParts, AllocError>
    requires seed { seed < 2 ^ 31 }
    requires some_state { 1 ≤ count }
    requires few_states { count ≤ 64 }
    ensures parts { IfOk result (λ p. shape_of p ≡ generated_game seed count) }
    ensures limits { IfOk result (λ p. KeepLimits (shape_of p)) }
    ensures no_fault { IfOk result (λ p. HasNoFault (shape_of p)) }
{
    let mut draws = Draws { last: seed };
    let mut strategies = Vec::new(alloc);
    let mut payoffs = Vec::new(alloc);
    let mut next = Vec::new(alloc);
    for _ in 0..count {
        let stage = stage_drawn(alloc, &mut draws, count)?;
        strategies.push(sizes(alloc)?)?;
        payoffs.push(stage.payoffs)?;
        next.push(stage.next)?;
    }
    Ok(GameParts {
        players: 2,
        strategies,
        payoffs,
        next,
        denominator: 1,
        discounts: vec![in alloc; 1, 1]?,
        q: 2,
    })
}

/// The game of these parts.
///
/// # Errors
///
/// Want of memory.
pub fn game_from(alloc: Global, seed: u32, count: u32) -> Result<Game, AllocError>
    requires seed { seed < 2 ^ 31 }
    requires some_state { 1 ≤ count }
    requires few_states { count ≤ 64 }
    ensures game { IfOk result (λ g. g ≡ generated_game seed count) }
    ensures is_game { OnOk result (IsGame (generated_game seed count)) }
{
    let parts = generated(alloc, seed, count)?;
    match Game::build(parts) {
        Ok(game) => Ok(game),
        Err(_) => unreachable!(),
    }
}

/// The numbers of strategies of both players.
fn sizes(alloc: Global) -> Result<Vec<u32>, AllocError>
    ensures { IfOk result (λ v. v.items ≡ 4 ∷ 4 ∷ []) }
{
    Ok(vec![in alloc; STRATEGIES, STRATEGIES]?)
}

/// What is drawn of a state.
fn stage_drawn(alloc: Global, draws: &mut Draws, count: u32) -> Result<Stage, AllocError>
    requires { 1 ≤ count }
    ensures last { OnOk result (draws.new.last ≡ number_after draws.old.last 48) }
    ensures payoffs { IfOk result (λ s. s.payoffs.items ≡ payoffs_drawn draws.old.last 0) }
    ensures next { IfOk result (λ s. s.next.items ≡ successors_drawn draws.old.last count 0) }
{
    let mut payoffs = Vec::new(alloc);
    let mut next = Vec::new(alloc);
    for _ in 0..PROFILES {
        draws.profile(count, &mut payoffs, &mut next)?;
    }
    Ok(Stage { payoffs, next })
}
