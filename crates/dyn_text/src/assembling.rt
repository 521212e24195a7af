//! The game that a transition file makes of the games of its states.

ghost use Rattle.std.specs.Prelude.{◌≡◌, ℕ, List, [], ◌∷◌, ◌<◌, ◌≤◌, ◌^◌, ◌⊎◌, length, map, slice_index, IfOk, IfErr, IfSome, OnOk};
ghost use Rattle.std.specs.List.{All};
ghost use Rattle.pay_frac.specs.Ratio.{Ratio};
ghost use Rattle.nfg_text.specs.declared.nfg.Nfg.{Nfg};
ghost use Rattle.nfg_text.specs.Grammar.{counts_of};
ghost use Rattle.nfg_text.specs.ReadGame.{IsReadGame};
ghost use Rattle.game_model.specs.declared.parts.ShapeFault.{ShapeFault};
ghost use Rattle.game_model.specs.Game.{counts, IsGame};
ghost use Rattle.game_model.specs.Parts.{shape_fault, shape_of, HasNoFault, IsFirstFault};
ghost use Rattle.dyn_text.specs.declared.transitions.Dyn.{Dyn};
ghost use Rattle.dyn_text.specs.declared.fault.BuildFault.{BuildFault};
ghost use Rattle.dyn_text.specs.declared.fault.BuildFault.TheVariants.{NoMemory, Shape};
ghost use Rattle.dyn_text.specs.Assembled.{game_of_lists, game_of_texts, shape_of_lists, AreTexts, IsDiscount};
ghost use Rattle.dyn_text.specs.BuildFaults.{IsBuildFault, IsUnit};

use crate::fault::BuildFault;
use crate::measures::{all_payoffs, common_denominator, discount_parts};
use crate::transitions::Dyn;
use game_model::{Game, GameParts, List, ShapeFault, list_fault};
use nfg_text::{Nfg, Strategies};
use pay_frac::Frac;
use std::alloc::{AllocError, Global};
use token_text::Text;

/// The game of two players that the texts make: the strategies and payoffs of each state's game, the successors
/// of the transition file, the least common denominator of all payoffs, and the same discount for both players.
/// State `s` has the game at `s`.
///
/// # Errors
///
/// The first state whose successors don't fit, and there the first test that fails: a successor for each profile,
/// each successor a state. Then the limits: the denominator of the discount at most 1024, the common denominator
/// at most 2^40, each payoff over it at most 2^26 in absolute value. And `NoMemory`.
pub fn assemble(
    alloc: Global,
    dynamic: &Dyn,
    games: &[Nfg],
    discount: &Frac,
) -> Result<Game, BuildFault>
    requires texts { AreTexts dynamic.now games.now }
    requires discount { IsDiscount discount.now }
    ensures game { IfOk result (λ g. (unit : ℕ) × IsUnit games.now unit × (g ≡ game_of_texts dynamic.now games.now discount.now unit)) }
    ensures no_fault { OnOk result ((e : BuildFault) → IsBuildFault dynamic.now games.now discount.now e → ⊥) }
    ensures is_game { IfOk result IsGame }
    ensures fault { IfErr result (λ e. (e ≡ NoMemory) ⊎ IsBuildFault dynamic.now games.now discount.now e) }
{
    let strategies = all_counts(alloc, games)?;
    let next = all_successors(alloc, dynamic)?;
    test_shape(&strategies, games, &next)?;
    let fraction = discount_parts(discount)?;
    let unit = common_denominator(games)?;
    let payoffs = all_payoffs(alloc, unit, games)?;
    let parts = parts_of(alloc, strategies, payoffs, next, unit, fraction)?;
    match Game::build(parts) {
        Ok(game) => Ok(game),
        Err(fault) => Err(BuildFault::Shape(fault)),
    }
}

/// The parts of a game of two players with payoffs over `1/unit` and the same discount, numerator and denominator.
fn parts_of(
    alloc: Global,
    strategies: Vec<Vec<u32>>,
    payoffs: Vec<Vec<i64>>,
    next: Vec<Vec<u32>>,
    unit: u64,
    discount: (u32, u32),
) -> Result<GameParts, AllocError>
    requires { unit ≤ 2 ^ 40 }
    ensures { IfOk result (λ parts. shape_of parts ≡ game_of_lists (map (λ w. w.items) strategies.items) (map (λ w. w.items) payoffs.items) (map (λ w. w.items) next.items) unit discount.0 discount.1) }
{
    let discounts = twice(alloc, discount.0)?;
    Ok(GameParts {
        players: 2,
        strategies,
        payoffs,
        next,
        denominator: unit as i64,
        discounts,
        q: discount.1,
    })
}

/// The list of a number for each of two players.
fn twice(alloc: Global, number: u32) -> Result<Vec<u32>, AllocError>
    ensures { IfOk result (λ v. v.items ≡ number ∷ number ∷ []) }
{
    Ok(vec![in alloc; number; 2]?)
}

/// The numbers of a list.
fn copied(alloc: Global, list: &List<u32>) -> Result<Vec<u32>, AllocError>
    ensures { IfOk result (λ v. v.items ≡ list.now) }
{
    let mut items = Vec::new(alloc);
    for i in 0..list.len() {
        items.push(*list.get(i))?;
    }
    Ok(items)
}

/// The lengths of lists of names.
fn lengths(alloc: Global, names: &List<List<Text>>) -> Result<Vec<u32>, AllocError>
    ensures { IfOk result (λ v. v.items ≡ map length names.now) }
{
    let mut items = Vec::new(alloc);
    for i in 0..names.len() {
        items.push(names.get(i).len())?;
    }
    Ok(items)
}

/// The players' numbers of strategies.
fn game_counts(alloc: Global, game: &Nfg) -> Result<Vec<u32>, AllocError>
    ensures { IfOk result (λ v. v.items ≡ counts_of game.now.strategies) }
{
    match &game.strategies {
        Strategies::Counts(list) => copied(alloc, list),
        Strategies::Names(names) => lengths(alloc, names),
    }
}

/// The numbers of strategies of each state.
fn all_counts(alloc: Global, games: &[Nfg]) -> Result<Vec<Vec<u32>>, AllocError>
    ensures { IfOk result (λ v. map (λ w. w.items) v.items ≡ map (λ n. counts_of n.strategies) games.now) }
{
    let mut items = Vec::new(alloc);
    for game in games {
        items.push(game_counts(alloc, game)?)?;
    }
    Ok(items)
}

/// The successors of each state.
fn all_successors(alloc: Global, dynamic: &Dyn) -> Result<Vec<Vec<u32>>, AllocError>
    ensures { IfOk result (λ v. map (λ w. w.items) v.items ≡ map (λ s. s.next) dynamic.now.states) }
{
    let mut items = Vec::new(alloc);
    for i in 0..dynamic.states.len() {
        items.push(copied(alloc, &dynamic.states.get(i).next)?)?;
    }
    Ok(items)
}

/// The first test that the lists of state `s` fail.
fn state_fault(
    strategies: &Vec<Vec<u32>>,
    games: &[Nfg],
    next: &Vec<Vec<u32>>,
    s: u32,
) -> Option<ShapeFault>
    requires known { s < length games.now }
    requires strategies { length strategies.now.items ≡ length games.now }
    requires next { length next.now.items ≡ length games.now }
    requires small { (j : ℕ) → j < length (counts (shape_of_lists (map (λ w. w.items) strategies.now.items) games.now (map (λ w. w.items) next.now.items)) s) → slice_index (counts (shape_of_lists (map (λ w. w.items) strategies.now.items) games.now (map (λ w. w.items) next.now.items)) s) j ≤ 16 }
    ensures first { result ≡ shape_fault (shape_of_lists (map (λ w. w.items) strategies.now.items) games.now (map (λ w. w.items) next.now.items)) s }
    ensures named { IfSome result (λ f. f.state ≡ s) }
{
    let i = s as usize;
    list_fault(
        2,
        games.len() as u64,
        s,
        &strategies[i],
        u64::from(games[i].payoffs.len()),
        &next[i],
    )
}

/// The first state whose lists don't fit.
fn test_shape(
    strategies: &Vec<Vec<u32>>,
    games: &[Nfg],
    next: &Vec<Vec<u32>>,
) -> Result<(), BuildFault>
    requires few { length games.now ≤ 64 }
    requires read { All IsReadGame games.now }
    requires strategies { map (λ w. w.items) strategies.now.items ≡ map (λ n. counts_of n.strategies) games.now }
    requires next { length next.now.items ≡ length games.now }
    ensures no_fault { OnOk result (HasNoFault (shape_of_lists (map (λ w. w.items) strategies.now.items) games.now (map (λ w. w.items) next.now.items))) }
    ensures fault { IfErr result (λ e. (f : ShapeFault) × (e ≡ Shape f) × IsFirstFault (shape_of_lists (map (λ w. w.items) strategies.now.items) games.now (map (λ w. w.items) next.now.items)) f) }
{
    for s in 0..games.len() {
        match state_fault(strategies, games, next, s as u32) {
            Some(fault) => return Err(BuildFault::Shape(fault)),
            None => {}
        }
    }
    Ok(())
}

/// A law: texts have one fault at most.
pub fn one_build_fault()
    ensures { (d : Dyn) (games : List Nfg) (discount : Ratio) (e f : BuildFault) → IsBuildFault d games discount e → IsBuildFault d games discount f → e ≡ f }
{}
