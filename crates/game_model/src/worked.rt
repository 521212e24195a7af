//! Worked examples and laws of the definitions. Each is the contract of a function that does nothing, but for `dilemma`, which
//! makes the parts of one game.

ghost use Rattle.std.specs.Prelude.{◌≡◌, ℕ, ◌<◌, ◌≤◌, List, [], ◌∷◌, IfOk, length, slice_index};
ghost use Rattle.game_model.specs.Game.{IsProfile, profile_count, profile_number, strategies_of};
ghost use Rattle.game_model.specs.Parts.{shape_of};
ghost use Rattle.game_model.specs.SelfGeneration.{IsSelfGenerating};
ghost use Rattle.game_model.specs.Worked.{prisoners, both, rewarded, promised_more, weightless, third_entry, one_punishment, third_strategy};

use super::parts::GameParts;
use std::alloc::{AllocError, Global};

/// In the prisoner's dilemma, defection for ever and cooperation under the threat of it are
/// self-generating at discount factor 1/2, which is the least, and not at 499/1000.
pub fn cooperation_needs_patience()
    ensures patient { IsSelfGenerating (prisoners 1 2) both }
    ensures impatient { ¬ IsSelfGenerating (prisoners 499 1000) both }
{}

/// No neighbour that breaks a single rule is self-generating.
pub fn neighbours_are_refused()
    ensures rewarded { ¬ IsSelfGenerating (prisoners 1 2) rewarded }
    ensures promised_more { ¬ IsSelfGenerating (prisoners 1 2) promised_more }
    ensures weightless { ¬ IsSelfGenerating (prisoners 1 2) weightless }
    ensures third_entry { ¬ IsSelfGenerating (prisoners 1 2) third_entry }
    ensures one_punishment { ¬ IsSelfGenerating (prisoners 1 2) one_punishment }
    ensures third_strategy { ¬ IsSelfGenerating (prisoners 1 2) third_strategy }
{}

/// Strategies and the numbers of profiles are inverse to each other, and the first player's strategy
/// is the fastest: with three strategies of the first player and two of the second, profile 4 has
/// strategies 1 and 1.
pub fn profiles_are_numbered()
    ensures of_strategies { (sizes strategies : List ℕ) → IsProfile sizes strategies → strategies_of sizes (profile_number sizes strategies) ≡ strategies }
    ensures of_number { (sizes : List ℕ) (a : ℕ) → ((i : ℕ) → i < length sizes → 1 ≤ slice_index sizes i) → a < profile_count sizes → profile_number sizes (strategies_of sizes a) ≡ a }
    ensures profile { (sizes : List ℕ) (a : ℕ) → ((i : ℕ) → i < length sizes → 1 ≤ slice_index sizes i) → IsProfile sizes (strategies_of sizes a) }
    ensures worked { strategies_of (3 ∷ 2 ∷ []) 4 ≡ 1 ∷ 1 ∷ [] }
{}

/// The parts of the prisoner's dilemma at discount factor 1/2, on which tests of the crates above rest.
pub fn dilemma(alloc: Global) -> Result<GameParts, AllocError>
    ensures { IfOk result (λ p. shape_of p ≡ prisoners 1 2) }
{
    let sizes = vec![in alloc; 2, 2]?;
    let payoffs = vec![in alloc; 2, 2, 3, 0, 0, 3, 1, 1]?;
    let next = vec![in alloc; 0, 0, 0, 0]?;
    Ok(GameParts {
        players: 2,
        strategies: vec![in alloc; sizes]?,
        payoffs: vec![in alloc; payoffs]?,
        next: vec![in alloc; next]?,
        denominator: 1,
        discounts: vec![in alloc; 1, 1]?,
        q: 2,
    })
}
