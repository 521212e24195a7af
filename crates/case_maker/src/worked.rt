//! Laws of the games that are made, and rows of one. Each is the contract of a function that does nothing.

ghost use Rattle.case_maker.specs.Generated.{generated_game, next_drawn, payoff_drawn};
ghost use Rattle.game_model.specs.Game.{counts, payoff_at, profile_count, states, strategy_at, successor};
ghost use Rattle.std.specs.Prelude.{◌≡◌, ◌<◌, ◌%◌, ◌/◌, ◌≤◌, ℕ, pos, unsigned_abs};

/// Each profile of each state has the payoffs and the successor that are drawn for it, and the strategies of its number,
/// with the first player's as the fastest. No payoff is above 15.
pub fn profiles_are_drawn()
    ensures payoffs { (seed count s a i : ℕ) → s < count → a < 16 → i < 2 → payoff_at (generated_game seed count) s a i ≡ pos (payoff_drawn seed s a i) }
    ensures successors { (seed count s a : ℕ) → s < count → a < 16 → successor (generated_game seed count) s a ≡ next_drawn seed count s a }
    ensures few { (seed count s a i : ℕ) → s < states (generated_game seed count) → a < profile_count (counts (generated_game seed count) s) → i < 2 → unsigned_abs (payoff_at (generated_game seed count) s a i) ≤ 15 }
    ensures first { (seed count s a : ℕ) → s < count → strategy_at (generated_game seed count) s a 0 ≡ a % 4 }
    ensures second { (seed count s a : ℕ) → s < count → strategy_at (generated_game seed count) s a 1 ≡ a / 4 % 4 }
{}

/// In the game that is made from 1 with eight states, the first payoffs of state 0 are 6 and 14, 11 and 11, 2 and 11, and
/// states 1, 3 and 4 follow.
pub fn first_profiles()
    ensures profile_0 { (payoff_at (generated_game 1 8) 0 0 0 ≡ pos 6) × (payoff_at (generated_game 1 8) 0 0 1 ≡ pos 14) × (successor (generated_game 1 8) 0 0 ≡ 1) }
    ensures profile_1 { (payoff_at (generated_game 1 8) 0 1 0 ≡ pos 11) × (payoff_at (generated_game 1 8) 0 1 1 ≡ pos 11) × (successor (generated_game 1 8) 0 1 ≡ 3) }
    ensures profile_2 { (payoff_at (generated_game 1 8) 0 2 0 ≡ pos 2) × (payoff_at (generated_game 1 8) 0 2 1 ≡ pos 11) × (successor (generated_game 1 8) 0 2 ≡ 4) }
{}
