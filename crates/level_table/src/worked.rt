//! Worked examples and laws of the definitions. Each is the contract of a function that does nothing.

ghost use Rattle.std.specs.Prelude.{◌≡◌, ℕ, ℤ, [], ◌∷◌, pos, neg_ℤ};
ghost use Rattle.level_table.specs.declared.level.Level.{Level};
ghost use Rattle.level_table.specs.Problem.{Problem};
ghost use Rattle.level_table.specs.Levels.{Levels, opening_table};
ghost use Rattle.level_table.specs.Operator.{Admissible, IsRowLevel};
ghost use Rattle.level_table.specs.Tables.{IsFirstBeyond};
ghost use Rattle.level_table.specs.Worked.{four_openings, large_problem, one_problem, prisoners_problem, whole};

/// The opening levels of the game with one profile are its payoffs and their negatives, and those of
/// the prisoner's dilemma say that each player gets at most 3 and at least 0. On the finest grid a
/// payoff of 1048577 is beyond the limit, and one of 1048576 is at the limit.
pub fn openings_of_small_games()
    ensures one_profile { four_openings one_problem ≡ pos 1 ∷ neg_ℤ (pos 1) ∷ pos 2 ∷ neg_ℤ (pos 2) ∷ [] }
    ensures prisoners { four_openings prisoners_problem ≡ pos 48 ∷ pos 0 ∷ pos 48 ∷ pos 0 ∷ [] }
    ensures beyond { IsFirstBeyond (large_problem 1048577) (pos 1125900980584448) }
    ensures at_the_limit { (number : ℤ) → ¬ IsFirstBeyond (large_problem 1048576) number }
{}

/// In the game with one profile the opening table admits its payoffs, and no others.
pub fn admissible_is_tight()
    ensures payoffs { Admissible one_problem (opening_table one_problem) 0 0 (whole (pos 1) (pos 2)) }
    ensures above { ¬ Admissible one_problem (opening_table one_problem) 0 0 (whole (pos 2) (pos 2)) }
{}

/// A law: a row has at most one row level.
pub fn row_level_is_unique()
    ensures { (p : Problem) (t : Levels) (s k : ℕ) (l m : Level) → IsRowLevel p t s k l → IsRowLevel p t s k m → l ≡ m }
{}
