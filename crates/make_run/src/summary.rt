//! What is counted of a table.

ghost use Rattle.game_model.specs.Game.{states};
ghost use Rattle.game_model.specs.SelfGeneration.{sum_below};
ghost use Rattle.level_table.specs.Iterates.{number_of};
ghost use Rattle.level_table.specs.Levels.{IsSmall, level_at, levels_in};
ghost use Rattle.level_table.specs.Tables.{IsSmallTable};
ghost use Rattle.make_run.specs.Summary.{IsSummary, empty_count, finite_count};
ghost use Rattle.std.specs.Prelude.{◌≡◌, ℕ, ◌<◌, length, pos};

use crate::made::Made;
use level_table::{Level, LevelTable, Problem};

/// The numbers of a table.
pub(crate) fn summary(p: &Problem, seed: u32, levels: &LevelTable) -> Made
    requires { IsSmallTable p.now levels.now }
    ensures seed { result.seed ≡ seed }
    ensures states { result.states ≡ states p.now.game }
    ensures numbers { IsSummary p.now (levels_in levels.now) result }
{
    let (rows, total) = finite(levels);
    Made {
        seed,
        states: p.states(),
        empty: empty_states(levels),
        rows,
        total,
    }
}

/// How many states are empty, by their first rows.
fn empty_states(levels: &LevelTable) -> u32
    ensures { pos result ≡ sum_below (λ s. empty_count (levels_in levels.now s 0)) levels.now.states }
{
    let mut count = 0;
    for s in 0..levels.states() {
        if levels.at(s, 0) == Level::Empty {
            count += 1;
        }
    }
    count
}

/// How many rows are finite, and the sum of their levels.
fn finite(levels: &LevelTable) -> (u32, i64)
    requires { (row : ℕ) → row < length levels.now.levels → IsSmall (level_at levels.now row) }
    ensures rows { pos result.0 ≡ sum_below (λ row. finite_count (level_at levels.now row)) (length levels.now.levels) }
    ensures total { result.1 ≡ sum_below (λ row. number_of (level_at levels.now row)) (length levels.now.levels) }
{
    levels.states();
    let mut rows = 0;
    let mut total = 0;
    for row in 0..levels.rows() {
        if let Level::At(x) = levels.get(row) {
            rows += 1;
            total += x;
        }
    }
    (rows, total)
}
