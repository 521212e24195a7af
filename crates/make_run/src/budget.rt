//! The budget that is enough for any run.

ghost use Rattle.game_model.specs.SelfGeneration.{sum_below};
ghost use Rattle.level_table.specs.Iterates.{height, number_of};
ghost use Rattle.level_table.specs.Levels.{opening_table};
ghost use Rattle.level_table.specs.Problem.{IsProblem, direction_count};
ghost use Rattle.level_table.specs.Tables.{IsOpening};
ghost use Rattle.make_run.specs.Opening.{HasTinyOpening, budget_of};
ghost use Rattle.std.specs.Prelude.{◌≡◌, ◌<◌, ◌≤◌, pos};

use bound_laws::opening_is_start;
use level_table::{Level, LevelTable, Problem};

/// The solves of one sweep more than the opening can drop: the heights of all rows and the number of states.
pub(crate) fn budget(p: &Problem, start: &LevelTable) -> u64
    requires opening { IsOpening p.now start.now }
    requires tiny { HasTinyOpening p.now }
    ensures { pos result ≡ budget_of p.now }
{
    p.rules();
    let states = u64::from(p.states());
    let rows = states * u64::from(p.directions());
    rows * (states * heights(p, start) + states + 1)
}

/// How far apart the levels of each direction and its opposite are in a state, over all directions.
fn heights(p: &Problem, start: &LevelTable) -> u64
    requires opening { IsOpening p.now start.now }
    requires tiny { HasTinyOpening p.now }
    ensures sum { pos result ≡ sum_below (λ k. height (opening_table p.now) 0 k) (direction_count p.now) }
    ensures small { result ≤ 92160 }
{
    p.rules();
    opening_is_start();
    start.states();
    let mut sum = 0;
    for k in 0..p.directions() {
        sum += height_in(p, start, k);
    }
    sum
}

/// How far apart the levels of a direction and its opposite are in a state.
fn height_in(p: &Problem, start: &LevelTable, k: u32) -> u64
    requires opening { IsOpening p.now start.now }
    requires tiny { HasTinyOpening p.now }
    requires dir { k < direction_count p.now }
    ensures height { pos result ≡ height (opening_table p.now) 0 k }
    ensures small { result ≤ 2880 }
{
    p.rules();
    opening_is_start();
    start.states();
    let opposite = p.dirs().opposite(k);
    (number(start.at(0, k)) + number(start.at(0, opposite))) as u64
}

/// The number of a level, and 0 where it is Empty.
fn number(level: Level) -> i64
    ensures { result ≡ number_of level }
{
    match level {
        Level::Empty => 0,
        Level::At(x) => x,
    }
}
