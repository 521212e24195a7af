//! The greatest table of a game whose opening levels are small.

ghost use Rattle.level_table.specs.Levels.{levels_in, opening_table};
ghost use Rattle.level_table.specs.Problem.{problem_of};
ghost use Rattle.level_table.specs.Supported.{IsGreatest};
ghost use Rattle.level_table.specs.Tables.{IsOpening, IsSmallTable};
ghost use Rattle.make_run.specs.Opening.{IsSmallGame};
ghost use Rattle.std.specs.Prelude.{◌≡◌, IfOk};

use crate::budget::budget;
use bound_laws::drop_grows;
use direction_set::Directions;
use game_model::Game;
use level_table::{LevelTable, OpeningFault, Problem, opening};
use pay_frac::Frac;
use pay_outside::Gate;
use pay_words::Settings;
use std::alloc::{AllocError, Global};
use std::thread::Threads;
use sweep_run::run_sweeps;

/// In how many directions a game is solved.
pub(crate) const DIRECTIONS: u32 = 8;

/// The power of two of the grid.
pub(crate) const GRID: u32 = 4;

/// The greatest table: that of a run with slack 1 and a budget that is enough for it to settle.
pub(crate) fn greatest<R: Threads + Sync, G: Gate + Sync>(
    rt: &R,
    alloc: Global,
    game: &Game,
    dirs: &Directions,
    workers: u32,
    gate: &G,
) -> Result<LevelTable, AllocError>
    requires game { IsSmallGame game.now }
    requires players { dirs.now.players ≡ 2 }
    ensures table { IfOk result (IsSmallTable (problem_of game.now dirs.now 4)) }
    ensures greatest { IfOk result (λ t. IsGreatest
        (problem_of game.now dirs.now 4)
        (opening_table (problem_of game.now dirs.now 4))
        (levels_in t)) }
{
    drop_grows();
    let p = Problem::new(game, dirs, GRID);
    let start = opened(alloc, game, dirs)?;
    let set = Settings {
        discount: Frac::of(1, 2),
        directions: Some(DIRECTIONS),
        workers,
        budget: budget(&p, &start),
        grid: GRID,
        slack: 1,
        inner: Some(0),
    };
    let run = run_sweeps(rt, alloc, game, dirs, start, &set, gate)?;
    Ok(run.levels)
}

/// The opening table, whose levels are far below their limit.
fn opened(alloc: Global, game: &Game, dirs: &Directions) -> Result<LevelTable, AllocError>
    requires game { IsSmallGame game.now }
    requires players { dirs.now.players ≡ 2 }
    ensures { IfOk result (IsOpening (problem_of game.now dirs.now 4)) }
{
    dirs.rules();
    match opening(alloc, game, dirs, GRID) {
        Ok(levels) => Ok(levels),
        Err(OpeningFault::NoMemory) => Err(AllocError),
        Err(OpeningFault::Beyond { .. }) => unreachable!(),
    }
}
