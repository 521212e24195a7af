//! Runs of sweeps.

ghost use Rattle.std.specs.Prelude.{◌≡◌, ℕ, ◌+◌, ◌<◌, ◌≤◌, IfOk, [], pos, ◌≤ℤ◌};
ghost use Rattle.level_table.specs.Iterates.{drop_of};
ghost use Rattle.level_table.specs.Levels.{levels_in, opening_table};
ghost use Rattle.level_table.specs.Problem.{problem_of};
ghost use Rattle.level_table.specs.Start.{IsStart};
ghost use Rattle.level_table.specs.Tables.{HasSmallOpening, IsOpening, IsSmallTable};
ghost use Rattle.schedule_core.specs.Room.{HasRoom};
ghost use Rattle.sweep_run.specs.Runs.{IsRunFrom};
ghost use Rattle.sweep_run.specs.Sweeper.{IsRunOf, IsSweeper};

use crate::sweeper::Sweeper;
use direction_set::Directions;
use game_model::Game;
use level_table::{LevelTable, Notes, Problem};
use pay_outside::Gate;
use pay_words::Settings;
use schedule_core::laws::{fresh_notes_have_room, opening_is_opened};
use set_operator::Verdict;
use std::alloc::{AllocError, Global};
use std::thread::Threads;

/// Where a run ended: levels in units of `1/E`, why states are Empty, how many sweeps were made, and what the
/// settling test says of the levels.
#[derive(Drop)]
pub struct Run {
    pub levels: LevelTable,
    pub notes: Notes,
    pub sweeps: u64,
    pub verdict: Verdict,
}

/// Sweeps from a start until the table is supported within the slack, or until a sweep more would take more solves
/// than the budget has. A sweep counts one solve for each row. The workers run in threads, with the gate's calls around
/// each row. All memory but that of settling tests is taken before the first sweep.
pub fn run_from<R: Threads + Sync, G: Gate + Sync>(
    rt: &R,
    alloc: Global,
    game: &Game,
    dirs: &Directions,
    start: LevelTable,
    notes: Notes,
    set: &Settings,
    gate: &G,
) -> Result<Run, AllocError>
    requires players { dirs.now.players ≡ game.now.players }
    requires grid { set.now.grid ≤ 30 }
    requires start { IsStart (problem_of game.now dirs.now set.now.grid) (levels_in start) notes.list }
    requires table { IsSmallTable (problem_of game.now dirs.now set.now.grid) start }
    requires opening { HasSmallOpening (problem_of game.now dirs.now set.now.grid) }
    requires room { HasRoom game.now notes }
    requires slack { 1 ≤ set.now.slack }
    ensures { IfOk result (IsRunFrom (problem_of game.now dirs.now set.now.grid) (levels_in start) notes.list set.now.slack set.now.budget) }
{
    let most = set.budget / u64::from(start.rows());
    let w = Sweeper::new(alloc, game, dirs, set.grid, start, notes, set.workers)?;
    make_run(rt, alloc, w, set.slack, most, gate)
}

/// The same from the opening table, whose levels bound, without notes.
pub fn run_sweeps<R: Threads + Sync, G: Gate + Sync>(
    rt: &R,
    alloc: Global,
    game: &Game,
    dirs: &Directions,
    opening: LevelTable,
    set: &Settings,
    gate: &G,
) -> Result<Run, AllocError>
    requires players { dirs.now.players ≡ game.now.players }
    requires grid { set.now.grid ≤ 30 }
    requires opening { IsOpening (problem_of game.now dirs.now set.now.grid) opening }
    requires slack { 1 ≤ set.now.slack }
    ensures run { IfOk result (IsRunFrom (problem_of game.now dirs.now set.now.grid) (opening_table (problem_of game.now dirs.now set.now.grid)) [] set.now.slack set.now.budget) }
    ensures drop { IfOk result (λ r. pos r.sweeps ≤ℤ drop_of (problem_of game.now dirs.now set.now.grid) (opening_table (problem_of game.now dirs.now set.now.grid)) (levels_in r.levels)) }
{
    fresh_notes_have_room();
    opening_is_opened();
    let _law = Problem::new(game, dirs, set.grid);
    opening.states();
    let most = set.budget / u64::from(opening.rows());
    let notes = Notes::with_room(alloc, game)?;
    let w = Sweeper::new(alloc, game, dirs, set.grid, opening, notes, set.workers)?;
    make_run(rt, alloc, w, set.slack, most, gate)
}

/// Sweeps until the table is supported within the slack, or until so many sweeps were made.
fn make_run<R: Threads + Sync, G: Gate + Sync>(
    rt: &R,
    alloc: Global,
    start: Sweeper<'_>,
    slack: u64,
    most: u64,
    gate: &G,
) -> Result<Run, AllocError>
    requires sweeper { IsSweeper start }
    requires slack { 1 ≤ slack }
    ensures { IfOk result (IsRunOf start.entry slack most) }
{
    let mut w = start;
    for sweeps in 0..most {
        if let Some(verdict) = w.settling(rt, alloc, slack)? {
            return Ok(w.ended(sweeps, verdict));
        }
        w.sweep(rt, gate);
    }
    let verdict = w.verdict(rt, alloc, slack)?;
    Ok(w.ended(most, verdict))
}
