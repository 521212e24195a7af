//! A whole schedule.

ghost use Rattle.std.specs.Prelude.{◌≡◌, ◌-◌, ◌≤◌, [], length, IfOk};
ghost use Rattle.level_table.specs.Problem.{problem_of};
ghost use Rattle.level_table.specs.Tables.{IsOpening};
ghost use Rattle.schedule_core.specs.Frame.{frame_from, rows_of};
ghost use Rattle.schedule_core.specs.Replays.{IsReplay};
ghost use Rattle.schedule_core.specs.Runs.{AllBound, started};
ghost use Rattle.schedule_core.specs.Schedules.{FitsSchedule};

use crate::moving::make_move;
use direction_set::Directions;
use game_model::Game;
use level_table::{LevelTable, Note, Notes, Problem, ReasonList, most_profiles};
use schedule_core::{CoreState, Schedule};
use std::alloc::{AllocError, Global};

/// The core state that the moves of a schedule make of the opening, which every worker has seen: its words, what each
/// worker has then seen, and its notes. The words and the seen levels are a function of the arguments, and each of them
/// bounds. All memory is taken before the first move.
pub fn replay<'g>(
    alloc: Global,
    game: &'g Game,
    dirs: &'g Directions,
    grid: u32,
    opening: &LevelTable,
    schedule: &Schedule,
) -> Result<CoreState<'g>, AllocError>
    requires players { dirs.now.players ≡ game.now.players }
    requires grid { grid ≤ 30 }
    requires opening { IsOpening (problem_of game.now dirs.now grid) opening.now }
    requires fits { FitsSchedule (rows_of (frame_from game.now dirs.now grid opening.now)) schedule.now }
    ensures replay { IfOk result (λ c. IsReplay
        (started (frame_from game.now dirs.now grid opening.now) (schedule.now.workers - 1) [])
        schedule.now.moves
        c) }
    ensures workers { IfOk result (λ c. length c.readers ≡ schedule.now.workers) }
    ensures bound { IfOk result AllBound }
{
    let notes = Notes::with_room(alloc, game)?;
    let reasons = ReasonList::with_room(alloc, most_profiles(game))?;
    let mut scratch = Note { state: 0, reasons };
    let p = Problem::new(game, dirs, grid);
    opening.states();
    let mut core = CoreState::start(alloc, game, dirs, grid, opening, schedule.workers, notes)?;
    for i in 0..schedule.moves.len() {
        make_move(&p, &mut core, &mut scratch, *schedule.moves.get(i));
    }
    core.rules();
    Ok(core)
}
