//! What the schedule in a file makes of the opening of a game.

ghost use Rattle.std.specs.Prelude.{◌≡◌, ◌≤◌, length, IfOk, IfErr};
ghost use Rattle.level_table.specs.Problem.{problem_of};
ghost use Rattle.level_table.specs.Tables.{IsOpening};
ghost use Rattle.pay_words.specs.Options.{AreWithinLimits};
ghost use Rattle.schedule_core.specs.Schedules.{FitsSchedule};
ghost use Rattle.game_files.specs.Loads.{AreLoads, counts_of};
ghost use Rattle.game_files.specs.Files.{MayAskStates};
ghost use Rattle.solve_run.specs.Replays.{IsMadeBy, IsReplayFault, IsReplayed, IsScheduleFault, IsScheduleOf, schedule_refused};

use crate::solve::{directions, opening_of};
use direction_set::Directions;
use game_files::{FileId, GameFault, load, read_game};
use game_model::Game;
use level_table::LevelTable;
use pay_outside::Shelf;
use pay_words::Settings;
use replay_run::replay;
use report_text::Replay;
use schedule_core::{Schedule, ScheduleFault, read_schedule};
use std::alloc::{AllocError, Global};

/// How many bytes a file other than a game's may have.
const LONGEST_SECOND: usize = 16_777_216;

/// The words and notes that the moves of the schedule in one file make of the opening of the game in another.
pub(crate) fn replayed<S: Shelf>(
    alloc: Global,
    shelf: &mut S,
    file: &str,
    schedule: &str,
    set: &Settings,
) -> Result<Replay, GameFault>
    requires may_ask { S.may_ask shelf.old file.now }
    requires may_ask_states { MayAskStates (S.bytes shelf.old) (S.may_ask shelf.old) file.now }
    requires may_ask_schedule { S.may_ask shelf.old schedule.now }
    requires limits { AreWithinLimits set.now }
    ensures found { IfOk result (IsReplayed (S.bytes shelf.old) file.now schedule.now set.now) }
    ensures why { IfErr result (IsReplayFault (S.bytes shelf.old) file.now schedule.now set.now
        (counts_of S.faults S.overlong S.loads shelf.old)
        (counts_of S.faults S.overlong S.loads shelf.new)) }
{
    let game = read_game(alloc, shelf, file, &set.discount)?;
    let dirs = directions(set);
    let start = opening_of(alloc, &game, &dirs, set.grid)?;
    let moves = read_moves(alloc, shelf, schedule, start.rows())?;
    match made(alloc, &game, &dirs, set.grid, &start, &moves) {
        Ok(replay) => Ok(replay),
        Err(_) => Err(GameFault::NoMemory),
    }
}

/// The schedule in the file of this name, for a table of so many rows.
fn read_moves<S: Shelf>(
    alloc: Global,
    shelf: &mut S,
    name: &str,
    rows: u32,
) -> Result<Schedule, GameFault>
    requires may_ask { S.may_ask shelf.old name.now }
    ensures read { IfOk result (IsScheduleOf (S.bytes shelf.old) name.now rows) }
    ensures fits { IfOk result (FitsSchedule rows) }
    ensures why { IfErr result (IsScheduleFault (S.bytes shelf.old) name.now rows
        (counts_of S.faults S.overlong S.loads shelf.old)
        (counts_of S.faults S.overlong S.loads shelf.new)) }
    ensures loads { AreLoads 1
        (counts_of S.faults S.overlong S.loads shelf.old)
        (counts_of S.faults S.overlong S.loads shelf.new) }
{
    let bytes = load(alloc, shelf, FileId::Second, name, LONGEST_SECOND)?;
    match read_schedule(alloc, &bytes, rows) {
        Ok(schedule) => Ok(schedule),
        Err(fault) => Err(text_fault(fault)),
    }
}

/// The first fault of the text of a schedule.
fn text_fault(fault: ScheduleFault) -> GameFault
    ensures { result ≡ schedule_refused fault }
{
    let file = FileId::Second;
    match fault {
        ScheduleFault::Bad { at } => GameFault::BadInput { file, at },
        ScheduleFault::Limit { what, number, .. } => GameFault::Beyond { what, number },
        ScheduleFault::NoMemory => GameFault::NoMemory,
    }
}

/// What the moves make of the opening.
fn made(
    alloc: Global,
    game: &Game,
    dirs: &Directions,
    grid: u32,
    start: &LevelTable,
    schedule: &Schedule,
) -> Result<Replay, AllocError>
    requires players { dirs.now.players ≡ game.now.players }
    requires grid { grid ≤ 30 }
    requires opening { IsOpening (problem_of game.now dirs.now grid) start.now }
    requires fits { FitsSchedule (length start.now.levels) schedule.now }
    ensures made { IfOk result (IsMadeBy game.now dirs.now grid start.now schedule.now) }
{
    start.states();
    let core = replay(alloc, game, dirs, grid, start, schedule)?;
    let (levels, notes) = core.into_parts();
    Ok(Replay {
        moves: u64::from(schedule.moves.len()),
        levels,
        notes,
    })
}
