//! One move of a schedule.

ghost use Rattle.std.specs.Prelude.{◌≡◌, ◌+◌, ◌/◌, ◌<◌, length, IfSome, IfNone};
ghost use Rattle.level_table.specs.declared.level.Level.TheVariants.{Empty, At};
ghost use Rattle.level_table.specs.Levels.{levels_in};
ghost use Rattle.level_table.specs.Notes.{HasRoomFor};
ghost use Rattle.level_table.specs.Reasons.{AreReasonsOver};
ghost use Rattle.schedule_core.specs.declared.moves.Move.TheVariants.{Lower, Clear};
ghost use Rattle.schedule_core.specs.Core.{IsWorking, seen_by};
ghost use Rattle.schedule_core.specs.Frame.{IsRowLevelOf, rows_of};
ghost use Rattle.schedule_core.specs.Replays.{IsMoved};
ghost use Rattle.schedule_core.specs.Schedules.{FitsMove};
ghost use Rattle.replay_run.specs.Ready.{IsReady};

use level_table::{Note, Problem};
use schedule_core::{CoreState, Event, Move, note, step};
use set_operator::{RowAnswer, row_level};

/// Makes a move. The note in the scratch has room for the reasons of any state, before and after. No table is copied,
/// and no memory is taken.
pub(crate) fn make_move(p: &Problem<'_>, core: &mut CoreState<'_>, scratch: &mut Note, next: Move)
    requires same { core.old.frame.problem ≡ p.now }
    requires fits { FitsMove (length core.old.readers) (rows_of core.old.frame) next }
    requires ready { IsReady core.old }
    requires room { HasRoomFor p.now.game (length scratch.old.reasons.list + scratch.old.reasons.spare) }
    ensures moved { IsMoved core.old next core.new }
    ensures ready { IsReady core.new }
    ensures frame { core.new.frame ≡ core.old.frame }
    ensures workers { length core.new.readers ≡ length core.old.readers }
    ensures room { HasRoomFor p.now.game (length scratch.new.reasons.list + scratch.new.reasons.spare) }
{
    core.rules();
    match next {
        Move::Load { w, row } => step(core, Event::Load { w, row }),
        Move::Lower { w, row } => lower(p, core, scratch, w, row),
        Move::Clear { row } => clear(p, core, scratch, row),
    }
}

/// Lowers a row to the row level of what the worker has seen, where that is a number.
fn lower(p: &Problem<'_>, core: &mut CoreState<'_>, scratch: &mut Note, w: u32, row: u32)
    requires same { core.old.frame.problem ≡ p.now }
    requires works { IsWorking core.old w }
    requires row { row < rows_of core.old.frame }
    requires room { HasRoomFor p.now.game (length scratch.old.reasons.list + scratch.old.reasons.spare) }
    ensures moved { IsMoved core.old (Lower w row) core.new }
    ensures room { HasRoomFor p.now.game (length scratch.new.reasons.list + scratch.new.reasons.spare) }
{
    match level_of(p, core, scratch, w, row) {
        Some(level) => step(core, Event::Lower { w, row, level }),
        None => {}
    }
}

/// Clears a row whose state has a note, or admits nothing under what the owner has seen. Then its note is kept first.
fn clear(p: &Problem<'_>, core: &mut CoreState<'_>, scratch: &mut Note, row: u32)
    requires same { core.old.frame.problem ≡ p.now }
    requires row { row < rows_of core.old.frame }
    requires ready { IsReady core.old }
    requires room { HasRoomFor p.now.game (length scratch.old.reasons.list + scratch.old.reasons.spare) }
    ensures moved { IsMoved core.old (Clear row) core.new }
    ensures room { HasRoomFor p.now.game (length scratch.new.reasons.list + scratch.new.reasons.spare) }
{
    core.rules();
    let state = row / core.levels().directions();
    if core.notes().has(state) {
        step(core, Event::Clear { row });
        return;
    }
    match level_of(p, core, scratch, 0, row) {
        Some(_) => {}
        None => {
            scratch.state = state;
            note(core, scratch);
            step(core, Event::Clear { row });
        }
    }
}

/// The row level of what the worker has seen. Where it is Empty, the scratch gets one reason for each profile.
fn level_of(
    p: &Problem<'_>,
    core: &CoreState<'_>,
    scratch: &mut Note,
    w: u32,
    row: u32,
) -> Option<i64>
    requires same { core.now.frame.problem ≡ p.now }
    requires works { IsWorking core.now w }
    requires row { row < rows_of core.now.frame }
    requires room { HasRoomFor p.now.game (length scratch.old.reasons.list + scratch.old.reasons.spare) }
    ensures level { IfSome result (λ x. IsRowLevelOf core.now.frame (seen_by core.now w) row (At x)) }
    ensures empty { IfNone result (IsRowLevelOf core.now.frame (seen_by core.now w) row Empty) }
    ensures reasons { IfNone result (AreReasonsOver core.now.frame.problem (levels_in (seen_by core.now w)) (row / core.now.frame.start.directions) scratch.new.reasons.list) }
    ensures room { HasRoomFor p.now.game (length scratch.new.reasons.list + scratch.new.reasons.spare) }
{
    core.rules();
    p.rules();
    let directions = core.levels().directions();
    let (state, dir) = (row / directions, row % directions);
    let seen = core.seen(w);
    match row_level(
        p.game(),
        p.dirs(),
        p.grid(),
        seen,
        state,
        dir,
        &mut scratch.reasons,
    ) {
        RowAnswer::Level { level, .. } => Some(level),
        RowAnswer::EmptyState => None,
    }
}
