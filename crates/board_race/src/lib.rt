//! Threads at a board: one sees what another has lowered, before they meet in a join. The tests play on a game of two
//! states with one profile each, in which the row levels are known.
#![tactic(auto)]

ghost use Rattle.std.specs.Prelude.{pos};
ghost use Rattle.level_table.specs.declared.level.Level.{Level};
ghost use Rattle.level_table.specs.declared.level.Level.TheVariants.{At};
ghost use Rattle.level_table.specs.Levels.{Table};
ghost use Rattle.schedule_core.specs.Frame.{Frame, IsRowLevelOf, with_level};
ghost use Rattle.board_race.specs.Fall.{IsFresh};

#[cfg(test)]
mod tests;

/// In the second state the row level of the first direction is half the opening level, 32, whatever was seen of the
/// first state.
pub fn level_is_halved()
    ensures halved { (f : Frame) (t : Table) → IsFresh f t → IsRowLevelOf f t 4 (At (pos 16)) }
    ensures other_row { (f : Frame) (t : Table) (l : Level) → IsFresh f t → IsFresh f (with_level t 0 l) }
{}
