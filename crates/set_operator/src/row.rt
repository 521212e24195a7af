//! What the operator answers for a row.

ghost use Rattle.std.specs.Prelude.{◌≡◌, ◌+◌, ◌<◌, ◌≤◌, length};
ghost use Rattle.game_model.specs.Game.{states, counts, profile_count};
ghost use Rattle.level_table.specs.Levels.{levels_in};
ghost use Rattle.level_table.specs.Problem.{direction_count, problem_of};
ghost use Rattle.level_table.specs.Tables.{HasSmallOpening, IsSmallTable};
ghost use Rattle.set_operator.specs.Answers.{AreAnswersReasons, IsRowAnswer};
ghost use Rattle.set_operator.specs.Boxes.{AreFlags};
ghost use Rattle.set_operator.specs.Program.{AreDiscounts};
ghost use Rattle.set_operator.specs.Search.{IsEarliest, IsLargestSoFar};

use crate::best::Best;
use crate::boxes::{box_of, known_states};
use crate::most::discounts_of;
use crate::program::some_rows;
use crate::reasons::explain;
use crate::search::{Row, answer_of, try_profile};
use direction_set::Directions;
use game_model::{Game, List};
use level_table::{LevelTable, Problem, ReasonList};
use lp_core::Point;
use pay_frac::Frac;

/// What the operator says of a row.
#[derive(Clone, Copy)]
pub enum RowAnswer {
    /// The row level in units of `1/E`, the first profile that has the largest value, an admissible point
    /// that has it, and that value.
    Level {
        level: i64,
        profile: u32,
        point: Point,
        reached: Frac,
    },
    /// No profile has an admissible point.
    EmptyState,
}

/// What supports a finite row of a table: a profile, and an admissible point in units of `1/E`.
#[derive(Clone, Copy)]
pub struct Support {
    pub row: u32,
    pub profile: u32,
    pub point: Point,
}

/// What the settling test says of a table.
#[derive(Drop)]
pub enum Verdict {
    /// Each finite row has a support, listed in row order.
    Supported(List<Support>),
    /// The first row that has none, its level in units of `1/E`, and the largest value that is reached
    /// there, in the same units, or none where nothing is admissible.
    Unsupported {
        row: u32,
        level: i64,
        reached: Option<Frac>,
    },
}

/// The row level of direction `dir` of a state: the least whole number, in units of `1/E`, that no admissible value
/// is above (Judd, Yeltekin and Conklin 2003). Where the state admits nothing, the list gets one reason for each
/// profile, and else it is emptied. No memory is taken.
pub fn row_level(
    game: &Game,
    dirs: &Directions,
    grid: u32,
    levels: &LevelTable,
    state: u32,
    dir: u32,
    reasons: &mut ReasonList,
) -> RowAnswer
    requires players { dirs.now.players ≡ game.now.players }
    requires grid { grid ≤ 30 }
    requires table { IsSmallTable (problem_of game.now dirs.now grid) levels.now }
    requires opening { HasSmallOpening (problem_of game.now dirs.now grid) }
    requires state { state < states game.now }
    requires dir { dir < length dirs.now.vectors }
    requires room { profile_count (counts game.now state) ≤ length reasons.old.list + reasons.old.spare }
    ensures answer { IsRowAnswer (problem_of game.now dirs.now grid) (levels_in levels.now) state dir result }
    ensures reasons { AreAnswersReasons (problem_of game.now dirs.now grid) (levels_in levels.now) state result reasons.new.list }
    ensures room { length reasons.new.list + reasons.new.spare ≡ length reasons.old.list + reasons.old.spare }
{
    let p = Problem::new(game, dirs, grid);
    let known = known_states(&p, levels);
    let row = Row {
        state,
        dir,
        discounts: discounts_of(&p),
    };
    let answer = answer_of(&p, levels, row, best_in_row(&p, levels, &known, row));
    match answer {
        RowAnswer::Level { .. } => reasons.clear(),
        RowAnswer::EmptyState => explain(&p, levels, &known, state, reasons),
    }
    answer
}

/// The first profile of the largest value, each profile's program made when its turn comes.
fn best_in_row(p: &Problem, levels: &LevelTable, known: &[bool; 64], row: Row) -> Option<Best>
    requires table { IsSmallTable p.now levels.now }
    requires opening { HasSmallOpening p.now }
    requires known { AreFlags p.now (levels_in levels.now) known.now }
    requires state { row.state < states p.now.game }
    requires dir { row.dir < direction_count p.now }
    requires discounts { AreDiscounts p.now row.discounts }
    ensures largest { IsLargestSoFar p.now (levels_in levels.now) row.state row.dir (profile_count (counts p.now.game row.state)) result }
    ensures earliest { IsEarliest p.now (levels_in levels.now) row.state row.dir result }
{
    let mut best = None;
    let mut rows = some_rows();
    for a in 0..p.game().profiles(row.state) {
        let program = box_of(p, levels, known, row.state, a);
        try_profile(p, levels, row, a, &program, &mut best, &mut rows);
    }
    best
}
