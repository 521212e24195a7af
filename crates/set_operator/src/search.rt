//! The first profile of the largest value.

ghost use Rattle.std.specs.Prelude.{◌≡◌, ◌⊎◌, ℕ, ◌+◌, ◌*◌, ◌<◌, ◌≤◌, ◌^◌, ◌↔◌, ℤ, pos, ◌-ℤ◌, ◌*ℤ◌, ◌<ℤ◌, ◌≤ℤ◌, Some, None, IfSome, IfNone, IsTrue, slice_index_or, length};
ghost use Rattle.std.specs.Int.RustNames.{unsigned_abs};
ghost use Rattle.game_model.specs.Game.{states, counts, profile_count};
ghost use Rattle.level_table.specs.Levels.{levels_in};
ghost use Rattle.level_table.specs.Problem.{direction_count};
ghost use Rattle.level_table.specs.Tables.{HasSmallOpening, IsSmallTable};
ghost use Rattle.set_operator.specs.Answers.{IsRowAnswer};
ghost use Rattle.set_operator.specs.Boxes.{IsBoxOf};
ghost use Rattle.set_operator.specs.Prepared.{IsBoxAt};
ghost use Rattle.set_operator.specs.Program.{AreDiscounts};
ghost use Rattle.set_operator.specs.Search.{IsBestOf, IsCeilingOf, IsEarliest, IsLargestBelow, IsLargestSoFar, IsLeader, IsReached, IsSmallBest, HasNoneAbove};

use crate::best::{Best, best_of, most_in_box, most_value};
use crate::boxes::ProfileBox;
use crate::most::Discounts;
use crate::program::some_rows;
use crate::row::RowAnswer;
use level_table::{LevelTable, Problem};
use lp_cert::Rows;
use pay_frac::{Frac, ceil_div};

/// A direction of a state.
#[derive(Clone, Copy)]
pub(crate) struct Row {
    pub(crate) state: u32,
    pub(crate) dir: u32,
    pub(crate) discounts: Discounts,
}

/// Whether `value / den` is greater than the value of a best, both over q.
pub(crate) fn is_above(value: i128, den: i128, best: &Best) -> bool
    requires value { unsigned_abs value ≤ 2 ^ 103 }
    requires positive { pos 0 <ℤ den }
    requires den { den ≤ℤ pos (2 ^ 20) }
    requires best { IsSmallBest best.now }
    ensures { IsTrue result ↔ ((best.now.value *ℤ den) <ℤ (value *ℤ best.now.point.den)) }
{
    best.value * den < value * best.point.den
}

/// Whether the bounds of a profile's values that need no program let one of them be greater than a best.
fn can_win(
    p: &Problem,
    levels: &LevelTable,
    program: &ProfileBox,
    dir: u32,
    discounts: Discounts,
    best: &Best,
) -> bool
    requires table { IsSmallTable p.now levels.now }
    requires of_profile { IsBoxOf p.now (levels_in levels.now) program.now }
    requires dir { dir < direction_count p.now }
    requires discounts { AreDiscounts p.now discounts }
    requires best { IsSmallBest best.now }
    ensures { (IsTrue result → ⊥) → HasNoneAbove p.now (levels_in levels.now) program.now.state dir program.now.profile best.now }
{
    is_above(most_value(p, levels, program, dir, discounts), 1, best)
        && is_above(most_in_box(p, levels, program, dir), 1, best)
}

/// Whether a profile is passed over: it has no box, or can't win.
fn is_passed_over(
    p: &Problem,
    levels: &LevelTable,
    row: Row,
    a: u32,
    program: &Option<ProfileBox>,
    best: &Option<Best>,
) -> bool
    requires table { IsSmallTable p.now levels.now }
    requires at { IsBoxAt p.now (levels_in levels.now) row.state a program.now }
    requires dir { row.dir < direction_count p.now }
    requires discounts { AreDiscounts p.now row.discounts }
    requires before { IsLargestSoFar p.now (levels_in levels.now) row.state row.dir a best.now }
    ensures { IsTrue result → IsLargestSoFar p.now (levels_in levels.now) row.state row.dir (a + 1) best.now }
{
    match program {
        None => true,
        Some(found) => match best {
            None => false,
            Some(before) => !can_win(p, levels, found, row.dir, row.discounts, before),
        },
    }
}

/// The largest of the profiles up to that of the box, from that of those before it: the earlier one where both are
/// as large.
fn improved(
    p: &Problem,
    levels: &LevelTable,
    program: &ProfileBox,
    dir: u32,
    best: Best,
    rows: &mut Rows,
) -> Best
    requires table { IsSmallTable p.now levels.now }
    requires of_profile { IsBoxOf p.now (levels_in levels.now) program.now }
    requires dir { dir < direction_count p.now }
    requires best { IsLargestBelow p.now (levels_in levels.now) program.now.state dir program.now.profile best }
    ensures largest { IsLargestBelow p.now (levels_in levels.now) program.now.state dir (program.now.profile + 1) result }
    ensures earliest { IsEarliest p.now (levels_in levels.now) program.now.state dir (Some best) → IsEarliest p.now (levels_in levels.now) program.now.state dir (Some result) }
{
    match best_of(p, levels, program, dir, rows) {
        Some(here) => {
            if is_above(here.value, here.point.den, &best) {
                here
            } else {
                best
            }
        }
        None => best,
    }
}

/// The largest of the profiles up to `a`, from that of those before it: the earlier one where both are as large.
fn with_profile(
    p: &Problem,
    levels: &LevelTable,
    row: Row,
    a: u32,
    program: &Option<ProfileBox>,
    before: Option<Best>,
    rows: &mut Rows,
) -> Option<Best>
    requires table { IsSmallTable p.now levels.now }
    requires at { IsBoxAt p.now (levels_in levels.now) row.state a program.now }
    requires dir { row.dir < direction_count p.now }
    requires before { IsLargestSoFar p.now (levels_in levels.now) row.state row.dir a before }
    ensures largest { IsLargestSoFar p.now (levels_in levels.now) row.state row.dir (a + 1) result }
    ensures earliest { IsEarliest p.now (levels_in levels.now) row.state row.dir before → IsEarliest p.now (levels_in levels.now) row.state row.dir result }
{
    match program {
        None => before,
        Some(found) => match before {
            None => best_of(p, levels, found, row.dir, rows),
            Some(best) => Some(improved(p, levels, found, row.dir, best, rows)),
        },
    }
}

/// Takes profile `a` into account as well, and says whether it was looked at. One that can't win is passed over.
pub(crate) fn try_profile(
    p: &Problem,
    levels: &LevelTable,
    row: Row,
    a: u32,
    program: &Option<ProfileBox>,
    best: &mut Option<Best>,
    rows: &mut Rows,
) -> bool
    requires table { IsSmallTable p.now levels.now }
    requires at { IsBoxAt p.now (levels_in levels.now) row.state a program.now }
    requires dir { row.dir < direction_count p.now }
    requires discounts { AreDiscounts p.now row.discounts }
    requires before { IsLargestSoFar p.now (levels_in levels.now) row.state row.dir a best.old }
    ensures largest { IsLargestSoFar p.now (levels_in levels.now) row.state row.dir (a + 1) best.new }
    ensures earliest { IsEarliest p.now (levels_in levels.now) row.state row.dir best.old → IsEarliest p.now (levels_in levels.now) row.state row.dir best.new }
{
    if is_passed_over(p, levels, row, a, program, best) {
        return false;
    }
    *best = with_profile(p, levels, row, a, program, *best, rows);
    true
}

/// The denominator of a best's value: q times that of its point.
pub(crate) fn value_unit(p: &Problem, best: &Best) -> i128
    requires { IsSmallBest best.now }
    ensures unit { result ≡ pos p.now.game.q *ℤ best.now.point.den }
    ensures positive { pos 0 <ℤ result }
    ensures small { unsigned_abs result ≤ 2 ^ 30 }
{
    p.rules();
    let (_, q) = p.game().discount_of(0);
    i128::from(q) * best.point.den
}

/// The row level that a best reaches: its value, rounded up.
pub(crate) fn level_of(p: &Problem, levels: &LevelTable, row: Row, best: &Best) -> i64
    requires table { IsSmallTable p.now levels.now }
    requires opening { HasSmallOpening p.now }
    requires state { row.state < states p.now.game }
    requires dir { row.dir < direction_count p.now }
    requires known { best.now.profile < profile_count (counts p.now.game row.state) }
    requires best { IsBestOf p.now (levels_in levels.now) row.state row.dir best.now.profile best.now }
    ensures ceiling { IsCeilingOf p.now best.now result }
    ensures small { unsigned_abs result ≤ 2 ^ 62 }
{
    p.rules();
    ceil_div(best.value, value_unit(p, best)) as i64
}

/// The answer for a row whose first best profile was found.
pub(crate) fn answer_of(
    p: &Problem,
    levels: &LevelTable,
    row: Row,
    found: Option<Best>,
) -> RowAnswer
    requires table { IsSmallTable p.now levels.now }
    requires opening { HasSmallOpening p.now }
    requires state { row.state < states p.now.game }
    requires dir { row.dir < direction_count p.now }
    requires largest { IsLargestSoFar p.now (levels_in levels.now) row.state row.dir (profile_count (counts p.now.game row.state)) found }
    requires earliest { IsEarliest p.now (levels_in levels.now) row.state row.dir found }
    ensures { IsRowAnswer p.now (levels_in levels.now) row.state row.dir result }
{
    match found {
        None => RowAnswer::EmptyState,
        Some(best) => RowAnswer::Level {
            level: level_of(p, levels, row, &best),
            profile: best.profile,
            point: best.point,
            reached: Frac::of(best.value, value_unit(p, &best)),
        },
    }
}

/// The first profile of the largest value, and none where no profile admits anything.
pub(crate) fn first_best(
    p: &Problem,
    levels: &LevelTable,
    row: Row,
    programs: &[Option<ProfileBox>],
) -> Option<Best>
    requires table { IsSmallTable p.now levels.now }
    requires dir { row.dir < direction_count p.now }
    requires discounts { AreDiscounts p.now row.discounts }
    requires each { (a : ℕ) → a < length programs.now → IsBoxAt p.now (levels_in levels.now) row.state a (slice_index_or programs.now a None) }
    requires few { length programs.now < 2 ^ 32 }
    ensures largest { IsLargestSoFar p.now (levels_in levels.now) row.state row.dir (length programs.now) result }
    ensures earliest { IsEarliest p.now (levels_in levels.now) row.state row.dir result }
{
    let mut best = None;
    let mut rows = some_rows();
    for a in 0..programs.len() {
        try_profile(p, levels, row, a as u32, &programs[a], &mut best, &mut rows);
    }
    best
}

/// Whether a best reaches a level: its value is above the level less 1.
pub(crate) fn reaches(p: &Problem, level: i64, best: &Best) -> bool
    requires { IsSmallBest best.now }
    ensures { IsTrue result ↔ (((level -ℤ pos 1) *ℤ (pos p.now.game.q *ℤ best.now.point.den)) <ℤ best.now.value) }
{
    (i128::from(level) - 1) * value_unit(p, best) < best.value
}

/// Whether there is a best that reaches a level.
fn is_reached(p: &Problem, level: i64, best: &Option<Best>) -> bool
    requires { IfSome best.now IsSmallBest }
    ensures { IsTrue result → IsReached p.now level best.now }
{
    match best {
        Some(found) => reaches(p, level, found),
        None => false,
    }
}

/// A profile whose value is the largest of all, or reaches the level, and none where no profile admits anything. The
/// search goes on from `before`, and ends at the first profile that reaches the level.
pub(crate) fn leader(
    p: &Problem,
    levels: &LevelTable,
    row: Row,
    programs: &[Option<ProfileBox>],
    level: i64,
    before: Option<Best>,
    rows: &mut Rows,
) -> Option<Best>
    requires table { IsSmallTable p.now levels.now }
    requires dir { row.dir < direction_count p.now }
    requires discounts { AreDiscounts p.now row.discounts }
    requires one_each { length programs.now ≡ profile_count (counts p.now.game row.state) }
    requires few { length programs.now < 2 ^ 32 }
    requires each { (a : ℕ) → a < length programs.now → IsBoxAt p.now (levels_in levels.now) row.state a (slice_index_or programs.now a None) }
    requires before { IsLargestSoFar p.now (levels_in levels.now) row.state row.dir 0 before }
    ensures some { IfSome result (IsLeader p.now (levels_in levels.now) row.state row.dir level) }
    ensures none { IfNone result (IsLargestSoFar p.now (levels_in levels.now) row.state row.dir (profile_count (counts p.now.game row.state)) None) }
{
    let mut best = before;
    if is_reached(p, level, &best) {
        return best;
    }
    for a in 0..programs.len() {
        if try_profile(p, levels, row, a as u32, &programs[a], &mut best, rows)
            && is_reached(p, level, &best)
        {
            return best;
        }
    }
    best
}
