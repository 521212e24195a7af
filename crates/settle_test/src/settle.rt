//! The settling test.

ghost use Rattle.std.specs.Prelude.{◌≡◌, ◌⊎◌, ℕ, ℤ, ◌-◌, ◌^◌, ◌%◌, ◌<◌, ◌≤◌, ◌++◌, length, IfOk, OnOk, IsTrue, ◌↔◌, pos, ◌-ℤ◌, ◌<ℤ◌};
ghost use Rattle.std.specs.Option.{option_to_list};
ghost use Rattle.level_table.specs.declared.level.Level.TheVariants.{At};
ghost use Rattle.level_table.specs.Levels.{Levels, level_at, levels_in};
ghost use Rattle.level_table.specs.Notes.{HasRoomFor};
ghost use Rattle.level_table.specs.Operator.{Fractions, IsFirstLargest};
ghost use Rattle.level_table.specs.Problem.{Problem as ProblemRecord};
ghost use Rattle.level_table.specs.Problem.{direction_count};
ghost use Rattle.level_table.specs.Reasons.{IsGainRow};
ghost use Rattle.level_table.specs.Supported.{IsEven};
ghost use Rattle.level_table.specs.Tables.{HasSmallOpening, IsSmallTable};
ghost use Rattle.settle_test.specs.Verdicts.{FailsAt, IsFailingRow, IsReadyAt, IsRowVerdict, IsVerdict};

use game_model::List;
use level_table::{Level, LevelTable, Problem};
use pay_frac::Frac;
use set_operator::{Prepared, RowAnswer, Support, Verdict};
use std::alloc::{AllocError, Global};

/// The settling test of a table, row by row in one thread, in room that was made before. Memory is taken for the supports
/// alone.
pub fn verdict_of(
    alloc: Global,
    p: &Problem,
    levels: &LevelTable,
    slack: u64,
    prepared: &mut Prepared,
) -> Result<Verdict, AllocError>
    requires table { IsSmallTable p.now levels.now }
    requires opening { HasSmallOpening p.now }
    requires even { IsEven p.now (levels_in levels.now) }
    requires room { HasRoomFor p.now.game prepared.old.room }
    ensures verdict { IfOk result (IsVerdict p.now levels.now slack) }
    ensures room { prepared.new.room ≡ prepared.old.room }
{
    p.rules();
    let mut supports = List::new(alloc);
    for row in 0..levels.rows() {
        begin_state(p, levels, prepared, row);
        match row_verdict(p, levels, slack, prepared, row) {
            RowVerdict::Fine(support) => add(&mut supports, support)?,
            RowVerdict::Unsupported { level, reached } => {
                return Ok(Verdict::Unsupported {
                    row,
                    level,
                    reached,
                });
            }
        }
    }
    Ok(Verdict::Supported(supports))
}

/// The first of so many rows from this one on that has a level in units of `1/E` and no admissible value above that
/// level less the slack. No memory is taken.
pub fn failing_row(
    p: &Problem,
    levels: &LevelTable,
    slack: u64,
    prepared: &mut Prepared,
    from: u32,
    count: u32,
) -> Option<u32>
    requires table { IsSmallTable p.now levels.now }
    requires opening { HasSmallOpening p.now }
    requires even { IsEven p.now (levels_in levels.now) }
    requires room { HasRoomFor p.now.game prepared.old.room }
    ensures failing { IsFailingRow p.now levels.now slack from count result }
    ensures room { prepared.new.room ≡ prepared.old.room }
{
    levels.states();
    let end = from.saturating_add(count).min(levels.rows());
    for row in from..end {
        begin_at(p, levels, prepared, from, row);
        if fails(p, levels, slack, prepared, row) {
            return Some(row);
        }
    }
    None
}

/// A law: a table leaves no choice of the profile of a support, nor of the strategy of a gain row.
pub fn choice_laws()
    ensures one_profile { (p : ProblemRecord) (t : Levels) (s k a b : ℕ) (y z : Fractions)
        → IsFirstLargest p t s k a y → IsFirstLargest p t s k b z → a ≡ b }
    ensures one_strategy { (p : ProblemRecord) (t : Levels) (s a i b c : ℕ) (x y : ℤ)
        → IsGainRow p t s a i b x → IsGainRow p t s a i c y → b ≡ c }
{}

/// Makes the state of its first row ready.
pub(crate) fn begin_state(p: &Problem, levels: &LevelTable, prepared: &mut Prepared, row: u32)
    requires table { IsSmallTable p.now levels.now }
    requires opening { HasSmallOpening p.now }
    requires room { HasRoomFor p.now.game prepared.old.room }
    requires row { row < length levels.now.levels }
    requires before { (row % direction_count p.now ≡ 0) ⊎ IsReadyAt p.now levels.now prepared.old row }
    ensures ready { IsReadyAt p.now levels.now prepared.new row }
    ensures room { prepared.new.room ≡ prepared.old.room }
{
    if row % p.directions() == 0 {
        make_ready(p, levels, prepared, row);
    }
}

/// Makes the state of its first row ready, or of the row where a search begins.
fn begin_at(p: &Problem, levels: &LevelTable, prepared: &mut Prepared, from: u32, row: u32)
    requires table { IsSmallTable p.now levels.now }
    requires opening { HasSmallOpening p.now }
    requires room { HasRoomFor p.now.game prepared.old.room }
    requires row { row < length levels.now.levels }
    requires before { (row ≡ from) ⊎ ((row % direction_count p.now ≡ 0) ⊎ IsReadyAt p.now levels.now prepared.old row) }
    ensures ready { IsReadyAt p.now levels.now prepared.new row }
    ensures room { prepared.new.room ≡ prepared.old.room }
{
    if row == from {
        make_ready(p, levels, prepared, row);
    } else {
        begin_state(p, levels, prepared, row);
    }
}

/// Makes the state of a row ready, if the row's level is a number.
fn make_ready(p: &Problem, levels: &LevelTable, prepared: &mut Prepared, row: u32)
    requires table { IsSmallTable p.now levels.now }
    requires opening { HasSmallOpening p.now }
    requires room { HasRoomFor p.now.game prepared.old.room }
    requires row { row < length levels.now.levels }
    ensures ready { IsReadyAt p.now levels.now prepared.new row }
    ensures room { prepared.new.room ≡ prepared.old.room }
{
    p.rules();
    if levels.get(row) != Level::Empty {
        prepared.prepare(p, levels, row / p.directions());
    }
}

/// Adds a support, where there is one.
pub(crate) fn add(supports: &mut List<Support>, support: Option<Support>) -> Result<(), AllocError>
    requires { length supports.old < 2 ^ 32 - 1 }
    ensures { OnOk result (supports.new ≡ supports.old ++ option_to_list support) }
{
    match support {
        Some(found) => supports.push(found),
        None => Ok(()),
    }
}

/// What the test says of a row.
#[derive(Clone, Copy)]
pub(crate) enum RowVerdict {
    /// What supports it, and none where it is Empty.
    Fine(Option<Support>),
    /// Its level, and the largest value, or none where nothing is admissible.
    Unsupported { level: i64, reached: Option<Frac> },
}

/// Whether a row is supported within the slack.
pub(crate) fn row_verdict(
    p: &Problem,
    levels: &LevelTable,
    slack: u64,
    prepared: &Prepared,
    row: u32,
) -> RowVerdict
    requires opening { HasSmallOpening p.now }
    requires table { IsSmallTable p.now levels.now }
    requires row { row < length levels.now.levels }
    requires ready { IsReadyAt p.now levels.now prepared.now row }
    ensures { IsRowVerdict p.now levels.now slack row result }
{
    p.rules();
    match levels.get(row) {
        Level::Empty => RowVerdict::Fine(None),
        Level::At(level) => finite_verdict(p, levels, slack, prepared, row, level),
    }
}

/// Whether a row fails.
fn fails(p: &Problem, levels: &LevelTable, slack: u64, prepared: &Prepared, row: u32) -> bool
    requires table { IsSmallTable p.now levels.now }
    requires opening { HasSmallOpening p.now }
    requires row { row < length levels.now.levels }
    requires ready { IsReadyAt p.now levels.now prepared.now row }
    ensures { IsTrue result ↔ FailsAt p.now levels.now slack row }
{
    match row_verdict(p, levels, slack, prepared, row) {
        RowVerdict::Fine(_) => false,
        RowVerdict::Unsupported { .. } => true,
    }
}

/// Whether a row of this level is supported within the slack. The largest value is above a whole number exactly where
/// the row level is.
fn finite_verdict(
    p: &Problem,
    levels: &LevelTable,
    slack: u64,
    prepared: &Prepared,
    row: u32,
    level: i64,
) -> RowVerdict
    requires opening { HasSmallOpening p.now }
    requires table { IsSmallTable p.now levels.now }
    requires row { row < length levels.now.levels }
    requires level { level_at levels.now row ≡ At level }
    requires ready { IsReadyAt p.now levels.now prepared.now row }
    ensures { IsRowVerdict p.now levels.now slack row result }
{
    p.rules();
    match prepared.answer(p, levels, row % p.directions()) {
        RowAnswer::EmptyState => RowVerdict::Unsupported {
            level,
            reached: None,
        },
        RowAnswer::Level {
            level: found,
            profile,
            point,
            reached,
        } => {
            if is_above(found, level, slack) {
                RowVerdict::Fine(Some(Support {
                    row,
                    profile,
                    point,
                }))
            } else {
                RowVerdict::Unsupported {
                    level,
                    reached: Some(reached),
                }
            }
        }
    }
}

/// Whether a row level is above a level less the slack.
fn is_above(found: i64, level: i64, slack: u64) -> bool
    ensures { IsTrue result ↔ ((level -ℤ pos slack) <ℤ found) }
{
    i128::from(level) - i128::from(slack) < i128::from(found)
}
