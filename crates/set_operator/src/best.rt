//! The program of one profile: its largest value in a direction, or why it admits nothing.

ghost use Rattle.std.specs.Prelude.{◌≡◌, ◌^◌, ◌<◌, ◌≤◌, ◌↔◌, IfSome, IfNone, IsTrue};
ghost use Rattle.std.specs.Int.RustNames.{unsigned_abs};
ghost use Rattle.level_table.specs.Levels.{levels_in};
ghost use Rattle.level_table.specs.Operator.{Admissible, Fractions};
ghost use Rattle.level_table.specs.Problem.{direction_count};
ghost use Rattle.level_table.specs.Reasons.{IsProgramCertificate};
ghost use Rattle.level_table.specs.Tables.{IsSmallTable};
ghost use Rattle.set_operator.specs.Boxes.{IsBoxOf};
ghost use Rattle.set_operator.specs.Program.{AreDiscounts};
ghost use Rattle.set_operator.specs.Search.{IsBestOf, IsMost};

use crate::boxes::ProfileBox;
use crate::most::{Discounts, most_from, spread_by, spread_of};
use crate::program::{
    fill_rows, items_of, number_at, objective_of, some_rows, stage_of, value_over,
};
use level_table::{Items, LevelTable, Problem};
use lp_cert::Rows;
use lp_core::{LpAnswer, Point, solve};

/// A profile with its largest value in a direction, over `q * point.den`, and a point that has it.
#[derive(Clone, Copy)]
pub(crate) struct Best {
    pub(crate) value: i128,
    pub(crate) profile: u32,
    pub(crate) point: Point,
}

/// The largest value of the profile in direction `dir`, and none where it admits nothing.
pub(crate) fn best_of(
    p: &Problem,
    levels: &LevelTable,
    found: &ProfileBox,
    dir: u32,
    rows: &mut Rows,
) -> Option<Best>
    requires table { IsSmallTable p.now levels.now }
    requires sides { IsBoxOf p.now (levels_in levels.now) found.now }
    requires dir { dir < direction_count p.now }
    ensures some { IfSome result (IsBestOf p.now (levels_in levels.now) found.now.state dir found.now.profile) }
    ensures none { IfNone result ((z : Fractions) → Admissible p.now (levels_in levels.now) found.now.state found.now.profile z → ⊥) }
{
    fill_rows(p, levels, found, rows);
    match solve(rows, objective_of(p, dir)) {
        LpAnswer::Best { point, value, .. } => Some(Best {
            value: value_over(point.den, stage_of(p, found, dir), value),
            profile: found.profile,
            point,
        }),
        LpAnswer::Infeasible { .. } => None,
    }
}

/// Rows of the profile's program that no point meets, where it admits nothing.
pub(crate) fn certificate_of(p: &Problem, levels: &LevelTable, found: &ProfileBox) -> Items
    requires table { IsSmallTable p.now levels.now }
    requires sides { IsBoxOf p.now (levels_in levels.now) found.now }
    requires nothing { (z : Fractions) → Admissible p.now (levels_in levels.now) found.now.state found.now.profile z → ⊥ }
    ensures { IsProgramCertificate p.now (levels_in levels.now) found.now.state found.now.profile result }
{
    let mut rows = some_rows();
    fill_rows(p, levels, found, &mut rows);
    match solve(&rows, [0; 3]) {
        LpAnswer::Best { .. } => unreachable!(),
        LpAnswer::Infeasible { farkas } => items_of(p, levels, found, &farkas.items),
    }
}

/// Whether the profile admits a point.
pub(crate) fn admits(p: &Problem, levels: &LevelTable, found: &ProfileBox, rows: &mut Rows) -> bool
    requires table { IsSmallTable p.now levels.now }
    requires sides { IsBoxOf p.now (levels_in levels.now) found.now }
    ensures some { IsTrue result → (z : Fractions) × Admissible p.now (levels_in levels.now) found.now.state found.now.profile z }
    ensures none { (z : Fractions) → Admissible p.now (levels_in levels.now) found.now.state found.now.profile z → IsTrue result }
{
    fill_rows(p, levels, found, rows);
    matches!(solve(rows, [0; 3]), LpAnswer::Best { .. })
}

/// A number over q that no admissible value of the profile in direction `dir` is above, found without a program.
pub(crate) fn most_value(
    p: &Problem,
    levels: &LevelTable,
    found: &ProfileBox,
    dir: u32,
    discounts: Discounts,
) -> i128
    requires table { IsSmallTable p.now levels.now }
    requires sides { IsBoxOf p.now (levels_in levels.now) found.now }
    requires dir { dir < direction_count p.now }
    requires discounts { AreDiscounts p.now discounts }
    ensures most { IsMost p.now (levels_in levels.now) found.now.state dir found.now.profile result }
    ensures small { unsigned_abs result ≤ 2 ^ 80 }
{
    p.rules();
    let level = number_at(levels, found.next, dir);
    let stage = stage_of(p, found, dir);
    let spread = spread_by(p, found, dir, discounts);
    most_from(discounts.least, level, stage, spread)
}

/// Another number over q that no admissible value of the profile in direction `dir` is above, from the sides of its
/// box alone.
pub(crate) fn most_in_box(p: &Problem, levels: &LevelTable, found: &ProfileBox, dir: u32) -> i128
    requires sides { IsBoxOf p.now (levels_in levels.now) found.now }
    requires dir { dir < direction_count p.now }
    ensures most { IsMost p.now (levels_in levels.now) found.now.state dir found.now.profile result }
    ensures small { unsigned_abs result ≤ 2 ^ 80 }
{
    p.rules();
    let stage = stage_of(p, found, dir);
    most_from(0, 0, stage, spread_of(p, found, dir, 0))
}
