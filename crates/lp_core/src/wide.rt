//! The line of a row that has become an equation, where two variables are left: two running bounds of the other one, on 128 bits.

ghost use Rattle.lp_cert.specs.Program.{entry};
ghost use Rattle.lp_core.specs.Bounds.{IsApart, IsBoxRow, IsCut, IsCutByRow, IsMissed, IsMissedRow, IsPeak, IsReach, IsSeenRow, IsTighter, left_entry, left_objective, left_side};
ghost use Rattle.lp_core.specs.Lines.{all_seen, line_at};
ghost use Rattle.lp_core.specs.Search.{HasBox, IsOutcome, IsReduced};
ghost use Rattle.lp_core.specs.Sizes.{IsSmallLine};
ghost use Rattle.lp_core.specs.Smaller.{IsOther, rest_of, smaller};
ghost use Rattle.lp_core.specs.Wide.{limit_of, peak_of, reach_of};
ghost use Rattle.std.specs.Int.RustNames.{unsigned_abs};
ghost use Rattle.std.specs.Prelude.{[], ℕ, ◌*ℤ◌, ◌*◌, ◌+ℤ◌, ◌+◌, ◌<ℤ◌, ◌<◌, ◌^◌, ◌↔◌, ◌∷◌, ◌≡◌, ◌≢◌, ◌≤◌, IsTrue, MatchOption, MatchResult, length, pos, slice_set};

use crate::limits::{Bound, Ends, Tip};
use crate::pivot::Pivot;
use crate::reduced::Optimum;
use crate::search::Outcome;
use crate::view::View;
use lp_cert::Multipliers;

/// A multiple.
fn multiple(factor: i128, a: i128) -> i128
    requires factor { unsigned_abs factor ≤ 18 }
    requires right { unsigned_abs a ≤ 2 ^ 68 }
    ensures { result ≡ factor *ℤ a }
{
    factor * a
}

/// The sum of two multiples.
fn sum(factor: i128, a: i128, times: i128, b: i128) -> i128
    requires factor { unsigned_abs factor ≤ 18 }
    requires left { unsigned_abs a ≤ 2 ^ 68 }
    requires times { unsigned_abs times ≤ 18 }
    requires right { unsigned_abs b ≤ 2 ^ 68 }
    ensures { result ≡ factor *ℤ a +ℤ times *ℤ b }
{
    factor * a + times * b
}

/// The less of two bounds.
fn tighter(old: Bound, new: Bound) -> Bound
    ensures { IsTighter (limit_of old) (limit_of new) (limit_of result) }
{
    if multiple(old.entry, new.side) < multiple(new.entry, old.side) {
        new
    } else {
        old
    }
}

impl Ends {
    /// The bounds with that of one more row, of which `entry * y <= side` is left, if it leaves any point.
    fn cut(self, entry: i128, side: i128, l: u32) -> Option<Ends>
        requires entry { unsigned_abs entry ≤ 18 }
        requires side { unsigned_abs side ≤ 2 ^ 68 }
        ensures { MatchOption result (IsMissed entry side) (λ f. IsCut (reach_of self) entry side l (reach_of f)) }
    {
        if entry > 0 {
            return Some(Ends {
                upper: tighter(
                    self.upper,
                    Bound {
                        row: l,
                        entry,
                        side,
                    },
                ),
                lower: self.lower,
            });
        }
        if entry < 0 {
            let new = Bound {
                row: l,
                entry: -entry,
                side,
            };
            return Some(Ends {
                upper: self.upper,
                lower: tighter(self.lower, new),
            });
        }
        if side < 0 { None } else { Some(self) }
    }

    /// Whether no point is left.
    fn cross(&self) -> bool
        ensures { IsTrue result ↔ ((self.now.lower.entry *ℤ self.now.upper.side +ℤ self.now.upper.entry *ℤ self.now.lower.side) <ℤ pos 0) }
    {
        sum(
            self.lower.entry,
            self.upper.side,
            self.upper.entry,
            self.lower.side,
        ) < 0
    }

    /// The end that is better for an objective.
    fn tip(&self, objective: i128) -> Tip
        requires { unsigned_abs objective ≤ 49152 }
        ensures { IsPeak (reach_of self.now) objective (peak_of result) }
    {
        if objective < 0 {
            return Tip {
                row: self.lower.row,
                at: -self.lower.side,
                den: self.lower.entry,
                times: -objective,
            };
        }
        Tip {
            row: self.upper.row,
            at: self.upper.side,
            den: self.upper.entry,
            times: objective,
        }
    }
}

impl Tip {
    /// The optimum of the variable at place `k`.
    fn optimum(&self, k: usize) -> Optimum
        requires { k < 3 }
        ensures { result ≡ record { num = slice_set (pos 0 ∷ pos 0 ∷ pos 0 ∷ []) k self.now.at; den = self.now.den; items = (self.now.row, self.now.times) ∷ [] } }
    {
        let mut num = [0; 3];
        num[k] = self.at;
        let mut items = Multipliers::new();
        items.push((self.row, self.times));
        Optimum {
            num,
            den: self.den,
            items,
        }
    }
}

/// Two rows with their multipliers.
fn two(first: (u32, i128), second: (u32, i128)) -> Multipliers
    ensures { result ≡ first ∷ second ∷ [] }
{
    let mut items = Multipliers::new();
    items.push(first);
    items.push(second);
    items
}

/// The bounds that the box of the variable at place `k` makes.
fn box_ends(program: &View, k: usize) -> Ends
    requires place { k < 3 }
    requires within { HasBox program.now.lines k }
    requires small { (l : ℕ) → l < length program.now.lines → IsSmallLine 3 (2 ^ 65) (line_at program.now.lines l) }
    ensures upper { limit_of result.upper ≡ record { row = 2 * k; entry = pos 1; side = (line_at program.now.lines (2 * k)).h } }
    ensures lower { limit_of result.lower ≡ record { row = 2 * k + 1; entry = pos 1; side = (line_at program.now.lines (2 * k + 1)).h } }
{
    let row = 2 * k as u32;
    Ends {
        upper: Bound {
            row,
            entry: 1,
            side: program.line(row).h,
        },
        lower: Bound {
            row: row + 1,
            entry: 1,
            side: program.line(row + 1).h,
        },
    }
}

/// The bounds with that of one more row, or its number, if no point of the line meets it.
fn with_row(program: &View, pivot: &Pivot, k: usize, ends: Ends, l: u32) -> Result<Ends, u32>
    requires place { k < 3 }
    requires within { l < length program.now.lines }
    requires own { IsSmallLine 3 (2 ^ 65) pivot.now.line }
    requires small { IsSmallLine 3 (2 ^ 65) (line_at program.now.lines l) }
    ensures { MatchResult result (λ f. IsCutByRow program.now.lines pivot.now k (reach_of ends) l (reach_of f)) (λ m. (m ≡ l) × IsMissedRow program.now.lines pivot.now k l) }
{
    let left = pivot.eliminated(program.line(l));
    match ends.cut(left.c[k], left.h, l) {
        Some(ends) => Ok(ends),
        None => Err(l),
    }
}

/// The bounds that the rows that were seen make, or one of them that no point of the line meets.
fn ends(program: &View, pivot: &Pivot, k: usize, r: u32) -> Result<Ends, u32>
    requires other { IsOther program.now.live pivot.now.place k }
    requires within { HasBox program.now.lines k }
    requires own { IsSmallLine 3 (2 ^ 65) pivot.now.line }
    requires small { (l : ℕ) → l < length program.now.lines → IsSmallLine 3 (2 ^ 65) (line_at program.now.lines l) }
    ensures { MatchResult result (λ e. IsReach program.now.lines pivot.now k (IsSeenRow program.now r) (IsSeenRow program.now r) (reach_of e)) (IsApart program.now.lines pivot.now k (IsSeenRow program.now r)) }
{
    let mut ends = box_ends(program, k);
    for l in 0..program.len() {
        if l / 2 != k as u32 && program.is_seen(r, l) {
            ends = match with_row(program, pivot, k, ends, l) {
                Ok(ends) => ends,
                Err(l) => return Err(l),
            };
        }
    }
    Ok(ends)
}

/// What is left of a program of two variables on the line of row `r` comes to, in the variable at place `k`.
pub fn solved(program: &View, objective: [i128; 3], pivot: &Pivot, k: usize, r: u32) -> Outcome
    requires reduced { IsReduced program.now objective }
    requires other { IsOther program.now.live pivot.now.place k }
    requires within { r < length program.now.lines }
    requires line { pivot.now.line ≡ line_at program.now.lines r }
    ensures { IsOutcome all_seen (smaller pivot.now program.now r) (rest_of pivot.now objective) result }
{
    let ends = match ends(program, pivot, k, r) {
        Ok(ends) => ends,
        Err(l) => return Outcome::Infeasible(two((l, 1), (l, 0))),
    };
    if ends.cross() {
        let upper = ends.upper;
        let lower = ends.lower;
        return Outcome::Infeasible(two((upper.row, lower.entry), (lower.row, upper.entry)));
    }
    let rest = pivot.rest(objective);
    Outcome::Best(ends.tip(rest[k]).optimum(k))
}
