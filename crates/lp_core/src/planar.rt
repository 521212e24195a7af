//! Programs of two variables whose sides fit 64 bits: one walk over the rows, and two bounds on the line of a row that is broken.

ghost use Rattle.exact_algebra.specs.Normal.{is_nought};
ghost use Rattle.lp_cert.specs.Program.{IsProgram, entry};
ghost use Rattle.lp_core.specs.Corner.{IsEnd};
ghost use Rattle.lp_core.specs.Elimination.{factor_of};
ghost use Rattle.lp_core.specs.Lines.{all_seen, along, is_seen, line_at};
ghost use Rattle.lp_core.specs.Bounds.{IsApart, IsBoxRow, IsCutByRow, IsMissed, IsMissedRow, IsPeak, IsTighter, left_entry, left_objective, left_side};
ghost use Rattle.lp_core.specs.Planar.{AreEnds, AreNarrow, IsCutBy, IsSpot, end_of, farkas_of, half_line, limit_of, lines_of, optimum_of, peak_of, pivot_of, reach_of, spot_num, whole_of};
ghost use Rattle.lp_core.specs.Search.{IsBest, IsEmpty, IsOutcome};
ghost use Rattle.std.specs.Int.RustNames.{unsigned_abs};
ghost use Rattle.std.specs.Prelude.{[], ℕ, ◌*ℤ◌, ◌*◌, ◌+ℤ◌, ◌+◌, ◌-ℤ◌, ◌-◌, ◌<ℤ◌, ◌<◌, ◌^◌, ◌↔◌, ◌∷◌, ◌≡◌, ◌≢◌, ◌≤ℤ◌, ◌≤◌, All, IfSome, IsTrue, MatchOption, MatchResult, cond, length, pos, slice_index_or};

use crate::edge::{Bound, BoxEnd, Cut, Edge, Ends, Half, Spot, Tip};
use crate::reduced::Optimum;
use crate::search::{Outcome, only};
use lp_cert::{Multipliers, Rows};

/// The greatest side that is taken here.
const LIMIT: i128 = 1 << 51;

/// A multiple less another.
fn difference(factor: i64, a: i64, times: i64, b: i64) -> i64
    requires factor { unsigned_abs factor ≤ 18 }
    requires left { unsigned_abs a ≤ 2 ^ 57 }
    requires times { unsigned_abs times ≤ 18 }
    requires right { unsigned_abs b ≤ 2 ^ 57 }
    ensures { result ≡ factor *ℤ a -ℤ times *ℤ b }
{
    factor * a - times * b
}

/// The sum of two multiples.
fn sum(factor: i64, a: i64, times: i64, b: i64) -> i64
    requires factor { unsigned_abs factor ≤ 18 }
    requires left { unsigned_abs a ≤ 2 ^ 57 }
    requires times { unsigned_abs times ≤ 18 }
    requires right { unsigned_abs b ≤ 2 ^ 57 }
    ensures { result ≡ factor *ℤ a +ℤ times *ℤ b }
{
    factor * a + times * b
}

/// A multiple.
fn multiple(factor: i64, a: i64) -> i64
    requires factor { unsigned_abs factor ≤ 54 }
    requires right { unsigned_abs a ≤ 2 ^ 57 }
    ensures { result ≡ factor *ℤ a }
{
    factor * a
}

/// The row of a number whose side is small.
fn known_at(rows: &Rows, l: u32) -> Half
    requires dimension { rows.now.dimension ≡ 2 }
    requires within { l < length rows.now.rows }
    requires narrow { unsigned_abs (line_at (lines_of rows.now) l).h ≤ 2 ^ 51 }
    ensures { half_line result ≡ line_at (lines_of rows.now) l }
{
    let row = rows.row(l);
    Half {
        first: row.c[0] as i64,
        second: row.c[1] as i64,
        side: row.h as i64,
    }
}

/// The row of a number, if its side is small.
fn half_at(rows: &Rows, l: u32) -> Option<Half>
    requires dimension { rows.now.dimension ≡ 2 }
    requires within { l < length rows.now.rows }
    ensures row { IfSome result (λ x. half_line x ≡ line_at (lines_of rows.now) l) }
    ensures narrow { IfSome result (λ x. unsigned_abs (line_at (lines_of rows.now) l).h ≤ 2 ^ 51) }
{
    let side = rows.row(l).h;
    if side < -LIMIT || LIMIT < side {
        return None;
    }
    Some(known_at(rows, l))
}

impl Half {
    /// The entry at a place.
    fn at(&self, place: usize) -> i64
        requires { place < 2 }
        ensures value { result ≡ entry (half_line self.now).c place }
        ensures small { unsigned_abs result ≤ 3 }
    {
        if place == 0 { self.first } else { self.second }
    }
}

/// The edge of a row, if it has the variable.
fn edge_at(row: Half, place: usize) -> Option<Edge>
    requires { place < 2 }
    ensures { MatchOption result (entry (half_line row).c place ≡ pos 0) (λ e. e.row ≡ row) }
{
    let entry = row.at(place);
    let other = row.at(1 - place);
    if entry > 0 {
        return Some(Edge {
            row,
            place,
            size: entry,
            sign: 1,
            other,
            side: row.side,
        });
    }
    if entry < 0 {
        return Some(Edge {
            row,
            place,
            size: -entry,
            sign: -1,
            other: -other,
            side: -row.side,
        });
    }
    None
}

/// The edge of a row, if it has a variable.
fn edge_of(row: Half) -> Option<Edge>
    ensures { MatchOption result ((k : ℕ) → k < 3 → entry (half_line row).c k ≡ pos 0) (λ e. e.row ≡ row) }
{
    match edge_at(row, 0) {
        Some(edge) => Some(edge),
        None => edge_at(row, 1),
    }
}

/// The less of two bounds.
fn tighter(old: Bound, new: Bound) -> Bound
    ensures { IsTighter (limit_of old) (limit_of new) (limit_of result) }
{
    if multiple(old.entry, new.side) < multiple(new.entry, old.side) {
        new
    } else {
        old
    }
}

impl Ends {
    /// The bounds with that of one more row, if it leaves any point.
    fn cut(self, cut: Cut, l: u32) -> Option<Ends>
        ensures { MatchOption result (IsMissed cut.entry cut.side) (IsCutBy self cut l) }
    {
        if cut.entry > 0 {
            let new = Bound {
                row: l,
                entry: cut.entry,
                side: cut.side,
            };
            return Some(Ends {
                upper: tighter(self.upper, new),
                lower: self.lower,
            });
        }
        if cut.entry < 0 {
            let new = Bound {
                row: l,
                entry: -cut.entry,
                side: cut.side,
            };
            return Some(Ends {
                upper: self.upper,
                lower: tighter(self.lower, new),
            });
        }
        if cut.side < 0 { None } else { Some(self) }
    }

    /// Whether no point is left.
    fn cross(&self) -> bool
        ensures { IsTrue result ↔ ((self.now.lower.entry *ℤ self.now.upper.side +ℤ self.now.upper.entry *ℤ self.now.lower.side) <ℤ pos 0) }
    {
        sum(
            self.lower.entry,
            self.upper.side,
            self.upper.entry,
            self.lower.side,
        ) < 0
    }

    /// The end that is better for an objective.
    fn tip(&self, objective: i64) -> Tip
        requires { unsigned_abs objective ≤ 49152 }
        ensures { IsPeak (reach_of self.now) objective (peak_of result) }
    {
        if objective < 0 {
            return Tip {
                row: self.lower.row,
                at: -self.lower.side,
                den: self.lower.entry,
                times: -objective,
            };
        }
        Tip {
            row: self.upper.row,
            at: self.upper.side,
            den: self.upper.entry,
            times: objective,
        }
    }
}

/// The one of two parts that stands at a place.
fn placed(place: usize, k: usize, own: i64, other: i64) -> i64
    ensures own { k ≡ place → result ≡ own }
    ensures other { k ≢ place → result ≡ other }
{
    if k == place { own } else { other }
}

/// The entry of an objective at a place.
fn weight(objective: [i32; 3], place: usize) -> i64
    requires inside { place < 3 }
    requires small { All (λ x. unsigned_abs x ≤ 8192) objective }
    ensures value { result ≡ entry objective place }
    ensures small { unsigned_abs result ≤ 8192 }
{
    objective[place] as i64
}

impl Edge {
    /// A number with the sign of the edge.
    fn signed(&self, x: i64) -> i64
        requires { unsigned_abs x ≤ 2 ^ 57 }
        ensures value { result ≡ self.now.sign *ℤ x }
        ensures small { unsigned_abs result ≤ unsigned_abs x }
    {
        self.sign * x
    }

    /// What a row is multiplied by before the variable goes, by its entry.
    fn factor(&self, own: i64) -> i64
        ensures value { result ≡ cond (is_nought own) (pos 1) self.now.size }
        ensures small { unsigned_abs result ≤ 3 }
    {
        if own == 0 { 1 } else { self.size }
    }

    /// What is left of a row.
    fn cut(&self, row: Half) -> Cut
        ensures entry { result.entry ≡ left_entry (pivot_of self.now) (half_line row) (1 - self.now.place) }
        ensures side { result.side ≡ left_side (pivot_of self.now) (half_line row) }
    {
        let own = row.at(self.place);
        let factor = self.factor(own);
        let other = row.at(1 - self.place);
        Cut {
            entry: difference(factor, other, own, self.other),
            side: difference(factor, row.side, own, self.side),
        }
    }

    /// What is left of the objective.
    fn rest(&self, objective: [i32; 3]) -> i64
        requires small { All (λ x. unsigned_abs x ≤ 8192) objective }
        ensures value { result ≡ left_objective (pivot_of self.now) objective (1 - self.now.place) }
        ensures small { unsigned_abs result ≤ 49152 }
    {
        let own = weight(objective, self.place);
        let other = weight(objective, 1 - self.place);
        difference(self.size, other, self.other, own)
    }

    /// The bounds that the box of the other variable makes.
    fn other_ends(&self, rows: &Rows) -> Ends
        requires program { IsProgram rows.now }
        requires dimension { rows.now.dimension ≡ 2 }
        requires narrow { AreNarrow (lines_of rows.now) 4 }
        ensures { AreEnds (lines_of rows.now) (pivot_of self.now) (1 - self.now.place) (IsBoxRow (1 - self.now.place)) (λ l. l < 4) result }
    {
        let k = 1 - self.place as u32;
        let upper = known_at(rows, 2 * k);
        let lower = known_at(rows, 2 * k + 1);
        Ends {
            upper: Bound {
                row: 2 * k,
                entry: 1,
                side: upper.side,
            },
            lower: Bound {
                row: 2 * k + 1,
                entry: 1,
                side: lower.side,
            },
        }
    }

    /// The bounds with that of one more row, or its number, if no point of the edge meets it.
    fn with_row(&self, rows: &Rows, ends: Ends, l: u32) -> Result<Ends, u32>
        requires dimension { rows.now.dimension ≡ 2 }
        requires within { l < length rows.now.rows }
        requires narrow { unsigned_abs (line_at (lines_of rows.now) l).h ≤ 2 ^ 51 }
        ensures { MatchResult result (λ f. IsCutByRow (lines_of rows.now) (pivot_of self.now) (1 - self.now.place) (reach_of ends) l (reach_of f)) (λ m. (m ≡ l) × IsMissedRow (lines_of rows.now) (pivot_of self.now) (1 - self.now.place) l) }
    {
        match ends.cut(self.cut(known_at(rows, l)), l) {
            Some(ends) => Ok(ends),
            None => Err(l),
        }
    }

    /// The bounds that the box makes, or one of its rows that no point of the edge meets.
    fn box_ends(&self, rows: &Rows) -> Result<Ends, u32>
        requires program { IsProgram rows.now }
        requires dimension { rows.now.dimension ≡ 2 }
        requires narrow { AreNarrow (lines_of rows.now) 4 }
        ensures { MatchResult result (AreEnds (lines_of rows.now) (pivot_of self.now) (1 - self.now.place) (λ l. l < 4) (λ l. l < 4)) (IsApart (lines_of rows.now) (pivot_of self.now) (1 - self.now.place) (λ l. l < 4)) }
    {
        let own = 2 * self.place as u32;
        let ends = match self.with_row(rows, self.other_ends(rows), own) {
            Ok(ends) => ends,
            Err(l) => return Err(l),
        };
        match self.with_row(rows, ends, own + 1) {
            Ok(ends) => Ok(ends),
            Err(l) => Err(l),
        }
    }

    /// The bounds that the first `r` rows make, or one of them that no point of the edge meets.
    fn ends(&self, rows: &Rows, r: u32) -> Result<Ends, u32>
        requires program { IsProgram rows.now }
        requires dimension { rows.now.dimension ≡ 2 }
        requires within { r ≤ length rows.now.rows }
        requires boxes { 4 ≤ r }
        requires narrow { AreNarrow (lines_of rows.now) r }
        ensures { MatchResult result (AreEnds (lines_of rows.now) (pivot_of self.now) (1 - self.now.place) (λ l. l < r) (λ l. l < r)) (IsApart (lines_of rows.now) (pivot_of self.now) (1 - self.now.place) (λ l. l < r)) }
    {
        let mut ends = match self.box_ends(rows) {
            Ok(ends) => ends,
            Err(l) => return Err(l),
        };
        for l in 4..r {
            ends = match self.with_row(rows, ends, l) {
                Ok(ends) => ends,
                Err(l) => return Err(l),
            };
        }
        Ok(ends)
    }

    /// Multipliers of two rows, as rows of the program with both variables, and that of the edge's row, by which the variable
    /// goes.
    fn farkas(&self, rows: &Rows, r: u32, first: (u32, i64), second: (u32, i64)) -> Multipliers
        requires dimension { rows.now.dimension ≡ 2 }
        requires first_row { first.0 < length rows.now.rows }
        requires second_row { second.0 < length rows.now.rows }
        requires first_narrow { unsigned_abs (line_at (lines_of rows.now) first.0).h ≤ 2 ^ 51 }
        requires second_narrow { unsigned_abs (line_at (lines_of rows.now) second.0).h ≤ 2 ^ 51 }
        requires first_times { unsigned_abs first.1 ≤ 18 }
        requires second_times { unsigned_abs second.1 ≤ 18 }
        ensures { result ≡ farkas_of (pivot_of self.now) (lines_of rows.now) r first second }
    {
        let own = known_at(rows, first.0).at(self.place);
        let other = known_at(rows, second.0).at(self.place);
        let mut items = Multipliers::new();
        items.push((first.0, multiple(self.factor(own), first.1) as i128));
        items.push((second.0, multiple(self.factor(other), second.1) as i128));
        let back = self.signed(sum(first.1, own, second.1, other));
        items.push((r, -(back as i128)));
        items
    }

    /// The optimum on the edge, from the better end, which is on the given row.
    fn spot(&self, objective: [i32; 3], r: u32, tip: Tip, row: Half) -> Spot
        requires small { All (λ x. unsigned_abs x ≤ 8192) objective }
        ensures { IsSpot self.now objective r tip (half_line row) result }
    {
        let along = difference(tip.den, self.side, self.other, tip.at);
        let across = multiple(self.size, tip.at);
        let own = row.at(self.place);
        let weight = weight(objective, self.place);
        Spot {
            first: placed(self.place, 0, along, across),
            second: placed(self.place, 1, along, across),
            den: multiple(self.size, tip.den),
            row: tip.row,
            times: multiple(self.factor(own), tip.times),
            base: r,
            base_times: self.signed(difference(tip.den, weight, own, tip.times)),
        }
    }
}

impl Spot {
    /// Whether the point meets a row.
    fn meets(&self, row: Half) -> bool
        ensures { IsTrue result ↔ (along (half_line row).c (spot_num self.now) ≤ℤ ((half_line row).h *ℤ self.now.den)) }
    {
        sum(row.first, self.first, row.second, self.second) <= multiple(self.den, row.side)
    }

    /// The optimum in wider numbers.
    fn optimum(&self) -> Optimum
        ensures { result ≡ optimum_of self.now }
    {
        let mut items = Multipliers::new();
        items.push((self.row, self.times as i128));
        items.push((self.base, self.base_times as i128));
        Optimum {
            num: [self.first as i128, self.second as i128, 0],
            den: self.den as i128,
            items,
        }
    }
}

/// The end of a variable's box that is best for its coefficient in the objective, if the box isn't empty.
fn box_end(rows: &Rows, k: u32, times: i64) -> Option<BoxEnd>
    requires program { IsProgram rows.now }
    requires dimension { rows.now.dimension ≡ 2 }
    requires place { k < 2 }
    requires times { unsigned_abs times ≤ 8192 }
    ensures best { IfSome result (λ e. IsEnd (lines_of rows.now) k times (end_of e)) }
    ensures narrow_upper { IfSome result (λ e. unsigned_abs (line_at (lines_of rows.now) (2 * k)).h ≤ 2 ^ 51) }
    ensures narrow_lower { IfSome result (λ e. unsigned_abs (line_at (lines_of rows.now) (2 * k + 1)).h ≤ 2 ^ 51) }
{
    let upper = half_at(rows, 2 * k)?.side;
    let lower = half_at(rows, 2 * k + 1)?.side;
    if upper + lower < 0 {
        return None;
    }
    if times < 0 {
        return Some(BoxEnd {
            at: -lower,
            row: 2 * k + 1,
            times: -times,
        });
    }
    Some(BoxEnd {
        at: upper,
        row: 2 * k,
        times,
    })
}

/// The best corner of the box.
fn corner(rows: &Rows, objective: [i32; 3]) -> Option<Spot>
    requires program { IsProgram rows.now }
    requires dimension { rows.now.dimension ≡ 2 }
    requires objective { All (λ x. unsigned_abs x ≤ 8192) objective }
    requires zeros { (k : ℕ) → rows.now.dimension ≤ k → entry objective k ≡ pos 0 }
    ensures best { IfSome result (λ s. IsBest (is_seen (whole_of rows.now).live 4) (whole_of rows.now) objective (optimum_of s)) }
    ensures narrow { IfSome result (λ s. AreNarrow (lines_of rows.now) 4) }
{
    let first = box_end(rows, 0, weight(objective, 0))?;
    let second = box_end(rows, 1, weight(objective, 1))?;
    Some(Spot {
        first: first.at,
        second: second.at,
        den: 1,
        row: first.row,
        times: first.times,
        base: second.row,
        base_times: second.times,
    })
}

/// The optimum on the edge of a row that the optimum so far breaks, if there is one. It is kept out of the loop, where most
/// rows hold.
#[inline(never)]
fn on_edge(rows: &Rows, objective: [i32; 3], r: u32, row: Half, old: &Spot) -> Option<Spot>
    requires program { IsProgram rows.now }
    requires dimension { rows.now.dimension ≡ 2 }
    requires objective { All (λ x. unsigned_abs x ≤ 8192) objective }
    requires zeros { (k : ℕ) → rows.now.dimension ≤ k → entry objective k ≡ pos 0 }
    requires within { r < length rows.now.rows }
    requires boxes { 4 ≤ r }
    requires narrow { AreNarrow (lines_of rows.now) r }
    requires row { half_line row ≡ line_at (lines_of rows.now) r }
    requires best { IsBest (is_seen (whole_of rows.now).live r) (whole_of rows.now) objective (optimum_of old.now) }
    requires broken { ((half_line row).h *ℤ old.now.den) <ℤ along (half_line row).c (spot_num old.now) }
    ensures { IfSome result (λ s. IsBest (is_seen (whole_of rows.now).live (r + 1)) (whole_of rows.now) objective (optimum_of s)) }
{
    let edge = edge_of(row)?;
    let Ok(ends) = edge.ends(rows, r) else {
        return None;
    };
    if ends.cross() {
        return None;
    }
    let tip = ends.tip(edge.rest(objective));
    let base = known_at(rows, tip.row);
    Some(edge.spot(objective, r, tip, base))
}

/// A proof that the edge of a row that the optimum so far breaks has no optimum, so that nothing meets the rows. It is kept apart
/// from the search for the optimum, which is then shorter.
#[inline(never)]
fn off_edge(rows: &Rows, objective: [i32; 3], r: u32, row: Half, old: &Spot) -> Option<Multipliers>
    requires program { IsProgram rows.now }
    requires dimension { rows.now.dimension ≡ 2 }
    requires objective { All (λ x. unsigned_abs x ≤ 8192) objective }
    requires zeros { (k : ℕ) → rows.now.dimension ≤ k → entry objective k ≡ pos 0 }
    requires within { r < length rows.now.rows }
    requires boxes { 4 ≤ r }
    requires narrow { AreNarrow (lines_of rows.now) r }
    requires row { half_line row ≡ line_at (lines_of rows.now) r }
    requires best { IsBest (is_seen (whole_of rows.now).live r) (whole_of rows.now) objective (optimum_of old.now) }
    requires broken { ((half_line row).h *ℤ old.now.den) <ℤ along (half_line row).c (spot_num old.now) }
    ensures { IfSome result (IsEmpty (whole_of rows.now)) }
{
    let Some(edge) = edge_of(row) else {
        return Some(only(r));
    };
    let ends = match edge.ends(rows, r) {
        Ok(ends) => ends,
        Err(l) => return Some(edge.farkas(rows, r, (l, 1), (l, 0))),
    };
    if ends.cross() {
        let upper = ends.upper;
        let lower = ends.lower;
        return Some(edge.farkas(rows, r, (upper.row, lower.entry), (lower.row, upper.entry)));
    }
    None
}

/// What a program of two variables comes to, unless a side is too large for 64 bits or the box is empty.
pub fn walk(rows: &Rows, objective: [i32; 3]) -> Option<Outcome>
    requires dimension { rows.now.dimension ≡ 2 }
    requires objective { All (λ x. unsigned_abs x ≤ 8192) objective }
    requires zeros { (k : ℕ) → rows.now.dimension ≤ k → entry objective k ≡ pos 0 }
    ensures { IfSome result (IsOutcome all_seen (whole_of rows.now) objective) }
{
    let count = rows.len();
    let mut spot = corner(rows, objective)?;
    for r in 4..count {
        let row = half_at(rows, r)?;
        if !spot.meets(row) {
            let Some(next) = on_edge(rows, objective, r, row, &spot) else {
                return match off_edge(rows, objective, r, row, &spot) {
                    Some(items) => Some(Outcome::Infeasible(items)),
                    None => None,
                };
            };
            spot = next;
        }
    }
    Some(Outcome::Best(spot.optimum()))
}
