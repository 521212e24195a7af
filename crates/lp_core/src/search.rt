//! The search for the optimum, row by row.

ghost use Rattle.lp_cert.specs.Program.{entry};
ghost use Rattle.lp_core.specs.Elimination.{IsLifted, source_of, with_pivot};
ghost use Rattle.lp_core.specs.Lines.{all_seen, along, is_seen, line_at};
ghost use Rattle.lp_core.specs.Planar.{whole_of};
ghost use Rattle.lp_core.specs.Search.{IsBest, IsEmpty, IsOutcome, IsReduced};
ghost use Rattle.lp_core.specs.Sizes.{AreAtMost, IsSmallLine};
ghost use Rattle.lp_core.specs.Smaller.{IsOther, rest_of, smaller};
ghost use Rattle.std.specs.Int.RustNames.{unsigned_abs};
ghost use Rattle.std.specs.Prelude.{ℕ, [], ◌↔◌, ◌*ℤ◌, ◌+◌, ◌-ℤ◌, ◌<ℤ◌, ◌<◌, ◌^◌, ◌∷◌, ◌≡◌, ◌≢◌, ◌≤◌, All, IsTrue, MatchOption, false, true, length, pos, slice_index_or, slice_set};

use crate::corner::corner;
use crate::elimination::pivot_of;
use crate::pivot::Pivot;
use crate::reduced::{Line, Optimum, meets, widened};
use crate::view::{View, whole};
use crate::{plane, wide};
use lp_cert::{Multipliers, Rows};

/// What a program comes to.
#[derive(Drop)]
pub enum Outcome {
    Best(Optimum),
    Infeasible(Multipliers),
}

/// A row alone, once.
pub fn only(r: u32) -> Multipliers
    ensures { result ≡ (r, pos 1) ∷ [] }
{
    let mut items = Multipliers::new();
    items.push((r, 1));
    items
}

/// The optimum on the plane of a row, from that of the smaller program.
fn lifted(program: &View, objective: [i128; 3], pivot: &Pivot, r: u32, inner: &Optimum) -> Optimum
    requires own { IsSmallLine (2 ^ 10) (2 ^ 80) pivot.now.line }
    requires num { AreAtMost (2 ^ 90) inner.now.num }
    requires den { unsigned_abs inner.now.den ≤ 2 ^ 10 }
    requires objective { AreAtMost (2 ^ 21) objective }
    requires few { length inner.now.items ≤ 3 }
    requires small { All (λ item. unsigned_abs item.1 ≤ 2 ^ 20) inner.now.items }
    requires rows { All (λ item. source_of pivot.now program.now.live r item.0 < length program.now.lines) inner.now.items }
    requires lines { (l : ℕ) → l < length program.now.lines → IsSmallLine (2 ^ 10) (2 ^ 80) (line_at program.now.lines l) }
    ensures num { IsLifted pivot.now inner.now.num inner.now.den result.num }
    ensures den { result.den ≡ pivot.now.size *ℤ inner.now.den }
    ensures items { result.items ≡ with_pivot pivot.now program.now.lines program.now.live r (inner.now.den *ℤ entry objective pivot.now.place) inner.now.items }
{
    let num = pivot.lifted_point(inner.num, inner.den);
    Optimum {
        num,
        den: pivot.size * inner.den,
        items: pivot.lifted_items(program, r, &inner.items, inner.den * objective[pivot.place]),
    }
}

/// Whether a variable is the only one that is live.
fn is_alone(live: [bool; 3], place: usize) -> bool
    ensures { IsTrue result ↔ ((k : ℕ) → k < 3 → k ≢ place → slice_index_or live k false ≡ false) }
{
    for k in 0..3usize {
        if k != place && live[k] {
            return false;
        }
    }
    true
}

/// The numerators of the only point of a row in one variable.
fn only_point(pivot: &Pivot) -> [i128; 3]
    requires { IsSmallLine (2 ^ 10) (2 ^ 80) pivot.now.line }
    ensures { result ≡ slice_set (pos 0 ∷ pos 0 ∷ pos 0 ∷ []) pivot.now.place (pivot.now.sign *ℤ pivot.now.line.h) }
{
    let mut num = [0; 3];
    num[pivot.place] = pivot.sign * pivot.line.h;
    num
}

/// The multiplier that makes a row in one variable bound the objective.
fn only_bound(pivot: &Pivot, r: u32, objective: [i128; 3]) -> Multipliers
    requires { AreAtMost (2 ^ 21) objective }
    ensures { result ≡ (r, pivot.now.sign *ℤ entry objective pivot.now.place) ∷ [] }
{
    let mut items = Multipliers::new();
    items.push((r, pivot.sign * objective[pivot.place]));
    items
}

/// Two rows in one variable that no point meets.
fn crossing(pivot: &Pivot, r: u32, line: Line, l: u32) -> Multipliers
    requires { AreAtMost (2 ^ 10) line.c }
    ensures { result ≡ (l, pivot.now.size) ∷ (r, pos 0 -ℤ pivot.now.sign *ℤ entry line.c pivot.now.place) ∷ [] }
{
    let mut items = Multipliers::new();
    items.push((l, pivot.size));
    items.push((r, -(pivot.sign * line.c[pivot.place])));
    items
}

/// The optimum on the plane of a row where one variable is left, and the plane is a point.
fn forced(
    program: &View,
    objective: [i128; 3],
    pivot: &Pivot,
    r: u32,
    best: &mut Optimum,
) -> Option<Multipliers>
    requires reduced { IsReduced program.now objective }
    requires within { r < length program.now.lines }
    requires best { IsBest (is_seen program.now.live r) program.now objective best.old }
    requires line { pivot.now.line ≡ line_at program.now.lines r }
    requires alone { (k : ℕ) → k < 3 → k ≢ pivot.now.place → slice_index_or program.now.live k false ≡ false }
    requires broken { (pivot.now.line.h *ℤ best.old.den) <ℤ along pivot.now.line.c best.old.num }
    ensures { MatchOption result (IsBest (is_seen program.now.live (r + 1)) program.now objective best.new) (IsEmpty program.now) }
{
    let num = only_point(pivot);
    for l in 0..program.len() {
        let line = program.line(l);
        if program.is_seen(r, l) && !meets(line, num, pivot.size) {
            return Some(crossing(pivot, r, line, l));
        }
    }
    let items = only_bound(pivot, r, objective);
    *best = Optimum {
        num,
        den: pivot.size,
        items,
    };
    None
}

/// The only other variable that is live, or none where both others are.
fn other_of(live: [bool; 3], place: usize) -> Option<usize>
    requires place { place < 3 }
    requires some { ((k : ℕ) → k < 3 → k ≢ place → slice_index_or live k false ≡ false) → ⊥ }
    ensures { MatchOption result ((k : ℕ) → k < 3 → k ≢ place → slice_index_or live k false ≡ true) (IsOther live place) }
{
    let first = if place == 0 { 1 } else { 0 };
    let second = if place == 2 { 1 } else { 2 };
    if !live[first] {
        return Some(second);
    }
    if !live[second] {
        return Some(first);
    }
    None
}

/// What is left of a program without the variable of a pivot comes to.
#[cycle(search)]
fn inner(program: &View, objective: [i128; 3], pivot: &Pivot, r: u32) -> Outcome
    requires reduced { IsReduced program.now objective }
    requires within { r < length program.now.lines }
    requires line { pivot.now.line ≡ line_at program.now.lines r }
    requires some { ((k : ℕ) → k < 3 → k ≢ pivot.now.place → slice_index_or program.now.live k false ≡ false) → ⊥ }
    ensures { IsOutcome all_seen (smaller pivot.now program.now r) (rest_of pivot.now objective) result }
{
    match other_of(program.live(), pivot.place) {
        Some(k) => wide::solved(program, objective, pivot, k, r),
        None => match plane::walked(program.rows(), objective, pivot, r) {
            Some(outcome) => outcome,
            None => solved(&program.without(pivot, r), pivot.rest(objective)),
        },
    }
}

/// The optimum on the plane of a row that the optimum so far breaks. It is kept out of the loop, where most rows hold.
#[cycle(search)]
#[inline(never)]
fn on_plane(
    program: &View,
    objective: [i128; 3],
    r: u32,
    line: Line,
    best: &mut Optimum,
) -> Option<Multipliers>
    requires reduced { IsReduced program.now objective }
    requires within { r < length program.now.lines }
    requires best { IsBest (is_seen program.now.live r) program.now objective best.old }
    requires line { line ≡ line_at program.now.lines r }
    requires broken { (line.h *ℤ best.old.den) <ℤ along line.c best.old.num }
    ensures { MatchOption result (IsBest (is_seen program.now.live (r + 1)) program.now objective best.new) (IsEmpty program.now) }
{
    let Some(pivot) = pivot_of(line) else {
        return Some(only(r));
    };
    if is_alone(program.live(), pivot.place) {
        return forced(program, objective, &pivot, r, best);
    }
    match inner(program, objective, &pivot, r) {
        Outcome::Best(inner) => {
            *best = lifted(program, objective, &pivot, r, &inner);
            None
        }
        Outcome::Infeasible(items) => Some(pivot.lifted_items(program, r, &items, 0)),
    }
}

/// Takes one more row into account. The optimum meets the box of the live variables from the start.
#[cycle(search)]
fn tightened(
    program: &View,
    objective: [i128; 3],
    r: u32,
    best: &mut Optimum,
) -> Option<Multipliers>
    requires reduced { IsReduced program.now objective }
    requires within { r < length program.now.lines }
    requires best { IsBest (is_seen program.now.live r) program.now objective best.old }
    ensures { MatchOption result (IsBest (is_seen program.now.live (r + 1)) program.now objective best.new) (IsEmpty program.now) }
{
    if program.is_seen(r, r) {
        return None;
    }
    let line = program.line(r);
    if meets(line, best.num, best.den) {
        return None;
    }
    on_plane(program, objective, r, line, best)
}

/// The optimum of a program, or multipliers that prove it empty.
#[cycle(search)]
pub fn solved(program: &View, objective: [i128; 3]) -> Outcome
    requires { IsReduced program.now objective }
    ensures { IsOutcome all_seen program.now objective result }
{
    let mut best = match corner(program, objective) {
        Outcome::Best(best) => best,
        Outcome::Infeasible(items) => return Outcome::Infeasible(items),
    };
    for r in 0..program.len() {
        if let Some(items) = tightened(program, objective, r, &mut best) {
            return Outcome::Infeasible(items);
        }
    }
    Outcome::Best(best)
}

/// What a program comes to, by the search in all its variables. It is kept apart from the walk in 64 bits, which takes most
/// programs of two variables.
#[inline(never)]
pub fn searched(rows: &Rows, objective: [i32; 3]) -> Outcome
    requires objective { All (λ x. unsigned_abs x ≤ 4096) objective }
    requires zeros { (k : ℕ) → rows.now.dimension ≤ k → entry objective k ≡ pos 0 }
    ensures { IsOutcome all_seen (whole_of rows.now) objective result }
{
    solved(&whole(rows), widened(objective))
}
