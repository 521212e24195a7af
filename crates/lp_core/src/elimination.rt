//! The elimination of a variable, and the way back.

ghost use Rattle.lp_cert.specs.Program.{entry};
ghost use Rattle.lp_core.specs.Elimination.{AreEliminated, IsEliminated, IsLifted, IsRest, factor_of, source_of, way, with_pivot};
ghost use Rattle.lp_core.specs.Lines.{along, is_seen, line_at};
ghost use Rattle.lp_core.specs.Smaller.{rest_of};
ghost use Rattle.lp_core.specs.Sizes.{AreAtMost, AreFew, IsSmallLine};
ghost use Rattle.exact_algebra.specs.Sums.{total_by};
ghost use Rattle.std.specs.Int.RustNames.{unsigned_abs};
ghost use Rattle.std.specs.Prelude.{ℕ, [], ◌*ℤ◌, ◌*◌, ◌++◌, ◌+ℤ◌, ◌-ℤ◌, ◌<◌, ◌^◌, ◌∷◌, ◌≡◌, ◌≢◌, ◌≤◌, All, MatchOption, false, length, map, max, min, pos, slice_set};

use crate::pivot::Pivot;
use crate::reduced::{Line, product};
use crate::view::View;
use lp_cert::Multipliers;

/// The first variable of a row, if it has any.
pub fn pivot_of(line: Line) -> Option<Pivot>
    requires { IsSmallLine (2 ^ 10) (2 ^ 80) line }
    ensures { MatchOption result ((k : ℕ) → k < 3 → entry line.c k ≡ pos 0) (λ p. p.line ≡ line) }
{
    for place in 0..3usize {
        let entry = line.c[place];
        if entry > 0 {
            return Some(Pivot {
                line,
                place,
                size: entry,
                sign: 1,
            });
        }
        if entry < 0 {
            return Some(Pivot {
                line,
                place,
                size: -entry,
                sign: -1,
            });
        }
    }
    None
}

/// A multiple less another.
fn difference(factor: i128, a: i128, times: i128, b: i128) -> i128
    requires factor { unsigned_abs factor ≤ 2 ^ 10 }
    requires left { unsigned_abs a ≤ 2 ^ 90 }
    requires times { unsigned_abs times ≤ 2 ^ 21 }
    requires right { unsigned_abs b ≤ 2 ^ 102 }
    ensures { result ≡ factor *ℤ a -ℤ times *ℤ b }
{
    factor * a - times * b
}

/// A multiple less another, of numbers that fit 64 bits.
fn small_difference(factor: i128, a: i128, times: i128, b: i128) -> i128
    requires factor { unsigned_abs factor ≤ 2 ^ 10 }
    requires left { unsigned_abs a ≤ 2 ^ 21 }
    requires times { unsigned_abs times ≤ 2 ^ 21 }
    requires right { unsigned_abs b ≤ 2 ^ 10 }
    ensures { result ≡ factor *ℤ a -ℤ times *ℤ b }
{
    let kept = factor as i64 * a as i64;
    let gone = times as i64 * b as i64;
    (kept - gone) as i128
}

/// A multiple of a vector less a multiple of another.
fn combined(factor: i128, a: [i128; 3], times: i128, b: [i128; 3]) -> [i128; 3]
    requires factor { unsigned_abs factor ≤ 2 ^ 10 }
    requires times { unsigned_abs times ≤ 2 ^ 21 }
    requires left { AreAtMost (2 ^ 21) a }
    requires right { AreAtMost (2 ^ 10) b }
    ensures { (k : ℕ) → k < 3 → entry result k ≡ factor *ℤ entry a k -ℤ times *ℤ entry b k }
{
    [
        small_difference(factor, a[0], times, b[0]),
        small_difference(factor, a[1], times, b[1]),
        small_difference(factor, a[2], times, b[2]),
    ]
}

impl Pivot {
    /// What a row is multiplied by before the variable goes.
    fn factor(&self, line: Line) -> i128
        ensures { result ≡ factor_of self.now line }
    {
        if line.c[self.place] == 0 {
            1
        } else {
            self.size
        }
    }

    /// The multiplier of a row, by that of its form without the variable.
    fn lifted_times(&self, line: Line, times: i128) -> i128
        requires size { unsigned_abs self.now.size ≤ 2 ^ 10 }
        requires times { unsigned_abs times ≤ 2 ^ 20 }
        ensures { result ≡ factor_of self.now line *ℤ times }
    {
        self.factor(line) * times
    }

    /// A multiple of the variable's entry.
    fn weighed(&self, line: Line, times: i128) -> i128
        requires small { AreAtMost (2 ^ 10) line.c }
        requires times { unsigned_abs times ≤ 2 ^ 20 }
        ensures value { result ≡ times *ℤ entry line.c self.now.place }
        ensures bound { unsigned_abs result ≤ 2 ^ 30 }
    {
        times * line.c[self.place]
    }

    /// A row without the variable.
    pub fn eliminated(&self, line: Line) -> Line
        requires own { IsSmallLine (2 ^ 10) (2 ^ 80) self.now.line }
        requires small { IsSmallLine (2 ^ 10) (2 ^ 80) line }
        ensures { IsEliminated self.now line result }
    {
        if line.c[self.place] == 0 {
            return line;
        }
        let times = self.sign * line.c[self.place];
        Line {
            c: combined(self.size, line.c, times, self.line.c),
            h: difference(self.size, line.h, times, self.line.h),
        }
    }

    /// The objective without the variable.
    pub fn rest(&self, objective: [i128; 3]) -> [i128; 3]
        requires own { IsSmallLine (2 ^ 10) (2 ^ 80) self.now.line }
        requires small { AreAtMost (2 ^ 21) objective }
        ensures { result ≡ rest_of self.now objective }
    {
        combined(
            self.size,
            objective,
            self.sign * objective[self.place],
            self.line.c,
        )
    }

    /// The number of the row that stands at place `l` of the smaller program. One that hasn't been seen is stood in for by
    /// the box of the eliminated variable.
    fn source(&self, program: &View, r: u32, l: u32) -> u32
        ensures { result ≡ source_of self.now program.now.live r l }
    {
        if program.is_seen(r, l) {
            l
        } else {
            2 * self.place as u32
        }
    }

    /// How far the point of the plane is from a multiple of the point of the smaller program, along the axis of the variable.
    fn way(&self, num: [i128; 3], den: i128) -> i128
        requires own { IsSmallLine (2 ^ 10) (2 ^ 80) self.now.line }
        requires num { AreAtMost (2 ^ 90) num }
        requires den { unsigned_abs den ≤ 2 ^ 10 }
        ensures value { result ≡ way self.now num den }
        ensures small { unsigned_abs result ≤ 2 ^ 110 }
    {
        self.sign * difference(den, self.line.h, 1, product(self.line.c, num))
    }

    /// A part of the point of the plane.
    fn lifted_part(&self, part: i128, k: usize, way: i128) -> i128
        requires own { IsSmallLine (2 ^ 10) (2 ^ 80) self.now.line }
        requires part { unsigned_abs part ≤ 2 ^ 90 }
        requires way { unsigned_abs way ≤ 2 ^ 110 }
        ensures moved { k ≡ self.now.place → result ≡ self.now.size *ℤ part +ℤ way }
        ensures others { k ≢ self.now.place → result ≡ self.now.size *ℤ part }
    {
        if k == self.place {
            self.size * part + way
        } else {
            self.size * part
        }
    }

    /// The point of the plane whose other parts are those of a point of the smaller program.
    pub fn lifted_point(&self, num: [i128; 3], den: i128) -> [i128; 3]
        requires own { IsSmallLine (2 ^ 10) (2 ^ 80) self.now.line }
        requires num { AreAtMost (2 ^ 90) num }
        requires den { unsigned_abs den ≤ 2 ^ 10 }
        ensures { IsLifted self.now num den result }
    {
        let way = self.way(num, den);
        [
            self.lifted_part(num[0], 0, way),
            self.lifted_part(num[1], 1, way),
            self.lifted_part(num[2], 2, way),
        ]
    }

    /// The multipliers of the rows, and that of the pivot row, which makes the sum of the variable's entries `wanted` times
    /// its size.
    pub fn lifted_items(
        &self,
        program: &View,
        r: u32,
        items: &Multipliers,
        wanted: i128,
    ) -> Multipliers
        requires few { length items.now ≤ 3 }
        requires small { All (λ item. unsigned_abs item.1 ≤ 2 ^ 20) items.now }
        requires rows { All (λ item. source_of self.now program.now.live r item.0 < length program.now.lines) items.now }
        requires lines { (l : ℕ) → l < length program.now.lines → IsSmallLine (2 ^ 10) (2 ^ 80) (line_at program.now.lines l) }
        requires size { unsigned_abs self.now.size ≤ 2 ^ 10 }
        requires wanted { unsigned_abs wanted ≤ 2 ^ 40 }
        ensures { result ≡ with_pivot self.now program.now.lines program.now.live r wanted items.now }
    {
        let mut lifted = Multipliers::new();
        let mut sum = 0;
        for i in 0..items.len() {
            let (l, times) = *items.get(i);
            let source = self.source(program, r, l);
            let line = program.line(source);
            lifted.push((source, self.lifted_times(line, times)));
            sum += self.weighed(line, times);
        }
        lifted.push((r, self.sign * (wanted - sum)));
        lifted
    }
}
