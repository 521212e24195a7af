//! Rows, objectives and optima in 128 bits, in all variables or in fewer.

ghost use Rattle.lp_cert.specs.Program.{IsProgram, axis, entry};
ghost use Rattle.lp_core.specs.Lines.{along, is_seen, line_at};
ghost use Rattle.lp_core.specs.Search.{IsReduced};
ghost use Rattle.lp_core.specs.Sizes.{AreAtMost, IsSmallLine};
ghost use Rattle.lp_core.specs.Whole.{IsWhole};
ghost use Rattle.std.specs.Int.RustNames.{unsigned_abs};
ghost use Rattle.std.specs.Prelude.{[], ℕ, ◌∷◌, ◌*ℤ◌, ◌<◌, ◌^◌, ◌↔◌, ◌≡◌, ◌≤ℤ◌, ◌≤◌, All, IsTrue, length, pos};

use lp_cert::Multipliers;

/// The inequality `c*y <= h`, where eliminations may have made the entries larger.
#[derive(Clone, Copy)]
pub struct Line {
    pub c: [i128; 3],
    pub h: i128,
}

impl Default for Line {
    fn default() -> Self
        ensures { result ≡ record { c = pos 0 ∷ pos 0 ∷ pos 0 ∷ []; h = pos 0 } }
    {
        Line { c: [0; 3], h: 0 }
    }
}

/// A point that meets the rows seen so far, with a dual that proves it the best.
#[derive(Drop)]
pub struct Optimum {
    pub num: [i128; 3],
    pub den: i128,
    pub items: Multipliers,
}

/// The product of two vectors.
pub fn product(c: [i128; 3], y: [i128; 3]) -> i128
    requires left { AreAtMost (2 ^ 21) c }
    requires right { AreAtMost (2 ^ 90) y }
    ensures { result ≡ along c y }
{
    c[0] * y[0] + (c[1] * y[1] + c[2] * y[2])
}

/// Whether a point meets a row.
pub fn meets(line: Line, num: [i128; 3], den: i128) -> bool
    requires small { IsSmallLine (2 ^ 10) (2 ^ 80) line }
    requires num { AreAtMost (2 ^ 90) num }
    requires den { unsigned_abs den ≤ 2 ^ 10 }
    ensures { IsTrue result ↔ (along line.c num ≤ℤ (line.h *ℤ den)) }
{
    product(line.c, num) <= line.h * den
}

/// A vector in wider numbers.
pub fn widened(c: [i32; 3]) -> [i128; 3]
    requires three { length c ≡ 3 }
    requires small { All (λ x. unsigned_abs x ≤ 4096) c }
    ensures { result ≡ c }
{
    [c[0] as i128, c[1] as i128, c[2] as i128]
}
