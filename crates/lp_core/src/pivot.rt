//! A row that becomes an equation.

ghost use Rattle.std.specs.Prelude.{◌*ℤ◌, ◌<ℤ◌, ◌<◌, ◌≡◌, ◌≤◌, pos, slice_index_or, unsigned_abs};

use crate::reduced::Line;

/// A row and the place of a variable in it. The variable's entry is `sign * size`.
#[derive(Clone, Copy)]
pub struct Pivot {
    pub line: Line,
    pub place: usize,
    pub size: i128,
    pub sign: i128,
    ghost inside: { place < 3 },
    ghost positive: { pos 0 <ℤ size },
    ghost small_sign: { unsigned_abs sign ≤ 1 },
    ghost is_size: { sign *ℤ slice_index_or line.c place (pos 0) ≡ size },
}

/// A row that has become an equation and its number: it eliminates a variable from the rows before it.
#[derive(Clone, Copy)]
pub struct Step {
    pub pivot: Pivot,
    pub r: u32,
}
