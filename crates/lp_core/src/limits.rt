//! Bounds of the last variable on the line of a row, on 128 bits.

ghost use Rattle.std.specs.Prelude.{◌<ℤ◌, ◌^◌, ◌≤◌, pos, unsigned_abs};

/// The bound `side / entry` of a variable or its opposite, and the number of its row.
#[derive(Clone, Copy)]
pub struct Bound {
    pub row: u32,
    pub entry: i128,
    pub side: i128,
    ghost positive: { pos 0 <ℤ entry },
    ghost small_entry: { unsigned_abs entry ≤ 18 },
    ghost small_side: { unsigned_abs side ≤ 2 ^ 68 },
}

/// The least bound of a variable, and that of its opposite.
#[derive(Clone, Copy)]
pub struct Ends {
    pub upper: Bound,
    pub lower: Bound,
}

/// The better end of what is left of a line: the variable is `at / den`, by the row of this number, with its multiplier.
#[derive(Clone, Copy)]
pub struct Tip {
    pub row: u32,
    pub at: i128,
    pub den: i128,
    pub times: i128,
    ghost small_at: { unsigned_abs at ≤ 2 ^ 68 },
    ghost small_den: { unsigned_abs den ≤ 18 },
    ghost small_times: { unsigned_abs times ≤ 49152 },
}
