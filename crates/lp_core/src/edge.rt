//! What a walk over the rows of a program of two variables holds, on 64 bits.

ghost use Rattle.std.specs.Prelude.{[], ◌*ℤ◌, ◌-◌, ◌<ℤ◌, ◌<◌, ◌^◌, ◌∷◌, ◌≡◌, ◌≤◌, pos, slice_index_or, unsigned_abs};

/// The inequality `first*x + second*y <= side`.
#[derive(Clone, Copy)]
pub struct Half {
    pub first: i64,
    pub second: i64,
    pub side: i64,
    ghost small_first: { unsigned_abs first ≤ 3 },
    ghost small_second: { unsigned_abs second ≤ 3 },
    ghost small_side: { unsigned_abs side ≤ 2 ^ 51 },
}

/// A row that has become an equation, and the place of the variable that goes. Times the sign, the variable's entry is the
/// positive size.
#[derive(Clone, Copy)]
pub struct Edge {
    pub row: Half,
    pub place: usize,
    pub size: i64,
    pub sign: i64,
    /// The sign times the entry of the other variable.
    pub other: i64,
    /// The sign times the side.
    pub side: i64,
    ghost inside: { place < 3 },
    ghost planar: { place < 2 },
    ghost positive: { pos 0 <ℤ size },
    ghost small_size: { unsigned_abs size ≤ 3 },
    ghost small_sign: { unsigned_abs sign ≤ 1 },
    ghost is_size: { sign *ℤ slice_index_or (row.first ∷ row.second ∷ pos 0 ∷ []) place (pos 0) ≡ size },
    ghost is_other: { sign *ℤ slice_index_or (row.first ∷ row.second ∷ pos 0 ∷ []) (1 - place) (pos 0) ≡ other },
    ghost is_side: { sign *ℤ row.side ≡ side },
    ghost small_other: { unsigned_abs other ≤ 3 },
    ghost small_side: { unsigned_abs side ≤ 2 ^ 51 },
}

/// What is left of a row on an edge: `entry * y <= side`.
#[derive(Clone, Copy)]
pub struct Cut {
    pub entry: i64,
    pub side: i64,
    ghost small_entry: { unsigned_abs entry ≤ 18 },
    ghost small_side: { unsigned_abs side ≤ 2 ^ 54 },
}

/// The bound `side / entry` of a variable or its opposite, and the number of its row.
#[derive(Clone, Copy)]
pub struct Bound {
    pub row: u32,
    pub entry: i64,
    pub side: i64,
    ghost positive: { pos 0 <ℤ entry },
    ghost small_entry: { unsigned_abs entry ≤ 18 },
    ghost small_side: { unsigned_abs side ≤ 2 ^ 54 },
}

/// The least bound of a variable, and that of its opposite.
#[derive(Clone, Copy)]
pub struct Ends {
    pub upper: Bound,
    pub lower: Bound,
}

/// The better end of what is left of an edge: the variable is `at / den`, by the row of this number, with its multiplier.
#[derive(Clone, Copy)]
pub struct Tip {
    pub row: u32,
    pub at: i64,
    pub den: i64,
    pub times: i64,
    ghost small_at: { unsigned_abs at ≤ 2 ^ 54 },
    ghost small_den: { unsigned_abs den ≤ 18 },
    ghost small_times: { unsigned_abs times ≤ 49152 },
}

/// An optimum, and the two rows that prove it with their multipliers.
#[derive(Clone, Copy)]
pub struct Spot {
    pub first: i64,
    pub second: i64,
    pub den: i64,
    pub row: u32,
    pub times: i64,
    pub base: u32,
    pub base_times: i64,
    ghost small_first: { unsigned_abs first ≤ 2 ^ 57 },
    ghost small_second: { unsigned_abs second ≤ 2 ^ 57 },
    ghost small_den: { unsigned_abs den ≤ 54 },
}

/// The best end of the box of a variable, and the multiplier of its row.
#[derive(Clone, Copy)]
pub struct BoxEnd {
    pub at: i64,
    pub row: u32,
    pub times: i64,
    ghost small_at: { unsigned_abs at ≤ 2 ^ 51 },
}
