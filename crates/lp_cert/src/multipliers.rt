//! Row numbers with multipliers.

use lists::Few;

/// How many multipliers there is room for.
pub const ROOM: u32 = 4;

/// At most four row numbers, each with a multiplier.
///
/// A certificate in up to three variables needs no more. Multipliers are whole numbers; those of a certificate are at least 0
/// and at most 2^20.
pub type Multipliers = Few<(u32, i128), 4>;

/// Multipliers that prove a bound of the objective: with a denominator `den` the rows' multiples add up to `den` times the
/// objective, and their sides to the bound times `den` (Gale, Kuhn and Tucker 1951).
#[derive(Drop)]
pub struct Dual {
    pub items: Multipliers,
}

/// Multipliers that prove that no point meets the rows: the rows' multiples add up to zero, and their sides to less than zero
/// (Farkas 1902).
#[derive(Drop)]
pub struct Farkas {
    pub items: Multipliers,
}
