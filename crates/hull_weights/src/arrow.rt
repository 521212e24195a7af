ghost use Rattle.std.specs.Prelude.{◌^◌, ◌≤◌, unsigned_abs};

/// The way from the target to the point of this index.
#[derive(Clone, Copy)]
pub struct Arrow {
    pub index: u32,
    pub x: i128,
    pub y: i128,
    ghost x_small: { unsigned_abs x ≤ 2 ^ 41 },
    ghost y_small: { unsigned_abs y ≤ 2 ^ 41 },
}
