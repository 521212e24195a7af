/// A point of a state, in units of `1/(denominator*n)`, with the profile from which on it is tried.
#[derive(Clone, Copy)]
pub struct Item {
    pub point: [i64; 2],
    pub profile: u32,
}
