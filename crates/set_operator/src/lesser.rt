//! The lesser of a level and the row level.

/// The lesser of a level and the row level, and a profile that reaches it: where to begin the next time.
#[derive(Clone, Copy)]
pub struct Lesser {
    pub level: i64,
    pub profile: u32,
}
