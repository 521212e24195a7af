//! The sizes of a report.

/// The most players of a report that is read.
pub(crate) const MOST_PLAYERS: u32 = 2;

/// The numbers of players, states and directions.
#[derive(Clone, Copy)]
pub(crate) struct Sizes {
    pub(crate) players: u32,
    pub(crate) states: u32,
    pub(crate) directions: u32,
}
