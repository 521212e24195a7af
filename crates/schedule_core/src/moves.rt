use game_model::List;

/// A move of a schedule. Rows and workers are numbered from 0, and worker 0 is the owner.
#[derive(Clone, Copy, Debug, PartialEq, Eq)]
pub enum Move {
    /// The worker loads the word of the row.
    Load { w: u32, row: u32 },
    /// The worker lowers the word of the row to the row level of what it has seen, where that is a number.
    Lower { w: u32, row: u32 },
    /// The owner makes the row Empty, where its state has a note or, under what the owner has seen, admits nothing.
    Clear { row: u32 },
}

/// A schedule: a number of workers, 1 to 16, and the moves that they make in this order.
#[derive(Drop)]
pub struct Schedule {
    pub workers: u32,
    pub moves: List<Move>,
}
