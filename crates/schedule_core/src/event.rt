/// What one atomic step does to the words. Rows and workers are numbered from 0, and worker 0 is the owner.
#[derive(Clone, Copy, Debug, PartialEq, Eq)]
pub enum Event {
    /// The worker reads the word of the row.
    Load { w: u32, row: u32 },
    /// The worker lowers the word of the row to the level, if it is greater, and has then seen the lesser of both.
    Lower { w: u32, row: u32, level: i64 },
    /// The owner makes the row of a state that has a note Empty.
    Clear { row: u32 },
}
