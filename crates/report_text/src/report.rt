use game_model::List;
use level_table::{LevelTable, Notes};
use selfgen_check::Corr;
use set_operator::Verdict;

/// What a run found.
#[derive(Drop)]
pub struct Report {
    pub players: u32,
    pub states: u32,
    pub directions: u32,
    /// The discount factors, one for each player, in lowest terms.
    pub discounts: List<(u32, u32)>,
    /// The levels are in units of `1/unit`.
    pub unit: i128,
    pub slack: u64,
    pub sweeps: u64,
    pub levels: LevelTable,
    pub verdict: Verdict,
    /// Why states are empty, in the order in which they were found to be.
    pub notes: Notes,
    /// The inner sets, one for each state, where they were asked for.
    pub inner: Option<Corr>,
    /// For each state the numbers of the profiles that its entries in `inner` play; nothing where `inner` is none.
    pub numbers: List<List<u32>>,
}
