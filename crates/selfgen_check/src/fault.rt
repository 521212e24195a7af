/// The first part of an entry that is broken.
#[derive(Clone, Copy, Debug, PartialEq, Eq)]
pub enum Why {
    /// A strategy is out of range.
    Profile,
    /// An outcome isn't an entry of the state that follows.
    Lottery,
    /// The weights add up to zero.
    Weights,
    /// There isn't one number for each deviation, or a number isn't an entry of the state reached.
    Punish,
    /// The player's part isn't `(1-d)*payoff + d*(average of the lottery)` at the player's discount factor `d`.
    Point { player: u32 },
    /// The player's part is less than `(1-d)*payoff + d*(the player's part of the punishing entry)`, with the payoff after
    /// the deviation to `strategy`. Deviations are in order of the player and then of the strategy.
    Gain { player: u32, strategy: u32 },
}

/// The first entry, by state and then by number, that isn't generated, and why.
#[derive(Clone, Copy, Debug, PartialEq, Eq)]
pub struct CorrFault {
    pub state: u32,
    pub entry: u32,
    pub why: Why,
}
