/// The parts of a game, as they are handed to `Game::build`.
#[derive(Drop)]
pub struct GameParts {
    /// The number of players.
    pub players: u32,
    /// For each state, each player's number of strategies.
    pub strategies: Vec<Vec<u32>>,
    /// For each state, profile by profile, all players' payoffs in units of `1/denominator`.
    /// The first player's strategy is the fastest.
    pub payoffs: Vec<Vec<i64>>,
    /// For each state, the state that follows each profile.
    pub next: Vec<Vec<u32>>,
    /// The least common denominator of all payoffs.
    pub denominator: i64,
    /// For each player, the numerator of the discount factor over `q`.
    pub discounts: Vec<u32>,
    /// The common denominator of the discount factors.
    pub q: u32,
}

/// Which length or number of a state is wrong.
#[derive(Clone, Copy, Debug, PartialEq, Eq)]
pub enum ShapeWhat {
    /// The state lists another number of counts than there are players.
    Players,
    /// The length of its list of payoffs isn't profiles times players.
    Payoffs,
    /// The length of its list of successors isn't the number of profiles.
    Successors,
    /// A successor isn't below the number of states.
    Successor,
}

/// The first state whose lists don't fit, and there the first test that fails.
#[derive(Clone, Copy, Debug, PartialEq, Eq)]
pub struct ShapeFault {
    pub what: ShapeWhat,
    pub state: u32,
    /// The length or the successor that stands there.
    pub found: u64,
    /// The length that is wanted, or the number of states.
    pub wanted: u64,
}
