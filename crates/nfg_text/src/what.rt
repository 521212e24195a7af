/// A quantity of a game, a correspondence, a schedule, a proof log or a run that has a limit.
#[derive(Clone, Copy, Debug, PartialEq, Eq)]
pub enum What {
    /// Digits of a number in a file: at most 36.
    Digits,
    /// Players: exactly 2 in the texts of today.
    Players,
    /// Strategies of a player in a state: at most 16.
    Strategies,
    /// States: at most 64.
    States,
    /// A whole number in a file of transitions, of a correspondence or of a schedule: at most 4294967295.
    Whole,
    /// The denominator of the discount factors: at most 1024.
    Discount,
    /// The least common denominator of all payoffs: at most 2^40.
    Denominator,
    /// A payoff times this denominator, in absolute value: at most 2^26.
    Payoff,
    /// An opening level, in absolute value: at most 2^50.
    Opening,
    /// Outcomes of a lottery: at most 4.
    Outcomes,
    /// A weight of a lottery: at most 2^83.
    Weight,
    /// Entries of a state in a correspondence: at most 65535.
    Entries,
    /// The common denominator of payoffs and points: at most 2^44.
    Common,
    /// A point or a payoff times the common denominator, in absolute value: at most 2^30.
    Point,
    /// A count of directions, which must have a table for the game's players.
    Directions,
    /// The fineness of the inner candidates of three players: at most 1.
    Inner,
    /// The state, or else the entry, where a play begins: below the number there are.
    Start,
    /// The numerator of a discount factor times a payoff, in absolute value, for inner sets of three players: at most 2^25.
    Solid,
    /// Inner candidates of a state with three players: at most 24.
    Candidates,
    /// Bounds in the lines of a proof log: at most 120000.
    Log,
}
