ghost use Rattle.std.specs.Prelude.{◌≡◌, ◌≤◌, ◌↔◌, IsTrue};
ghost use Rattle.level_table.specs.Levels.{AtMost, IsSmall};
ghost use Rattle.level_table.specs.Levels.{lesser as lesser_level};
ghost use Rattle.level_table.specs.Tables.{kept_word, IsWord};

/// A level of a state in a direction: a whole number in units of `1/E`, or Empty, which is less than
/// each number and says that the state has no equilibrium payoff.
#[derive(Clone, Copy, Debug, PartialEq, Eq)]
pub enum Level {
    Empty,
    At(i64),
}

/// The word of the level 0.
const ZERO: i64 = 1 << 62;

/// Whether `a` is at most `b`. Empty is less than each number.
pub fn at_most(a: Level, b: Level) -> bool
    ensures { IsTrue result ↔ AtMost a b }
{
    match (a, b) {
        (Level::Empty, _) => true,
        (Level::At(_), Level::Empty) => false,
        (Level::At(x), Level::At(y)) => x <= y,
    }
}

/// The lesser of two levels.
pub fn lesser(a: Level, b: Level) -> Level
    ensures { result ≡ lesser_level a b }
{
    if at_most(a, b) { a } else { b }
}

/// The word that keeps a level within 2^50 of zero: 0 for Empty, and `x + 2^62` for the number `x`.
/// So words have the order of their levels.
pub fn word_of(level: Level) -> u64
    requires { IsSmall level }
    ensures word { result ≡ kept_word level }
    ensures of_a_level { IsWord result }
{
    match level {
        Level::Empty => 0,
        Level::At(x) => (x + ZERO) as u64,
    }
}

/// The level that a word keeps.
pub fn level_of(word: u64) -> Level
    requires { IsWord word }
    ensures level { (l : Level) → IsSmall l → word ≡ kept_word l → result ≡ l }
    ensures small { IsSmall result }
    ensures word { word ≡ kept_word result }
{
    if word == 0 {
        Level::Empty
    } else {
        Level::At(word as i64 - ZERO)
    }
}

/// A law: words have the order of their levels.
pub fn word_order(a: Level, b: Level)
    requires a_small { IsSmall a }
    requires b_small { IsSmall b }
    ensures { AtMost a b ↔ (kept_word a ≤ kept_word b) }
{}
