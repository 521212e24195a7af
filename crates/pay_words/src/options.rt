//! The words `name=value`.

ghost use Rattle.pay_words.specs.Command.{words_in};
ghost use Rattle.pay_words.specs.Options.{AreLimited, AreOptions, AreSettings, Holds, IsDirections, IsDiscount, IsFirstWrong, IsSetting, IsValue, IsWithin, name_in, name_of, put, takes, usual_given, usual_settings, with_setting};
ghost use Rattle.pay_frac.specs.Ratio.{Ratio};
ghost use Rattle.std.specs.Prelude.{◌+◌, ◌++◌, ◌<◌, ◌≤◌, ◌^◌, ◌↔◌, ◌≡◌, ◌≢◌, ◌∷◌, ℕ, All, Any, IfErr, IfNone, IfOk, IfSome, IsTrue, List, length};

use pay_frac::{Frac, read_digits, read_number};

/// The most workers of a run.
pub const MOST_WORKERS: u32 = 16;

/// The largest fineness of the inner sets, of which there are none at 0.
pub const MOST_INNER: u32 = 16;

/// The largest budget.
const MOST_BUDGET: u64 = 1_000_000_000_000_000;

/// The largest power of two of a grid.
const MOST_GRID: u32 = 30;

/// The largest slack.
const MOST_SLACK: u64 = 1_000_000_000;

/// The largest number from which a game is made.
const MOST_SEED: u32 = 2_147_483_647;

/// The most states of a game that is made.
const MOST_STATES: u32 = 64;

/// The commands, each of which has some of the settings.
#[derive(Clone, Copy, Debug, PartialEq, Eq)]
pub enum Verb {
    Solve,
    Check,
    Replay,
    Make,
}

/// What a run is asked for.
#[derive(Clone, Copy, Debug, PartialEq, Eq)]
pub struct Settings {
    /// The discount factor of all players, above 0 and below 1.
    pub discount: Frac,
    /// The number of directions, where a word says it: 4, 8, 16 or 32.
    pub directions: Option<u32>,
    /// The number of workers, at least 1.
    pub workers: u32,
    /// The most solves, of which a sweep takes one for each row.
    pub budget: u64,
    /// The power of two of the grid: levels are multiples of `1/E`, and `E` has this power as a factor.
    pub grid: u32,
    /// How far a finite level may stand above what supports it, in units of `1/E`, at least 1.
    pub slack: u64,
    /// The fineness of the inner sets, where a word says it.
    pub inner: Option<u32>,
}

/// What words give: the settings of a run, and the seed and the number of states of a game that is made.
#[derive(Clone, Copy, Debug, PartialEq, Eq)]
pub struct Given {
    /// The settings of a run.
    pub set: Settings,
    /// The number from which a game is made, where a word says it, below 2^31.
    pub seed: Option<u32>,
    /// The number of states of a game that is made, from 1 to 64.
    pub states: u32,
}

/// What one word sets.
#[derive(Clone, Copy, Debug, PartialEq, Eq)]
pub enum Setting {
    Discount(Frac),
    Directions(u32),
    Workers(u32),
    Budget(u64),
    Grid(u32),
    Slack(u64),
    Inner(u32),
    Seed(u32),
    States(u32),
}

impl Verb {
    /// Whether words of this command may have this setting.
    fn takes(self, setting: &Setting) -> bool
        ensures { result ≡ takes self setting.now }
    {
        match self {
            Verb::Solve => !matches!(setting, Setting::Seed(_) | Setting::States(_)),
            Verb::Check => matches!(setting, Setting::Discount(_)),
            Verb::Replay => matches!(
                setting,
                Setting::Discount(_) | Setting::Directions(_) | Setting::Grid(_)
            ),
            Verb::Make => matches!(
                setting,
                Setting::Seed(_) | Setting::States(_) | Setting::Workers(_)
            ),
        }
    }
}

impl Settings {
    /// The settings where no word says otherwise.
    fn usual() -> Settings
        ensures { result ≡ usual_settings }
    {
        Settings {
            discount: Frac::of(9, 10),
            directions: None,
            workers: 2,
            budget: 1_000_000,
            grid: 16,
            slack: 1,
            inner: None,
        }
    }

    /// These settings with one put in its place.
    fn with(self, setting: Setting) -> Settings
        ensures { result ≡ with_setting self setting }
    {
        match setting {
            Setting::Discount(discount) => Settings { discount, ..self },
            Setting::Directions(count) => Settings {
                directions: Some(count),
                ..self
            },
            Setting::Workers(workers) => Settings { workers, ..self },
            Setting::Budget(budget) => Settings { budget, ..self },
            Setting::Grid(grid) => Settings { grid, ..self },
            Setting::Slack(slack) => Settings { slack, ..self },
            Setting::Inner(fineness) => Settings {
                inner: Some(fineness),
                ..self
            },
            Setting::Seed(_) | Setting::States(_) => self,
        }
    }
}

impl Given {
    /// What no words give.
    fn usual() -> Given
        ensures usual { result ≡ usual_given }
        ensures limits { AreLimited result }
    {
        Given {
            set: Settings::usual(),
            seed: None,
            states: 8,
        }
    }

    /// The same with one setting put in its place.
    fn with(self, setting: Setting) -> Given
        ensures { result ≡ put self setting }
    {
        match setting {
            Setting::Seed(seed) => Given {
                seed: Some(seed),
                ..self
            },
            Setting::States(states) => Given { states, ..self },
            _ => Given {
                set: self.set.with(setting),
                ..self
            },
        }
    }
}

/// What the words give a command, or the place of the first word that is no setting of it or repeats a
/// name.
pub fn settings_of(verb: Verb, words: &[String]) -> Result<Given, usize>
    ensures options { IfOk result (λ _. AreOptions verb (words_in words.now)) }
    ensures settings { IfOk result (AreSettings (words_in words.now)) }
    ensures limits { IfOk result AreLimited }
    ensures wrong { IfErr result (IsFirstWrong verb (words_in words.now)) }
{
    let mut given = Given::usual();
    for place in 0..words.len() {
        match new_setting(verb, &words[..place], &words[place]) {
            Some(setting) => given = given.with(setting),
            None => return Err(place),
        }
    }
    Ok(given)
}

/// The setting that a word spells, where the command takes it and no earlier word has its name.
fn new_setting(verb: Verb, earlier: &[String], word: &str) -> Option<Setting>
    ensures spelled { IfSome result (IsSetting word.now) }
    ensures taken { IfSome result (λ s. IsTrue (takes verb s)) }
    ensures new { IfSome result (λ s. All (λ w. name_in w ≢ name_of s) (words_in earlier.now)) }
    ensures none { IfNone result ((s : Setting) → IsSetting word.now s → IsTrue (takes verb s) →
        Any (λ w. name_in w ≡ name_of s) (words_in earlier.now)) }
{
    let setting = setting_of(word)?;
    if !verb.takes(&setting) {
        return None;
    }
    if is_named(earlier, name_in(word)) {
        return None;
    }
    Some(setting)
}

/// Whether one of the words has this name.
fn is_named(words: &[String], name: &str) -> bool
    ensures { IsTrue result ↔ Any (λ w. name_in w ≡ name.now) (words_in words.now) }
{
    for word in words {
        if name_in(word) == name {
            return true;
        }
    }
    false
}

/// What stands before the first `=` of a word, or all of it.
fn name_in(word: &str) -> &str
    ensures { result.now ≡ name_in word.now }
{
    match word.split_once('=') {
        Some((name, _)) => name,
        None => word,
    }
}

/// The setting that a word spells.
fn setting_of(word: &str) -> Option<Setting>
    ensures some { IfSome result (IsSetting word.now) }
    ensures none { IfNone result ((s : Setting) → IsSetting word.now s → ⊥) }
{
    let (name, value) = word.split_once('=')?;
    value_of(name, value.as_bytes())
}

/// The setting of this name with this value.
fn value_of(name: &str, value: &[u8]) -> Option<Setting>
    ensures name { IfSome result (λ s. name_of s ≡ name.now) }
    ensures value { IfSome result (λ s. IsValue s value.now) }
    ensures none { IfNone result ((s : Setting) → name_of s ≡ name.now → IsValue s value.now → ⊥) }
{
    match name {
        "discount" => Some(Setting::Discount(read_discount(value)?)),
        "directions" => Some(Setting::Directions(read_directions(value)?)),
        "workers" => Some(Setting::Workers(read_small(value, 1, MOST_WORKERS)?)),
        "budget" => Some(Setting::Budget(read_within(value, 0, MOST_BUDGET)?)),
        "grid" => Some(Setting::Grid(read_small(value, 0, MOST_GRID)?)),
        "slack" => Some(Setting::Slack(read_within(value, 1, MOST_SLACK)?)),
        "inner" => Some(Setting::Inner(read_small(value, 0, MOST_INNER)?)),
        "seed" => Some(Setting::Seed(read_small(value, 0, MOST_SEED)?)),
        "states" => Some(Setting::States(read_small(value, 1, MOST_STATES)?)),
        _ => None,
    }
}

/// A number above 0 and below 1.
fn read_discount(text: &[u8]) -> Option<Frac>
    ensures some { IfSome result (IsDiscount text.now) }
    ensures none { IfNone result ((d : Ratio) → IsDiscount text.now d → ⊥) }
{
    let discount = read_number(text).ok()?;
    if discount.num() <= 0 || discount.num() >= discount.den() {
        return None;
    }
    Some(discount)
}

/// A number of directions.
fn read_directions(text: &[u8]) -> Option<u32>
    ensures some { IfSome result (IsDirections text.now) }
    ensures none { IfNone result ((n : ℕ) → IsDirections text.now n → ⊥) }
{
    match read_digits(text)? {
        4 => Some(4),
        8 => Some(8),
        16 => Some(16),
        32 => Some(32),
        _ => None,
    }
}

/// A number of 1 to 18 digits within bounds.
fn read_within(text: &[u8], least: u64, most: u64) -> Option<u64>
    ensures some { IfSome result (IsWithin least most text.now) }
    ensures none { IfNone result ((n : ℕ) → IsWithin least most text.now n → ⊥) }
{
    let number = read_digits(text)?;
    if number < least || number > most {
        return None;
    }
    Some(number)
}

/// The same of 32 bits.
fn read_small(text: &[u8], least: u32, most: u32) -> Option<u32>
    ensures some { IfSome result (IsWithin least most text.now) }
    ensures none { IfNone result ((n : ℕ) → IsWithin least most text.now n → ⊥) }
{
    Some(read_within(text, u64::from(least), u64::from(most))? as u32)
}
