ghost use Rattle.std.specs.Prelude.{◌≡◌, ◌≢◌, ℕ, ◌+◌, ◌-◌, ◌*◌, ◌<◌, ◌≤◌, ◌^◌, length, pos, slice_index, slice_set, take, IfOk, IfErr, IfSome, OnOk, find, nat_le};
ghost use Rattle.game_model.specs.Game.{counts, strategies_of, profile_number, profile_count, IsLeastCommonMultiple, Divides};
ghost use Rattle.game_model.specs.Parts.{shape_of, shape_fault, list_fault};

use super::parts::{GameParts, ShapeFault, ShapeWhat};
use std::marker::Model;

/// A discounted dynamic game of two or three players. Payoffs are in units of `1/denominator`.
/// Contracts see it as a `DynamicGame`.
#[derive(Drop)]
pub struct Game {
    parts: GameParts,
    base: u64,
}

impl Model for Game {
    ghost use Rattle.game_model.specs.Game.{DynamicGame, IsGame};
    ghost use Rattle.game_model.specs.Parts.{game_of};

    ghost Value = { DynamicGame };

    ghost view = { λ a. game_of a.parts a.base };

    ghost invariant = { λ a. IsGame (game_of a.parts a.base) };
}

impl Game {
    ghost use Rattle.game_model.specs.Parts.{game_of, shape_of, KeepLimits, IsFirstFault, HasNoFault};
    ghost use Rattle.game_model.specs.Game.{states, counts, profile_count, payoff_at, successor, strategy_at, deviation_at, IsGame};

    /// The game of the parts. The number of states is the length of `strategies`.
    ///
    /// # Errors
    ///
    /// The first state for which a test fails, and there the first failing test: one count for each
    /// player, one payoff for each profile and player, one successor for each profile, each successor
    /// a state. The parts are dropped then.
    pub fn build(parts: GameParts) -> Result<Game, ShapeFault>
        requires { KeepLimits (shape_of parts) }
        ensures built { IfOk result (λ g. g ≡ game_of parts g.base) }
        ensures no_fault { OnOk result (HasNoFault (shape_of parts)) }
        ensures is_game { IfOk result IsGame }
        ensures fault { IfErr result (IsFirstFault (shape_of parts)) }
    {
        for s in 0..parts.strategies.len() {
            match fault_in(&parts, s as u32) {
                Some(fault) => return Err(fault),
                None => {}
            }
        }
        let base = least_common_multiple(&parts.discounts);
        Ok(Game { parts, base })
    }

    /// The number of players, two or three.
    pub fn players(&self) -> u32
        ensures is_game { IsGame self.now }
        ensures count { result ≡ self.now.players }
    {
        self.parts.players
    }

    /// The number of states, 1 to 64.
    pub fn states(&self) -> u32
        ensures { result ≡ states self.now }
    {
        self.parts.strategies.len() as u32
    }

    /// The least common denominator of all payoffs.
    pub fn denominator(&self) -> i64
        ensures { result ≡ self.now.denominator }
    {
        self.parts.denominator
    }

    /// The discount factor of player `i`, numerator and denominator.
    pub fn discount_of(&self, i: u32) -> (u32, u32)
        requires { i < self.now.players }
        ensures numerator { result.0 ≡ slice_index self.now.discounts i }
        ensures denominator { result.1 ≡ self.now.q }
    {
        (self.parts.discounts[i as usize], self.parts.q)
    }

    /// The discount factor, where all players have the same.
    pub fn discount(&self) -> (u32, u32)
        requires { (i : ℕ) → i < self.now.players → slice_index self.now.discounts i ≡ slice_index self.now.discounts 0 }
        ensures numerator { result.0 ≡ slice_index self.now.discounts 0 }
        ensures denominator { result.1 ≡ self.now.q }
    {
        (self.parts.discounts[0], self.parts.q)
    }

    /// The least common multiple of the numerators of the discount factors.
    pub fn base(&self) -> i128
        ensures { result ≡ pos self.now.base }
    {
        i128::from(self.base)
    }

    /// The number of strategies of player `i` in state `s`.
    pub fn strategies(&self, s: u32, i: u32) -> u32
        requires state { s < states self.now }
        requires player { i < self.now.players }
        ensures { result ≡ slice_index (counts self.now s) i }
    {
        self.parts.strategies[s as usize][i as usize]
    }

    /// The number of profiles of state `s`.
    pub fn profiles(&self, s: u32) -> u32
        requires { s < states self.now }
        ensures { result ≡ profile_count (counts self.now s) }
    {
        self.parts.next[s as usize].len() as u32
    }

    /// The payoff of player `i` at profile `a`, in units of `1/denominator`.
    pub fn payoff(&self, s: u32, a: u32, i: u32) -> i64
        requires state { s < states self.now }
        requires profile { a < profile_count (counts self.now s) }
        requires player { i < self.now.players }
        ensures { result ≡ payoff_at self.now s a i }
    {
        self.parts.payoffs[s as usize][(a * self.parts.players + i) as usize]
    }

    /// The state that follows profile `a`.
    pub fn next(&self, s: u32, a: u32) -> u32
        requires state { s < states self.now }
        requires profile { a < profile_count (counts self.now s) }
        ensures { result ≡ successor self.now s a }
    {
        self.parts.next[s as usize][a as usize]
    }

    /// The strategy that player `i` has in profile `a`.
    pub fn strategy_of(&self, s: u32, a: u32, i: u32) -> u32
        requires state { s < states self.now }
        requires profile { a < profile_count (counts self.now s) }
        requires player { i < self.now.players }
        ensures strategy { result ≡ strategy_at self.now s a i }
        ensures in_range { result < slice_index (counts self.now s) i }
    {
        digit(&self.parts.strategies[s as usize], a, i)
    }

    /// The profile in which player `i` plays `b` in place of its strategy in profile `a`.
    pub fn deviation(&self, s: u32, a: u32, i: u32, b: u32) -> u32
        requires state { s < states self.now }
        requires profile { a < profile_count (counts self.now s) }
        requires player { i < self.now.players }
        requires strategy { b < slice_index (counts self.now s) i }
        ensures deviation { result ≡ deviation_at self.now s a i b }
        ensures in_range { result < profile_count (counts self.now s) }
        ensures plays { strategy_at self.now s result i ≡ b }
        ensures others { (j : ℕ) → j ≢ i → strategy_at self.now s result j ≡ strategy_at self.now s a j }
    {
        replaced(&self.parts.strategies[s as usize], a, i, b)
    }
}

/// How many profiles the players before `i` have: how far two profiles are apart that differ by one
/// in the strategy of player `i`.
fn place_value(sizes: &[u32], i: u32) -> u32
    requires few { length sizes.now ≤ 3 }
    requires small { (j : ℕ) → j < length sizes.now → slice_index sizes.now j ≤ 16 }
    requires player { i ≤ length sizes.now }
    ensures { result ≡ profile_count (take i sizes.now) }
{
    let mut step = 1;
    for size in &sizes[..i as usize] {
        step *= *size;
    }
    step
}

/// The strategy of player `i` in the profile with number `a`.
fn digit(sizes: &[u32], a: u32, i: u32) -> u32
    requires positive { (j : ℕ) → j < length sizes.now → 1 ≤ slice_index sizes.now j }
    requires player { i < length sizes.now }
    ensures { result ≡ slice_index (strategies_of sizes.now a) i }
{
    let mut rest = a;
    for size in &sizes[..i as usize] {
        rest /= *size;
    }
    rest % sizes[i as usize]
}

/// The number of profile `a` with `b` as the strategy of player `i`.
fn replaced(sizes: &[u32], a: u32, i: u32, b: u32) -> u32
    requires few { length sizes.now ≤ 3 }
    requires positive { (j : ℕ) → j < length sizes.now → 1 ≤ slice_index sizes.now j }
    requires small { (j : ℕ) → j < length sizes.now → slice_index sizes.now j ≤ 16 }
    requires profile { a < profile_count sizes.now }
    requires player { i < length sizes.now }
    requires strategy { b < slice_index sizes.now i }
    ensures number { result ≡ profile_number sizes.now (slice_set (strategies_of sizes.now a) i b) }
    ensures in_range { result < profile_count sizes.now }
    ensures plays { slice_index (strategies_of sizes.now result) i ≡ b }
    ensures others { (j : ℕ) → j ≢ i → slice_index (strategies_of sizes.now result) j ≡ slice_index (strategies_of sizes.now a) j }
{
    let step = place_value(sizes, i);
    a - digit(sizes, a, i) * step + b * step
}

/// The first test that state `s` fails.
fn fault_in(parts: &GameParts, s: u32) -> Option<ShapeFault>
    requires known { s < length parts.now.strategies.items }
    requires payoffs { length parts.now.payoffs.items ≡ length parts.now.strategies.items }
    requires next { length parts.now.next.items ≡ length parts.now.strategies.items }
    requires few { parts.now.players ≤ 3 }
    requires small { (j : ℕ) → j < length (counts (shape_of parts.now) s) → slice_index (counts (shape_of parts.now) s) j ≤ 16 }
    ensures first { result ≡ shape_fault (shape_of parts.now) s }
    ensures named { IfSome result (λ f. f.state ≡ s) }
{
    let i = s as usize;
    list_fault(
        parts.players,
        parts.strategies.len() as u64,
        s,
        &parts.strategies[i],
        parts.payoffs[i].len() as u64,
        &parts.next[i],
    )
}

/// The first test that the lists of state `s` fail: one count for each player, one payoff for each profile and
/// player, one successor for each profile, each successor below `states`. `payoffs` is how many there are.
pub fn list_fault(
    players: u32,
    states: u64,
    s: u32,
    sizes: &[u32],
    payoffs: u64,
    next: &[u32],
) -> Option<ShapeFault>
    requires few { players ≤ 3 }
    requires small { (j : ℕ) → j < length sizes.now → slice_index sizes.now j ≤ 16 }
    ensures first { result ≡ list_fault players states s sizes.now payoffs next.now }
    ensures named { IfSome result (λ f. f.state ≡ s) }
{
    let counts = sizes.len() as u64;
    if counts != u64::from(players) {
        return Some(fault(ShapeWhat::Players, s, counts, u64::from(players)));
    }
    let profiles = u64::from(place_value(sizes, players));
    let wanted = profiles * u64::from(players);
    if payoffs != wanted {
        return Some(fault(ShapeWhat::Payoffs, s, payoffs, wanted));
    }
    let successors = next.len() as u64;
    if successors != profiles {
        return Some(fault(ShapeWhat::Successors, s, successors, profiles));
    }
    match first_from(next, states) {
        None => None,
        Some(t) => Some(fault(ShapeWhat::Successor, s, u64::from(t), states)),
    }
}

/// The first number that is at least `least`.
fn first_from(numbers: &[u32], least: u64) -> Option<u32>
    ensures { result ≡ find (λ t. nat_le least t) numbers.now }
{
    numbers.iter().copied().find(|t| least <= u64::from(*t))
}

fn fault(what: ShapeWhat, state: u32, found: u64, wanted: u64) -> ShapeFault
    ensures { result ≡ record { what = what; state = state; found = found; wanted = wanted } }
{
    ShapeFault {
        what,
        state,
        found,
        wanted,
    }
}

/// The least common multiple of up to three numerators.
fn least_common_multiple(numerators: &[u32]) -> u64
    requires few { length numerators.now ≤ 3 }
    requires positive { (i : ℕ) → i < length numerators.now → 0 < slice_index numerators.now i }
    requires small { (i : ℕ) → i < length numerators.now → slice_index numerators.now i < 1024 }
    ensures { IsLeastCommonMultiple numerators.now result }
{
    let mut base = 1;
    for p in numerators {
        base = first_multiple(base, *p);
    }
    base
}

/// The first multiple of `base` that `p` divides.
fn first_multiple(base: u64, p: u32) -> u64
    requires base { 0 < base }
    requires positive { 0 < p }
    requires small { base * p < 2 ^ 64 }
    ensures positive { 0 < result }
    ensures small { result ≤ base * p }
    ensures of_base { Divides base result }
    ensures of_p { Divides p result }
    ensures least { (c : ℕ) → Divides base c → Divides p c → Divides result c }
{
    for k in 1..u64::from(p) {
        if base * k % u64::from(p) == 0 {
            return base * k;
        }
    }
    base * u64::from(p)
}
