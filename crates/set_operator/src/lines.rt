//! What the deviations of a player ask, once for all profiles that differ in the player's strategy alone.

ghost use Rattle.std.specs.Prelude.{◌≡◌, ℕ, ◌+◌, ◌-◌, ◌*◌, ◌^◌, ◌<◌, ◌≤◌, ◌≤ℤ◌, ◌<ℤ◌, [], length, slice_index_or, vec_capacity, IfSome, IfNone, OnSome, None};
ghost use Rattle.std.specs.Int.RustNames.{unsigned_abs};
ghost use Rattle.game_model.specs.Game.{states, counts, profile_count, strategy_at, successor};
ghost use Rattle.level_table.specs.Levels.{levels_in};
ghost use Rattle.level_table.specs.Reasons.{IsKnown};
ghost use Rattle.level_table.specs.Tables.{HasSmallOpening, IsSmallTable};
ghost use Rattle.set_operator.specs.Boxes.{AreFlags};
ghost use Rattle.set_operator.specs.Lines.{AreAll, AreAsks, IsKnownLine, IsLine, IsLineOf, IsTerm, IsWorth, worth};

use crate::boxes::{finite, stride_of, unit_of, weight_of};
use level_table::{LevelTable, Problem};

/// The least of what the profiles ask that differ in one player's strategy, and the first strategy that asks it.
#[derive(Clone, Copy)]
pub(crate) struct Line {
    pub(crate) least: i64,
    pub(crate) first: u32,
}

/// What one profile asks, and the profiles that differ from it in the player's strategy.
#[derive(Clone, Copy)]
pub(crate) struct Asks {
    pub(crate) own: i64,
    pub(crate) line: Line,
}

/// What a payoff of a player counts: `weight * (unit * payoff)` in units of `1/E` of what follows.
#[derive(Clone, Copy)]
struct Worth {
    state: u32,
    player: u32,
    /// How far two profiles are apart that differ by one in the player's strategy.
    stride: u32,
    weight: i64,
    unit: i64,
}

/// What player `i`'s payoffs count.
fn worth_of(p: &Problem, state: u32, i: u32) -> Worth
    requires state { state < states p.now.game }
    requires player { i < p.now.game.players }
    ensures { IsWorth p.now state i result }
{
    Worth {
        state,
        player: i,
        stride: stride_of(p.game(), state, i),
        weight: weight_of(p, i),
        unit: unit_of(p, i),
    }
}

/// What the player's payoff after a profile counts.
fn counted(p: &Problem, by: &Worth, profile: u32) -> i64
    requires opening { HasSmallOpening p.now }
    requires from { IsWorth p.now by.now.state by.now.player by.now }
    requires state { by.now.state < states p.now.game }
    requires profile { profile < profile_count (counts p.now.game by.now.state) }
    requires player { by.now.player < p.now.game.players }
    ensures value { result ≡ worth p.now by.now.state profile by.now.player }
    ensures small { unsigned_abs result ≤ 2 ^ 60 }
{
    let payoff = p.game().payoff(by.state, profile, by.player);
    by.weight * (by.unit * payoff)
}

/// What a profile asks, and none where a level of the state that follows it is Empty.
fn term(
    p: &Problem,
    levels: &LevelTable,
    known: &[bool; 64],
    by: &Worth,
    profile: u32,
) -> Option<i64>
    requires table { IsSmallTable p.now levels.now }
    requires opening { HasSmallOpening p.now }
    requires flags { AreFlags p.now (levels_in levels.now) known.now }
    requires from { IsWorth p.now by.now.state by.now.player by.now }
    requires state { by.now.state < states p.now.game }
    requires profile { profile < profile_count (counts p.now.game by.now.state) }
    requires player { by.now.player < p.now.game.players }
    ensures some { IfSome result (IsTerm p.now (levels_in levels.now) by.now.state by.now.player profile) }
    ensures small { IfSome result (λ x. unsigned_abs x ≤ 2 ^ 61) }
    ensures known { OnSome result (IsKnown p.now (levels_in levels.now) (successor p.now.game by.now.state profile)) }
    ensures none { IfNone result (IsKnown p.now (levels_in levels.now) (successor p.now.game by.now.state profile) → ⊥) }
{
    let next = p.game().next(by.state, profile);
    if !known[next as usize] {
        return None;
    }
    let level = finite(p, levels, next, 2 * by.player + 1);
    Some(level - counted(p, by, profile))
}

/// The line where strategy `b` asks this.
fn lowered(line: Line, least: i64, b: u32) -> Line
    ensures less { least <ℤ line.least → result ≡ record { least = least; first = b } }
    ensures no_less { line.least ≤ℤ least → result ≡ line }
{
    if least < line.least {
        Line { least, first: b }
    } else {
        line
    }
}

/// The line that begins at a profile in which the player has strategy 0.
fn line_of(
    p: &Problem,
    levels: &LevelTable,
    known: &[bool; 64],
    by: &Worth,
    first: u32,
) -> Option<Line>
    requires table { IsSmallTable p.now levels.now }
    requires opening { HasSmallOpening p.now }
    requires flags { AreFlags p.now (levels_in levels.now) known.now }
    requires from { IsWorth p.now by.now.state by.now.player by.now }
    requires state { by.now.state < states p.now.game }
    requires profile { first < profile_count (counts p.now.game by.now.state) }
    requires player { by.now.player < p.now.game.players }
    requires begins { strategy_at p.now.game by.now.state first by.now.player ≡ 0 }
    ensures some { IfSome result (IsLine p.now (levels_in levels.now) by.now.state first by.now.player) }
    ensures none { IfNone result (IsKnownLine p.now (levels_in levels.now) by.now.state first by.now.player → ⊥) }
{
    p.rules();
    let mut line = Line {
        least: term(p, levels, known, by, first)?,
        first: 0,
    };
    for b in 1..p.game().strategies(by.state, by.player) {
        line = lowered(line, term(p, levels, known, by, first + b * by.stride)?, b);
    }
    Some(line)
}

/// The line of a profile of the player, from those of the profiles before it.
fn line_at(
    p: &Problem,
    levels: &LevelTable,
    known: &[bool; 64],
    by: &Worth,
    profile: u32,
    asks: &[Option<Asks>],
) -> Option<Line>
    requires table { IsSmallTable p.now levels.now }
    requires opening { HasSmallOpening p.now }
    requires flags { AreFlags p.now (levels_in levels.now) known.now }
    requires from { IsWorth p.now by.now.state by.now.player by.now }
    requires state { by.now.state < states p.now.game }
    requires profile { profile < profile_count (counts p.now.game by.now.state) }
    requires player { by.now.player < p.now.game.players }
    requires before { length asks.now ≡ by.now.player * profile_count (counts p.now.game by.now.state) + profile }
    requires each { AreAll p.now (levels_in levels.now) by.now.state asks.now }
    ensures { IsLineOf p.now (levels_in levels.now) by.now.state profile by.now.player result }
{
    let game = p.game();
    if game.strategy_of(by.state, profile, by.player) == 0 {
        return line_of(p, levels, known, by, profile);
    }
    match asks[asks.len() - by.stride as usize] {
        Some(found) => Some(found.line),
        None => None,
    }
}

/// What a profile asks, from what those before it ask.
fn asks_at(
    p: &Problem,
    levels: &LevelTable,
    known: &[bool; 64],
    by: &Worth,
    profile: u32,
    asks: &[Option<Asks>],
) -> Option<Asks>
    requires table { IsSmallTable p.now levels.now }
    requires opening { HasSmallOpening p.now }
    requires flags { AreFlags p.now (levels_in levels.now) known.now }
    requires from { IsWorth p.now by.now.state by.now.player by.now }
    requires state { by.now.state < states p.now.game }
    requires profile { profile < profile_count (counts p.now.game by.now.state) }
    requires player { by.now.player < p.now.game.players }
    requires before { length asks.now ≡ by.now.player * profile_count (counts p.now.game by.now.state) + profile }
    requires each { AreAll p.now (levels_in levels.now) by.now.state asks.now }
    ensures { AreAsks p.now (levels_in levels.now) by.now.state profile by.now.player result }
{
    p.rules();
    match line_at(p, levels, known, by, profile, asks) {
        None => None,
        Some(line) => match term(p, levels, known, by, profile) {
            None => None,
            Some(own) => Some(Asks { own, line }),
        },
    }
}

/// What each profile asks of player `i`, in order, after what is asked of the players before.
fn add_asks(
    p: &Problem,
    levels: &LevelTable,
    known: &[bool; 64],
    state: u32,
    i: u32,
    asks: &mut Vec<Option<Asks>>,
)
    requires table { IsSmallTable p.now levels.now }
    requires opening { HasSmallOpening p.now }
    requires flags { AreFlags p.now (levels_in levels.now) known.now }
    requires state { state < states p.now.game }
    requires player { i < p.now.game.players }
    requires before { length asks.old.items ≡ i * profile_count (counts p.now.game state) }
    requires each { AreAll p.now (levels_in levels.now) state asks.old.items }
    requires room { (i + 1) * profile_count (counts p.now.game state) ≤ vec_capacity asks.old }
    ensures after { length asks.new.items ≡ (i + 1) * profile_count (counts p.now.game state) }
    ensures each { AreAll p.now (levels_in levels.now) state asks.new.items }
    ensures room { vec_capacity asks.old ≤ vec_capacity asks.new }
{
    let by = worth_of(p, state, i);
    for a in 0..p.game().profiles(state) {
        match asks.push(asks_at(p, levels, known, &by, a, asks)) {
            Ok(()) => {}
            Err(_) => unreachable!(),
        }
    }
}

/// What each profile of a state asks, player after player, in room that there is.
pub(crate) fn fill_asks(
    p: &Problem,
    levels: &LevelTable,
    known: &[bool; 64],
    state: u32,
    asks: &mut Vec<Option<Asks>>,
)
    requires table { IsSmallTable p.now levels.now }
    requires opening { HasSmallOpening p.now }
    requires flags { AreFlags p.now (levels_in levels.now) known.now }
    requires state { state < states p.now.game }
    requires none { asks.old.items ≡ [] }
    requires room { p.now.game.players * profile_count (counts p.now.game state) ≤ vec_capacity asks.old }
    ensures one_each { length asks.new.items ≡ p.now.game.players * profile_count (counts p.now.game state) }
    ensures each { AreAll p.now (levels_in levels.now) state asks.new.items }
    ensures room { vec_capacity asks.old ≤ vec_capacity asks.new }
{
    for i in 0..p.players() {
        add_asks(p, levels, known, state, i, asks);
    }
}
