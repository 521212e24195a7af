//! Why a state admits nothing, profile by profile.

ghost use Rattle.std.specs.Prelude.{◌≡◌, ◌+◌, ◌<◌, ◌≤◌, length, IfSome, IfNone};
ghost use Rattle.game_model.specs.Game.{states, counts, profile_count};
ghost use Rattle.level_table.specs.Levels.{levels_in};
ghost use Rattle.level_table.specs.Operator.{Admissible, Fractions, HasAdmissible};
ghost use Rattle.level_table.specs.Reasons.{AreKnown, AreReasonsOver, IsProgramCertificate, IsReasonOver};
ghost use Rattle.level_table.specs.Tables.{HasSmallOpening, IsSmallTable};
ghost use Rattle.set_operator.specs.Asked.{AllReachKnown, EachReachKnown};
ghost use Rattle.set_operator.specs.Boxes.{AreFlags};
ghost use Rattle.set_operator.specs.Dead.{IsFirstDead, IsFirstOf};

use crate::best::certificate_of;
use crate::boxes::box_of;
use level_table::{Items, LevelTable, Problem, Reason, ReasonList};

/// A deviation that reaches a state with an Empty level.
#[derive(Clone, Copy)]
struct Dead {
    player: u32,
    strategy: u32,
    state: u32,
}

/// The first deviation of player `i` that reaches a state with an Empty level.
fn dead_strategy(
    p: &Problem,
    levels: &LevelTable,
    known: &[bool; 64],
    state: u32,
    profile: u32,
    i: u32,
) -> Option<Dead>
    requires known { AreFlags p.now (levels_in levels.now) known.now }
    requires state { state < states p.now.game }
    requires profile { profile < profile_count (counts p.now.game state) }
    requires player { i < p.now.game.players }
    ensures some { IfSome result (IsFirstOf p.now (levels_in levels.now) state profile i) }
    ensures none { IfNone result (EachReachKnown p.now (levels_in levels.now) state profile i) }
{
    let game = p.game();
    let own = game.strategy_of(state, profile, i);
    for b in 0..game.strategies(state, i) {
        if b != own {
            let reached = game.next(state, game.deviation(state, profile, i, b));
            if !known[reached as usize] {
                return Some(Dead {
                    player: i,
                    strategy: b,
                    state: reached,
                });
            }
        }
    }
    None
}

/// The first deviation, by player and then by strategy, that reaches a state with an Empty level.
fn dead_deviation(
    p: &Problem,
    levels: &LevelTable,
    known: &[bool; 64],
    state: u32,
    profile: u32,
) -> Option<Dead>
    requires known { AreFlags p.now (levels_in levels.now) known.now }
    requires state { state < states p.now.game }
    requires profile { profile < profile_count (counts p.now.game state) }
    ensures some { IfSome result (IsFirstDead p.now (levels_in levels.now) state profile) }
    ensures none { IfNone result (AllReachKnown p.now (levels_in levels.now) state profile p.now.game.players) }
{
    for i in 0..p.players() {
        if let Some(dead) = dead_strategy(p, levels, known, state, profile, i) {
            return Some(dead);
        }
    }
    None
}

/// Rows of the profile's program that no point meets, where it admits nothing.
fn items_of(p: &Problem, levels: &LevelTable, known: &[bool; 64], state: u32, profile: u32) -> Items
    requires table { IsSmallTable p.now levels.now }
    requires opening { HasSmallOpening p.now }
    requires flags { AreFlags p.now (levels_in levels.now) known.now }
    requires state { state < states p.now.game }
    requires profile { profile < profile_count (counts p.now.game state) }
    requires known { AreKnown p.now (levels_in levels.now) state profile }
    requires nothing { (z : Fractions) → Admissible p.now (levels_in levels.now) state profile z → ⊥ }
    ensures { IsProgramCertificate p.now (levels_in levels.now) state profile result }
{
    match box_of(p, levels, known, state, profile) {
        Some(found) => certificate_of(p, levels, &found),
        None => unreachable!(),
    }
}

/// The first reason that holds why nothing is admissible after a profile.
pub(crate) fn reason_of(
    p: &Problem,
    levels: &LevelTable,
    known: &[bool; 64],
    state: u32,
    profile: u32,
) -> Reason
    requires table { IsSmallTable p.now levels.now }
    requires opening { HasSmallOpening p.now }
    requires known { AreFlags p.now (levels_in levels.now) known.now }
    requires state { state < states p.now.game }
    requires profile { profile < profile_count (counts p.now.game state) }
    requires nothing { (z : Fractions) → Admissible p.now (levels_in levels.now) state profile z → ⊥ }
    ensures { IsReasonOver p.now (levels_in levels.now) state profile result }
{
    let next = p.game().next(state, profile);
    if !known[next as usize] {
        return Reason::Successor { state: next };
    }
    match dead_deviation(p, levels, known, state, profile) {
        Some(dead) => Reason::Deviation {
            player: dead.player,
            strategy: dead.strategy,
            state: dead.state,
        },
        None => Reason::Farkas {
            items: items_of(p, levels, known, state, profile),
        },
    }
}

/// Fills the list with one reason for each profile of a state that admits nothing.
pub(crate) fn explain(
    p: &Problem,
    levels: &LevelTable,
    known: &[bool; 64],
    state: u32,
    reasons: &mut ReasonList,
)
    requires table { IsSmallTable p.now levels.now }
    requires opening { HasSmallOpening p.now }
    requires known { AreFlags p.now (levels_in levels.now) known.now }
    requires state { state < states p.now.game }
    requires nothing { HasAdmissible p.now (levels_in levels.now) state → ⊥ }
    requires room { profile_count (counts p.now.game state) ≤ length reasons.old.list + reasons.old.spare }
    ensures reasons { AreReasonsOver p.now (levels_in levels.now) state reasons.new.list }
    ensures room { length reasons.new.list + reasons.new.spare ≡ length reasons.old.list + reasons.old.spare }
{
    reasons.clear();
    for profile in 0..p.game().profiles(state) {
        reasons.push(reason_of(p, levels, known, state, profile));
    }
}
