//! What the levels leave of each player's part of what follows a profile.

ghost use Rattle.std.specs.Prelude.{◌≡◌, ◌-◌, ◌^◌, ◌<◌, ◌≤◌, pos, ◌*ℤ◌, ◌<ℤ◌, ◌≤ℤ◌, take, IfSome, IfNone, OnSome, Some};
ghost use Rattle.std.specs.Int.RustNames.{unsigned_abs};
ghost use Rattle.game_model.specs.Game.{IsDeviation, IsGame, states, counts, payoff_at, profile_count, successor};
ghost use Rattle.level_table.specs.declared.level.Level.TheVariants.{At};
ghost use Rattle.level_table.specs.Levels.{IsNumber, levels_in};
ghost use Rattle.level_table.specs.Problem.{direction_count, discount_at, fineness};
ghost use Rattle.level_table.specs.Reasons.{AreKnown, IsKnown};
ghost use Rattle.level_table.specs.Tables.{HasSmallOpening, IsSmallTable};
ghost use Rattle.set_operator.specs.Asked.{AreDeviations, EachReachKnown, IsAsked, ReachesKnown, gain_unit};
ghost use Rattle.set_operator.specs.Boxes.{AreFlags, IsBoxOf, IsSide, stage_scale};

use game_model::Game;
use level_table::{Level, LevelTable, Problem};

/// From where to where a player's part of what follows may go, in units of `1/E`: at most `upper`, and at least the
/// negative of `lower`.
#[derive(Clone, Copy)]
pub(crate) struct Side {
    pub(crate) upper: i64,
    pub(crate) lower: i64,
    /// The first strategy of those whose deviations ask the most, and none where the next state's level gives the
    /// lower side.
    pub(crate) by: Option<u32>,
}

/// The sides of a profile's program, and what each player's payoff counts in a value over q.
#[derive(Clone, Copy)]
pub(crate) struct ProfileBox {
    pub(crate) state: u32,
    pub(crate) profile: u32,
    pub(crate) next: u32,
    pub(crate) sides: [Side; 3],
    pub(crate) stage: [i64; 3],
}

/// The deviations of a player from a profile: that to strategy `b` is the profile `first + b * stride`, and it gains
/// `weight * (unit * (its payoff - payoff))` in units of `1/E` of what follows.
#[derive(Clone, Copy)]
struct Deviations {
    state: u32,
    player: u32,
    own: u32,
    first: u32,
    stride: u32,
    payoff: i64,
    weight: i64,
    unit: i64,
}

/// Whether each level of a state is a number, for each state.
pub(crate) fn known_states(p: &Problem, levels: &LevelTable) -> [bool; 64]
    requires table { IsSmallTable p.now levels.now }
    ensures { AreFlags p.now (levels_in levels.now) result }
{
    let mut known = [false; 64];
    for s in 0..p.states() {
        known[s as usize] = levels.is_known(s);
    }
    known
}

/// The number of a level that isn't Empty.
pub(crate) fn finite(p: &Problem, levels: &LevelTable, state: u32, dir: u32) -> i64
    requires table { IsSmallTable p.now levels.now }
    requires state { state < states p.now.game }
    requires dir { dir < direction_count p.now }
    requires number { IsNumber (levels_in levels.now state dir) }
    ensures value { levels_in levels.now state dir ≡ At result }
    ensures small { unsigned_abs result ≤ 2 ^ 50 }
{
    match levels.at(state, dir) {
        Level::At(x) => x,
        Level::Empty => unreachable!(),
    }
}

/// How far two profiles are apart that differ by one in the strategy of player `i`.
pub(crate) fn stride_of(game: &Game, s: u32, i: u32) -> u32
    requires game { IsGame game.now }
    requires state { s < states game.now }
    requires player { i < game.now.players }
    ensures { result ≡ profile_count (take i (counts game.now s)) }
{
    let mut stride = 1;
    for j in 0..i {
        stride *= game.strategies(s, j);
    }
    stride
}

/// 2 to the power of the grid.
fn fineness_of(p: &Problem) -> i64
    ensures value { result ≡ pos (fineness p.now) }
    ensures small { fineness p.now ≤ 2 ^ 30 }
{
    p.rules();
    1i64 << p.grid()
}

/// The base of the discount factors.
fn base_of(p: &Problem) -> i64
    ensures value { result ≡ pos p.now.game.base }
    ensures small { p.now.game.base ≤ 2 ^ 30 }
{
    p.rules();
    p.game().base() as i64
}

/// What a payoff of player `i` counts in a gain, in units of `1/E` of what follows, but for the factor `q - p_i`.
pub(crate) fn unit_of(p: &Problem, i: u32) -> i64
    requires player { i < p.now.game.players }
    ensures value { result ≡ pos (gain_unit p.now i) }
    ensures small { gain_unit p.now i ≤ 2 ^ 60 }
{
    let (own, _q) = p.game().discount_of(i);
    base_of(p) / i64::from(own) * fineness_of(p)
}

/// The denominator of the discount factors less the numerator of player `i`.
pub(crate) fn weight_of(p: &Problem, i: u32) -> i64
    requires player { i < p.now.game.players }
    ensures value { result ≡ pos (p.now.game.q - discount_at p.now i) }
    ensures small { unsigned_abs result ≤ 2 ^ 10 }
{
    let (own, q) = p.game().discount_of(i);
    i64::from(q - own)
}

/// What player `i`'s payoff counts in a value over q.
pub(crate) fn stage_of(p: &Problem, state: u32, profile: u32, i: u32) -> i64
    requires opening { HasSmallOpening p.now }
    requires state { state < states p.now.game }
    requires profile { profile < profile_count (counts p.now.game state) }
    requires player { i < p.now.game.players }
    ensures stage { result ≡ pos (stage_scale p.now i) *ℤ payoff_at p.now.game state profile i }
    ensures small { unsigned_abs result ≤ 2 ^ 60 }
{
    weight_of(p, i) * (base_of(p) * fineness_of(p) * p.game().payoff(state, profile, i))
}

/// The deviations of player `i` from a profile.
fn deviations_of(p: &Problem, state: u32, profile: u32, i: u32) -> Deviations
    requires state { state < states p.now.game }
    requires profile { profile < profile_count (counts p.now.game state) }
    requires player { i < p.now.game.players }
    ensures { AreDeviations p.now state profile i result }
{
    let game = p.game();
    let own = game.strategy_of(state, profile, i);
    let stride = stride_of(game, state, i);
    Deviations {
        state,
        player: i,
        own,
        first: profile - own * stride,
        stride,
        payoff: game.payoff(state, profile, i),
        weight: weight_of(p, i),
        unit: unit_of(p, i),
    }
}

/// What the deviation to strategy `b` asks: the player's part is at least the negative of this. None where a level of
/// the state that it reaches is Empty.
fn asked(
    p: &Problem,
    levels: &LevelTable,
    known: &[bool; 64],
    by: &Deviations,
    profile: u32,
    b: u32,
) -> Option<i64>
    requires table { IsSmallTable p.now levels.now }
    requires opening { HasSmallOpening p.now }
    requires known { AreFlags p.now (levels_in levels.now) known.now }
    requires from { AreDeviations p.now by.now.state profile by.now.player by.now }
    requires state { by.now.state < states p.now.game }
    requires profile { profile < profile_count (counts p.now.game by.now.state) }
    requires deviation { IsDeviation p.now.game by.now.state profile by.now.player b }
    ensures some { IfSome result (IsAsked p.now (levels_in levels.now) by.now.state profile by.now.player b) }
    ensures small { IfSome result (λ x. unsigned_abs x ≤ 2 ^ 62) }
    ensures known { OnSome result (ReachesKnown p.now (levels_in levels.now) by.now.state profile by.now.player b) }
    ensures none { IfNone result (ReachesKnown p.now (levels_in levels.now) by.now.state profile by.now.player b → ⊥) }
{
    let game = p.game();
    let instead = by.first + b * by.stride;
    let next = game.next(by.state, instead);
    if !known[next as usize] {
        return None;
    }
    let worst = finite(p, levels, next, 2 * by.player + 1);
    let more = game.payoff(by.state, instead, by.player) - by.payoff;
    Some(worst - by.weight * (by.unit * more))
}

/// The side where the deviation to strategy `b` asks for this.
fn lowered(side: Side, lower: i64, b: u32) -> Side
    ensures less { lower <ℤ side.lower → result ≡ record { upper = side.upper; lower = lower; by = Some b } }
    ensures no_less { side.lower ≤ℤ lower → result ≡ side }
{
    if lower < side.lower {
        Side {
            upper: side.upper,
            lower,
            by: Some(b),
        }
    } else {
        side
    }
}

/// Player `i`'s side after a profile, and none where a level of a state that its deviations reach is Empty.
fn side_of(
    p: &Problem,
    levels: &LevelTable,
    known: &[bool; 64],
    state: u32,
    profile: u32,
    i: u32,
) -> Option<Side>
    requires table { IsSmallTable p.now levels.now }
    requires opening { HasSmallOpening p.now }
    requires known { AreFlags p.now (levels_in levels.now) known.now }
    requires state { state < states p.now.game }
    requires profile { profile < profile_count (counts p.now.game state) }
    requires player { i < p.now.game.players }
    requires next { IsKnown p.now (levels_in levels.now) (successor p.now.game state profile) }
    ensures some { IfSome result (IsSide p.now (levels_in levels.now) state profile i) }
    ensures reached { OnSome result (EachReachKnown p.now (levels_in levels.now) state profile i) }
    ensures none { IfNone result (EachReachKnown p.now (levels_in levels.now) state profile i → ⊥) }
{
    let next = p.game().next(state, profile);
    let mut side = Side {
        upper: finite(p, levels, next, 2 * i),
        lower: finite(p, levels, next, 2 * i + 1),
        by: None,
    };
    let by = deviations_of(p, state, profile, i);
    for b in 0..p.game().strategies(state, i) {
        if b != by.own {
            side = lowered(side, asked(p, levels, known, &by, profile, b)?, b);
        }
    }
    Some(side)
}

pub(crate) const NO_SIDE: Side = Side {
    upper: 0,
    lower: 0,
    by: None,
};

/// The box of a profile, and none where a level of a state that it or a deviation from it reaches is Empty.
pub(crate) fn box_of(
    p: &Problem,
    levels: &LevelTable,
    known: &[bool; 64],
    state: u32,
    profile: u32,
) -> Option<ProfileBox>
    requires table { IsSmallTable p.now levels.now }
    requires opening { HasSmallOpening p.now }
    requires known { AreFlags p.now (levels_in levels.now) known.now }
    requires state { state < states p.now.game }
    requires profile { profile < profile_count (counts p.now.game state) }
    ensures state { IfSome result (λ b. b.state ≡ state) }
    ensures profile { IfSome result (λ b. b.profile ≡ profile) }
    ensures some { IfSome result (IsBoxOf p.now (levels_in levels.now)) }
    ensures none { IfNone result (AreKnown p.now (levels_in levels.now) state profile → ⊥) }
{
    let next = p.game().next(state, profile);
    if !known[next as usize] {
        return None;
    }
    let mut sides = [NO_SIDE; 3];
    let mut stage = [0; 3];
    for i in 0..p.players() {
        sides[i as usize] = side_of(p, levels, known, state, profile, i)?;
        stage[i as usize] = stage_of(p, state, profile, i);
    }
    Some(ProfileBox {
        state,
        profile,
        next,
        sides,
        stage,
    })
}
