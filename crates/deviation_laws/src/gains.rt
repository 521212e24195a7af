//! What a plan gains, as an exact fraction.

ghost use Rattle.std.specs.Prelude.{◌≡◌, ℕ, ◌+◌, ◌-◌, ◌*◌, ◌^◌, ◌<◌, ◌≤◌, ◌↔◌, [], ◌∷◌, length, pos, neg_ℤ, ◌*ℤ◌, ◌≤ℤ◌, ◌<ℤ◌, IsOk, IfOk, IfErr, IsTrue, slice_index, slice_index_or, unsigned_abs};
ghost use Rattle.game_model.specs.Game.{states, counts, profile_count};
ghost use Rattle.game_model.specs.SelfGeneration.{entries_of, entry_at, part, total_weight};
ghost use Rattle.pay_frac.specs.Ratio.{Equals, IsLowest, IsSmall};
ghost use Rattle.selfgen_check.specs.Promises.{correspondence_of};
ghost use Rattle.deviation_laws.specs.declared.plan.DevPlan.{Stop};
ghost use Rattle.deviation_laws.specs.declared.plan.DevPlan.TheViews.{Play};
ghost use Rattle.deviation_laws.specs.Fractions.{whole, plus, product};
ghost use Rattle.deviation_laws.specs.Gains.{units, value_of, gain_of, discount, now_share, weighed, formed, all_formed, AreSmall, IsFirstBeyond, Answers};
ghost use Rattle.deviation_laws.specs.Lists.{FitInTurn, average_in_turn, formed_in_turn, held, formed_at, formed_then};
ghost use Rattle.deviation_laws.specs.Plans.{Fits, depth_of, state_after, outcomes_after};

use crate::following::{outcomes_after, profile_after, state_after};
use crate::plan::DevPlan;
use pay_frac::{Frac, add, mul, small};
use selfgen_check::{Checked, Lottery};

/// A fraction that is formed at this depth of a plan has a part of more than 2^62 in lowest terms.
#[derive(Clone, Copy, Debug, PartialEq, Eq)]
pub struct GainBeyond {
    pub depth: u32,
}

/// Whether a plan plays at most so many periods.
#[cycle(playing)]
pub fn plays_at_most(plan: &DevPlan, periods: u32) -> bool
    ensures { IsTrue result ↔ (depth_of plan.now ≤ periods) }
{
    match plan {
        DevPlan::Stop => true,
        DevPlan::Play { plans, .. } => periods > 0 && play_at_most(plans, periods - 1),
    }
}

/// The same of each plan.
#[cycle(playing)]
fn play_at_most(plans: &[DevPlan], periods: u32) -> bool
    ensures { IsTrue result ↔ ((j : ℕ) → j < length plans.now → depth_of (slice_index_or plans.now j Stop) ≤ periods) }
{
    for j in 0..plans.len() {
        if !plays_at_most(&plans[j], periods) {
            return false;
        }
    }
    true
}

/// What a plan that fits is worth to the player less the entry's part, in units of the game's payoffs. All fractions on
/// the way are in lowest terms with parts of at most 2^62, or the answer is the depth of the plan at which the first is
/// formed that isn't: that of `plan` is 0, and each plan that follows is one deeper than the plan before it.
///
/// For each outcome in order these are the fractions of the plan that follows, the outcome's share of the weights, this
/// share times the worth of the plan, and the sum so far; then the sum times the discount factor, the payoff of the
/// period times 1 less the discount factor, and the sum of these two; at last the gain. A plan that stops forms none.
pub fn gain(
    set: &Checked,
    player: u32,
    state: u32,
    entry: u32,
    plan: &DevPlan,
) -> Result<Frac, GainBeyond>
    requires player { player < set.now.game.players }
    requires state { state < states set.now.game }
    requires entry { entry < length (entries_of (correspondence_of set.now.game set.now.corr) state) }
    requires fits { Fits set.now.game (correspondence_of set.now.game set.now.corr) player state entry plan.now }
    requires deep { depth_of plan.now < 2 ^ 32 }
    ensures small { IsOk result ↔ AreSmall (all_formed set.now.game (correspondence_of set.now.game set.now.corr) player state entry plan.now) }
    ensures equal { IfOk result (λ f. Equals f (gain_of set.now.game (correspondence_of set.now.game set.now.corr) player state entry plan.now).num (gain_of set.now.game (correspondence_of set.now.game set.now.corr) player state entry plan.now).den) }
    ensures positive { pos 0 <ℤ (gain_of set.now.game (correspondence_of set.now.game set.now.corr) player state entry plan.now).den }
    ensures lowest { IfOk result IsLowest }
    ensures beyond { IfErr result (λ e. IsFirstBeyond (all_formed set.now.game (correspondence_of set.now.game set.now.corr) player state entry plan.now) e.depth) }
{
    gained(set, player, state, entry, plan)
}

/// The same, with both answers in one clause.
fn gained(
    set: &Checked,
    player: u32,
    state: u32,
    entry: u32,
    plan: &DevPlan,
) -> Result<Frac, GainBeyond>
    requires player { player < set.now.game.players }
    requires state { state < states set.now.game }
    requires entry { entry < length (entries_of (correspondence_of set.now.game set.now.corr) state) }
    requires fits { Fits set.now.game (correspondence_of set.now.game set.now.corr) player state entry plan.now }
    requires deep { depth_of plan.now < 2 ^ 32 }
    ensures positive { pos 0 <ℤ (gain_of set.now.game (correspondence_of set.now.game set.now.corr) player state entry plan.now).den }
    ensures answers { Answers (all_formed set.now.game (correspondence_of set.now.game set.now.corr) player state entry plan.now) (gain_of set.now.game (correspondence_of set.now.game set.now.corr) player state entry plan.now) result }
{
    let _players = set.game().players();
    let worth = worth_of(set, player, state, entry, plan, 0)?;
    kept(add(worth, less_part(set, player, state, entry)), 0)
}

/// The player's part of an entry, with the other sign.
fn less_part(set: &Checked, player: u32, state: u32, entry: u32) -> Frac
    requires player { player < set.now.game.players }
    requires state { state < states set.now.game }
    requires entry { entry < length (entries_of (correspondence_of set.now.game set.now.corr) state) }
    ensures equal { Equals result (neg_ℤ (part (entry_at (correspondence_of set.now.game set.now.corr) state entry).point player)) (units set.now.game (correspondence_of set.now.game set.now.corr)) }
    ensures lowest { IsLowest result }
    ensures small { IsSmall result }
{
    in_units(set, -part_of(set, player, state, entry))
}

/// The worth of a plan at this depth.
#[cycle(gaining)]
fn worth_of(
    set: &Checked,
    player: u32,
    state: u32,
    entry: u32,
    plan: &DevPlan,
    depth: u32,
) -> Result<Frac, GainBeyond>
    requires player { player < set.now.game.players }
    requires state { state < states set.now.game }
    requires entry { entry < length (entries_of (correspondence_of set.now.game set.now.corr) state) }
    requires fits { Fits set.now.game (correspondence_of set.now.game set.now.corr) player state entry plan.now }
    requires deep { depth + depth_of plan.now < 2 ^ 32 }
    ensures { Answers (formed set.now.game (correspondence_of set.now.game set.now.corr) player depth state entry plan.now) (value_of set.now.game (correspondence_of set.now.game set.now.corr) player state entry plan.now) result }
{
    match plan {
        DevPlan::Stop => Ok(in_units(set, part_of(set, player, state, entry))),
        DevPlan::Play { strategy, plans } => {
            let next = state_after(set, player, state, entry, *strategy);
            let outcomes = outcomes_after(set, player, state, entry, *strategy);
            let turn = Turn {
                state,
                entry,
                strategy: *strategy,
                next,
            };
            plans_follow(set, player, turn, plans, &outcomes, depth);
            let average = average_of(set, player, next, &outcomes, plans, depth)?;
            let _players = set.game().players();
            let now = now_share(
                set,
                player,
                state,
                profile_after(set, player, state, entry, *strategy),
            );
            discounted(set, player, now, average, depth)
        }
    }
}

/// A period in which a player plays a strategy at an entry of a state, and the state that comes next.
#[derive(Clone, Copy)]
struct Turn {
    state: u32,
    entry: u32,
    strategy: u32,
    next: u32,
}

/// A law: where a plan fits and isn't too deep, its plans fit the outcomes and aren't too deep, and some weight isn't 0.
fn plans_follow(
    set: &Checked,
    player: u32,
    turn: Turn,
    plans: &Vec<DevPlan>,
    outcomes: &Lottery,
    depth: u32,
)
    requires player { player < set.now.game.players }
    requires state { turn.state < states set.now.game }
    requires entry { turn.entry < length (entries_of (correspondence_of set.now.game set.now.corr) turn.state) }
    requires fits { Fits set.now.game (correspondence_of set.now.game set.now.corr) player turn.state turn.entry (Play turn.strategy plans.now) }
    requires deep { depth + depth_of (Play turn.strategy plans.now) < 2 ^ 32 }
    requires next { turn.next ≡ state_after set.now.game turn.state (entry_at (correspondence_of set.now.game set.now.corr) turn.state turn.entry) player turn.strategy }
    requires outcomes { outcomes.now ≡ outcomes_after set.now.game turn.state (entry_at (correspondence_of set.now.game set.now.corr) turn.state turn.entry) player turn.strategy }
    ensures weights { 0 < total_weight outcomes.now }
    ensures fit { FitInTurn set.now.game (correspondence_of set.now.game set.now.corr) player turn.next outcomes.now plans.now.items }
    ensures deep { (j : ℕ) → j < length plans.now.items → depth + 1 + depth_of (slice_index_or plans.now.items j Stop) < 2 ^ 32 }
{
    let _players = set.game().players();
}

/// The average of what the plans are worth, one for each outcome of a plan at this depth.
#[cycle(gaining)]
fn average_of(
    set: &Checked,
    player: u32,
    next: u32,
    outcomes: &Lottery,
    plans: &[DevPlan],
    depth: u32,
) -> Result<Frac, GainBeyond>
    requires player { player < set.now.game.players }
    requires next { next < states set.now.game }
    requires known { (j : ℕ) → j < length outcomes.now → (slice_index_or outcomes.now j (0, 0)).0 < length (entries_of (correspondence_of set.now.game set.now.corr) next) }
    requires weights { 0 < total_weight outcomes.now }
    requires fit { FitInTurn set.now.game (correspondence_of set.now.game set.now.corr) player next outcomes.now plans.now }
    requires deep { (j : ℕ) → j < length plans.now → depth + 1 + depth_of (slice_index_or plans.now j Stop) < 2 ^ 32 }
    ensures { Answers (formed_in_turn set.now.game (correspondence_of set.now.game set.now.corr) player depth next (total_weight outcomes.now) (whole (pos 0)) outcomes.now plans.now) (average_in_turn set.now.game (correspondence_of set.now.game set.now.corr) player next outcomes.now plans.now) result }
{
    let _players = set.game().players();
    let total = total_of(outcomes);
    let mut sum = Frac::of(0, 1);
    for j in 0..outcomes.len() {
        let worth = worth_of(
            set,
            player,
            next,
            outcomes.entry(j),
            &plans[j as usize],
            depth + 1,
        )?;
        sum = with_outcome(sum, outcomes.weight(j), total, worth, depth)?;
    }
    Ok(sum)
}

/// The player's part of an entry.
fn part_of(set: &Checked, player: u32, state: u32, entry: u32) -> i64
    requires player { player < set.now.game.players }
    requires state { state < states set.now.game }
    requires entry { entry < length (entries_of (correspondence_of set.now.game set.now.corr) state) }
    ensures part { result ≡ part (entry_at (correspondence_of set.now.game set.now.corr) state entry).point player }
    ensures small { unsigned_abs result ≤ 2 ^ 30 }
{
    let _players = set.game().players();
    set.corr().entry(state, entry).part(player)
}

/// A number of units of the entries' parts.
fn in_units(set: &Checked, count: i64) -> Frac
    requires { unsigned_abs count ≤ 2 ^ 30 }
    ensures equal { Equals result count (units set.now.game (correspondence_of set.now.game set.now.corr)) }
    ensures lowest { IsLowest result }
    ensures small { IsSmall result }
{
    let _players = set.game().players();
    Frac::of(i128::from(count), i128::from(set.corr().common()))
}

/// The payoff of a period, times 1 less the discount factor.
fn now_share(set: &Checked, player: u32, state: u32, profile: u32) -> Frac
    requires player { player < set.now.game.players }
    requires state { state < states set.now.game }
    requires profile { profile < profile_count (counts set.now.game state) }
    ensures equal { Equals result (now_share set.now.game state profile player).num (now_share set.now.game state profile player).den }
    ensures lowest { IsLowest result }
    ensures small { IsSmall result }
{
    let game = set.game();
    let _players = game.players();
    let (p, q) = game.discount_of(player);
    let payoff = times(q - p, game.payoff(state, profile, player));
    Frac::of(payoff, times(q, game.denominator()))
}

/// A number of units, as often as a discount factor's numerator or denominator says.
fn times(count: u32, units: i64) -> i128
    requires count { count ≤ 1024 }
    requires units { unsigned_abs units ≤ 2 ^ 40 }
    ensures product { result ≡ pos count *ℤ units }
    ensures small { unsigned_abs result ≤ 2 ^ 50 }
{
    i128::from(count) * i128::from(units)
}

/// The player's discount factor.
fn discount(set: &Checked, player: u32) -> Frac
    requires { player < set.now.game.players }
    ensures equal { Equals result (discount set.now.game player).num (discount set.now.game player).den }
    ensures some { 0 < set.now.game.q }
    ensures lowest { IsLowest result }
    ensures small { IsSmall result }
{
    let game = set.game();
    let _players = game.players();
    let (p, q) = game.discount_of(player);
    Frac::of(i128::from(p), i128::from(q))
}

/// The payoff of a period and the discounted average of what follows.
fn discounted(
    set: &Checked,
    player: u32,
    now: Frac,
    average: Frac,
    depth: u32,
) -> Result<Frac, GainBeyond>
    requires player { player < set.now.game.players }
    requires now_lowest { IsLowest now }
    requires now_small { IsSmall now }
    requires average_lowest { IsLowest average }
    requires average_small { IsSmall average }
    ensures { Answers (formed_then set.now.game player depth (held now) (held average)) (plus (held now) (product (discount set.now.game player) (held average))) result }
{
    let later = kept(mul(discount(set, player), average), depth)?;
    kept(add(now, later), depth)
}

/// A sum with one outcome more.
fn with_outcome(
    sum: Frac,
    weight: i128,
    total: i128,
    worth: Frac,
    depth: u32,
) -> Result<Frac, GainBeyond>
    requires sum_lowest { IsLowest sum }
    requires sum_small { IsSmall sum }
    requires worth_lowest { IsLowest worth }
    requires worth_small { IsSmall worth }
    requires not_negative { pos 0 ≤ℤ weight }
    requires weight_small { unsigned_abs weight ≤ 2 ^ 83 }
    requires positive { pos 0 <ℤ total }
    requires total_small { unsigned_abs total ≤ 2 ^ 85 }
    ensures { Answers (formed_at depth (unsigned_abs weight) (unsigned_abs total) (held sum) (held worth)) (plus (held sum) (weighed (unsigned_abs weight) (unsigned_abs total) (held worth))) result }
{
    let share = kept(Frac::of(weight, total), depth)?;
    let part = kept(mul(share, worth), depth)?;
    kept(add(sum, part), depth)
}

/// The sum of the weights.
fn total_of(lottery: &Lottery) -> i128
    ensures total { result ≡ pos (total_weight lottery.now) }
    ensures small { total_weight lottery.now ≤ 2 ^ 85 }
{
    let mut total = 0;
    for k in 0..lottery.len() {
        total += lottery.weight(k);
    }
    total
}

/// A fraction that is formed at this depth, where it is small.
fn kept(formed: Frac, depth: u32) -> Result<Frac, GainBeyond>
    ensures ok { IfOk result (λ f. (f ≡ formed) × IsSmall formed) }
    ensures err { IfErr result (λ e. (e.depth ≡ depth) × (¬ IsSmall formed)) }
{
    if small(formed) {
        Ok(formed)
    } else {
        Err(GainBeyond { depth })
    }
}
