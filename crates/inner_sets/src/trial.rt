ghost use Rattle.std.specs.Prelude.{◌≡◌, ◌≢◌, ℕ, ◌^◌, ◌<◌, ◌≤◌, ◌↔◌, pos, ◌+ℤ◌, ◌*ℤ◌, IsTrue, MatchOption, length, slice_index, unsigned_abs};
ghost use Rattle.game_model.specs.Game.{IsDeviation, counts, deviation_at, reached, states, profile_count, strategy_at, successor};
ghost use Rattle.game_model.specs.SelfGeneration.{part};
ghost use Rattle.hull_weights.specs.Hull.{IsInHull, IsTriangle};
ghost use Rattle.inner_sets.specs.Choice.{discount, payoff_share, remainder};
ghost use Rattle.inner_sets.specs.Summaries.{Continues, DetersAt, IsAsk, IsAskOf, Passes, summary_at};

use crate::sizes::{is_enough, is_small_point, part_of, payoff_share, remainder_part, sum, times};
use crate::summary::Summary;
use game_model::Game;
use hull_weights::{HullAnswer, HullWeights, is_in_hull, triangle};

/// More than `q` times any part.
const BEYOND: i64 = 1 << 62;

/// A profile of a state at which points are tried. Points are in units of `1/(denominator*n)`.
#[derive(Clone, Copy)]
pub(crate) struct Trial<'a> {
    pub(crate) game: &'a Game,
    pub(crate) n: u32,
    /// For each state what is asked of its points.
    pub(crate) summaries: &'a [Summary],
    pub(crate) state: u32,
    pub(crate) profile: u32,
}

impl<'a> Trial<'a> {
    ghost use Rattle.inner_sets.specs.Trials.{IsTrial};

    /// Whether the profile gives the point, where this is what it asks.
    pub(crate) fn passes(&self, asks: [i64; 2], point: [i64; 2]) -> bool
        requires trial { IsTrial self.now }
        requires asks { (i : ℕ) → i < 2 → IsAsk self.now.game.now self.now.n self.now.summaries.now self.now.state self.now.profile i (part asks i) }
        requires small { (i : ℕ) → i < 2 → unsigned_abs (part point i) ≤ 2 ^ 30 }
        ensures { IsTrue result ↔ Passes self.now.game.now self.now.n self.now.summaries.now self.now.state self.now.profile point }
    {
        self.deters_all(asks, point) && self.continues(point)
    }

    fn continues(&self, point: [i64; 2]) -> bool
        requires trial { IsTrial self.now }
        requires small { (i : ℕ) → i < 2 → unsigned_abs (part point i) ≤ 2 ^ 30 }
        ensures { IsTrue result ↔ Continues self.now.game.now self.now.n self.now.summaries.now self.now.state self.now.profile point }
    {
        let next = self.summary(self.game.next(self.state, self.profile));
        let corners = next.corners();
        let target = self.remainder(point);
        is_small_point(target) && is_in_hull(corners, target)
    }

    /// Weights of the points that follow, whose average is what the point leaves to them.
    pub(crate) fn continuation(&self, point: [i64; 2]) -> Option<HullWeights>
        requires trial { IsTrial self.now }
        requires small { (i : ℕ) → i < 2 → unsigned_abs (part point i) ≤ 2 ^ 30 }
        ensures { MatchOption result (¬ Continues self.now.game.now self.now.n self.now.summaries.now self.now.state self.now.profile point) (IsTriangle (summary_at self.now.summaries.now (successor self.now.game.now self.now.state self.now.profile)).points (remainder self.now.game.now self.now.n self.now.state self.now.profile point)) }
    {
        let next = self.summary(self.game.next(self.state, self.profile));
        let points = next.points();
        let target = self.remainder(point);
        if !is_small_point(target) {
            return None;
        }
        match triangle(points, target) {
            HullAnswer::Weights { items } => Some(items),
            HullAnswer::Outside { .. } => None,
        }
    }

    /// What the point leaves to those that follow, in units of `1/(denominator*n*q)`.
    fn remainder(&self, point: [i64; 2]) -> [i128; 2]
        requires trial { IsTrial self.now }
        requires small { (i : ℕ) → i < 2 → unsigned_abs (part point i) ≤ 2 ^ 30 }
        ensures { result ≡ remainder self.now.game.now self.now.n self.now.state self.now.profile point }
    {
        let first = remainder_part(self.game, self.n, self.state, self.profile, 0, point[0]);
        let second = remainder_part(self.game, self.n, self.state, self.profile, 1, point[1]);
        [first, second]
    }

    /// How many strategies player `i` has.
    pub(crate) fn strategies(&self, i: u32) -> u32
        requires trial { IsTrial self.now }
        requires player { i < 2 }
        ensures count { result ≡ slice_index (counts self.now.game.now self.now.state) i }
        ensures few { result ≤ 16 }
    {
        let _players = self.game.players();
        self.game.strategies(self.state, i)
    }

    /// The strategy of player `i` in the profile.
    pub(crate) fn strategy(&self, i: u32) -> u32
        requires trial { IsTrial self.now }
        requires player { i < 2 }
        ensures strategy { result ≡ strategy_at self.now.game.now self.now.state self.now.profile i }
        ensures in_range { result < slice_index (counts self.now.game.now self.now.state) i }
    {
        self.game.strategy_of(self.state, self.profile, i)
    }

    /// The place of the first point that is least for player `i`, in the state that the deviation to `b` reaches.
    pub(crate) fn first_least(&self, i: u32, b: u32) -> u32
        requires trial { IsTrial self.now }
        requires deviation { IsDeviation self.now.game.now self.now.state self.now.profile i b }
        ensures { result ≡ slice_index (summary_at self.now.summaries.now (reached self.now.game.now self.now.state self.now.profile i b)).first i }
    {
        let deviation = self.game.deviation(self.state, self.profile, i, b);
        self.summary(self.game.next(self.state, deviation)).first(i)
    }

    /// What is asked of the points of a state.
    fn summary(&self, s: u32) -> &'a Summary
        requires trial { IsTrial self.now }
        requires state { s < states self.now.game.now }
        ensures { result.now ≡ summary_at self.now.summaries.now s }
    {
        &self.summaries[s as usize]
    }

    /// What the profile asks of each part of a point.
    pub(crate) fn asks(&self) -> [i64; 2]
        requires { IsTrial self.now }
        ensures { (i : ℕ) → i < 2 → IsAsk self.now.game.now self.now.n self.now.summaries.now self.now.state self.now.profile i (part result i) }
    {
        let first = self.ask(0);
        let second = self.ask(1);
        [first, second]
    }

    /// What player `i`'s deviations ask: the least `q` times a part at which none gains.
    fn ask(&self, i: u32) -> i64
        requires trial { IsTrial self.now }
        requires player { i < 2 }
        ensures { IsAsk self.now.game.now self.now.n self.now.summaries.now self.now.state self.now.profile i result }
    {
        let own = self.strategy(i);
        let mut ask = -BEYOND;
        for b in 0..self.strategies(i) {
            if b != own {
                ask = ask.max(self.ask_of(i, b));
            }
        }
        ask
    }

    /// What one deviation asks, where the least part of the state that it reaches follows.
    fn ask_of(&self, i: u32, b: u32) -> i64
        requires trial { IsTrial self.now }
        requires deviation { IsDeviation self.now.game.now self.now.state self.now.profile i b }
        ensures { IsAskOf self.now.game.now self.now.n self.now.summaries.now self.now.state self.now.profile i b result }
    {
        let deviation = self.game.deviation(self.state, self.profile, i, b);
        let reached = self.summary(self.game.next(self.state, deviation));
        if reached.is_empty() {
            return BEYOND;
        }
        self.least_ask(i, deviation, reached)
    }

    /// What profile `b` of the state, and then the least part, give to the player.
    fn least_ask(&self, i: u32, b: u32, reached: &Summary) -> i64
        requires trial { IsTrial self.now }
        requires player { i < 2 }
        requires profile { b < profile_count (counts self.now.game.now self.now.state) }
        ensures ask { result ≡ payoff_share self.now.game.now self.now.n self.now.state b i +ℤ pos (discount self.now.game.now i) *ℤ part reached.now.least i }
        ensures small { unsigned_abs result ≤ 2 ^ 46 }
    {
        let (p, _q) = self.game.discount_of(i);
        let share = payoff_share(self.game, self.n, self.state, b, i);
        sum(share, times(p, reached.least(i)))
    }

    /// Whether no deviation gains, where this is what they ask.
    fn deters_all(&self, asks: [i64; 2], point: [i64; 2]) -> bool
        requires trial { IsTrial self.now }
        requires asks { (i : ℕ) → i < 2 → IsAsk self.now.game.now self.now.n self.now.summaries.now self.now.state self.now.profile i (part asks i) }
        requires small { (i : ℕ) → i < 2 → unsigned_abs (part point i) ≤ 2 ^ 30 }
        ensures { IsTrue result ↔ ((i b : ℕ) → IsDeviation self.now.game.now self.now.state self.now.profile i b → DetersAt self.now.game.now self.now.n self.now.summaries.now self.now.state self.now.profile point i b) }
    {
        self.deters(asks, point, 0) && self.deters(asks, point, 1)
    }

    /// The same of one player's deviations.
    fn deters(&self, asks: [i64; 2], point: [i64; 2], i: u32) -> bool
        requires trial { IsTrial self.now }
        requires player { i < 2 }
        requires ask { IsAsk self.now.game.now self.now.n self.now.summaries.now self.now.state self.now.profile i (part asks i) }
        requires small { (i : ℕ) → i < 2 → unsigned_abs (part point i) ≤ 2 ^ 30 }
        ensures { IsTrue result ↔ ((b : ℕ) → IsDeviation self.now.game.now self.now.state self.now.profile i b → DetersAt self.now.game.now self.now.n self.now.summaries.now self.now.state self.now.profile point i b) }
    {
        let (_p, q) = self.game.discount_of(i);
        is_enough(asks[i as usize], q, part_of(point, i))
    }
}
