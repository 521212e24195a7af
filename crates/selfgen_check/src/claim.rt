ghost use Rattle.std.specs.Prelude.{◌≡◌, ◌≢◌, ℕ, ◌+◌, ◌-◌, ◌*◌, ◌^◌, ◌<◌, ◌≤◌, ◌↔◌, length, take, nat_lt, if◌then◌else◌, pos, ◌*ℤ◌, IsTrue, IfNone, IfSome, slice_index, slice_index_or, unsigned_abs};
ghost use Rattle.game_model.specs.Game.{IsGame, states, counts, profile_count, profile_number, IsProfile, payoff_at, successor, strategy_at, deviation_at};
ghost use Rattle.game_model.specs.SelfGeneration.{IsGenerated, entries_of, entry_at, part, total_weight, weighted_part, deviation_count, deviation_place, punishment, profile_of};
ghost use Rattle.selfgen_check.specs.Limits.{IsSmallEntry};
ghost use Rattle.selfgen_check.specs.Parts.{HasOutcomes, HasWeight, HasPunishments, IsPunished, HasValue, Deviates, IsDeterred, IsFirstBroken, IsFirstGain, IsFirstWrongPart, next_of, reached_from};

use crate::corr::Corr;
use crate::entry::Entry;
use crate::fault::Why;
use crate::sums::{
    are_below, deviations_before, is_at_most, is_sum, place_of, share, small_part, times, total_of,
    weighed, weighted_sum,
};
use game_model::{Game, List};

/// An entry of a state whose strategies are in range, with the number of its profile, and what it is tested against.
#[derive(Clone, Copy)]
pub(crate) struct Claim<'a> {
    pub(crate) game: &'a Game,
    pub(crate) corr: &'a Corr,
    /// How many units of the correspondence one unit of the payoffs is.
    pub(crate) scale: i64,
    pub(crate) state: u32,
    pub(crate) entry: &'a Entry,
    pub(crate) profile: u32,
}

impl<'a> Claim<'a> {
    ghost use Rattle.selfgen_check.specs.Claims.{IsClaim, set_of};

    /// The first part but the profile that the entry breaks.
    pub(crate) fn first_broken(&self) -> Option<Why>
        requires { IsClaim self.now }
        ensures none { IfNone result (IsGenerated self.now.game.now (set_of self.now) self.now.state self.now.entry.now) }
        ensures some { IfSome result (IsFirstBroken self.now.game.now (set_of self.now) self.now.state self.now.entry.now) }
    {
        if !self.has_outcomes() {
            return Some(Why::Lottery);
        }
        let weights = total_of(self.entry.lottery());
        if weights == 0 {
            return Some(Why::Weights);
        }
        if !self.has_punishments() {
            return Some(Why::Punish);
        }
        match self.first_wrong_part(weights) {
            Some(player) => return Some(Why::Point { player }),
            None => {}
        }
        match self.first_gain() {
            Some((player, strategy)) => Some(Why::Gain { player, strategy }),
            None => None,
        }
    }

    /// The entries of the state that follows.
    fn next_entries(&self) -> &List<Entry>
        requires { IsClaim self.now }
        ensures { result.now ≡ entries_of (set_of self.now) (next_of self.now.game.now self.now.state self.now.entry.now) }
    {
        self.corr.entries(self.game.next(self.state, self.profile))
    }

    fn has_outcomes(&self) -> bool
        requires { IsClaim self.now }
        ensures { IsTrue result ↔ HasOutcomes self.now.game.now (set_of self.now) self.now.state self.now.entry.now }
    {
        are_below(self.entry.lottery(), self.next_entries().len())
    }

    fn has_punishments(&self) -> bool
        requires { IsClaim self.now }
        ensures { IsTrue result ↔ HasPunishments self.now.game.now (set_of self.now) self.now.state self.now.entry.now }
    {
        let wanted = deviations_before(self.game, self.state, self.game.players());
        self.entry.punish().len() == wanted && self.are_punished()
    }

    /// Whether each punishment is an entry of the state reached.
    fn are_punished(&self) -> bool
        requires claim { IsClaim self.now }
        requires count { length self.now.entry.now.punish ≡ deviation_count (counts self.now.game.now self.now.state) }
        ensures { IsTrue result ↔ ((i : ℕ) → IsPunished self.now.game.now (set_of self.now) self.now.state self.now.entry.now i) }
    {
        for i in 0..self.game.players() {
            if !self.is_punished(i) {
                return false;
            }
        }
        true
    }

    /// The same of one player's deviations.
    fn is_punished(&self, i: u32) -> bool
        requires claim { IsClaim self.now }
        requires count { length self.now.entry.now.punish ≡ deviation_count (counts self.now.game.now self.now.state) }
        requires player { i < self.now.game.now.players }
        ensures { IsTrue result ↔ IsPunished self.now.game.now (set_of self.now) self.now.state self.now.entry.now i }
    {
        let own = self.strategy(i);
        for b in 0..self.game.strategies(self.state, i) {
            if b != own && !self.has_punishment(i, b) {
                return false;
            }
        }
        true
    }

    /// The strategy that a player plays.
    fn strategy(&self, i: u32) -> u32
        requires claim { IsClaim self.now }
        requires player { i < self.now.game.now.players }
        ensures { result ≡ strategy_at self.now.game.now self.now.state (profile_of self.now.game.now self.now.state self.now.entry.now) i }
    {
        *self.entry.profile().get(i)
    }

    /// The number of the profile after a deviation.
    fn deviation(&self, i: u32, b: u32) -> u32
        requires claim { IsClaim self.now }
        requires deviation { Deviates self.now.game.now self.now.state self.now.entry.now i b }
        ensures deviation { result ≡ deviation_at self.now.game.now self.now.state (profile_of self.now.game.now self.now.state self.now.entry.now) i b }
        ensures in_range { result < profile_count (counts self.now.game.now self.now.state) }
    {
        self.game.deviation(self.state, self.profile, i, b)
    }

    /// The state that a deviation reaches.
    fn reached(&self, i: u32, b: u32) -> u32
        requires claim { IsClaim self.now }
        requires deviation { Deviates self.now.game.now self.now.state self.now.entry.now i b }
        ensures reached { result ≡ reached_from self.now.game.now self.now.state self.now.entry.now i b }
        ensures in_range { result < states self.now.game.now }
    {
        self.game.next(self.state, self.deviation(i, b))
    }

    /// The number that punishes a deviation.
    fn punishment(&self, i: u32, b: u32) -> u32
        requires claim { IsClaim self.now }
        requires count { length self.now.entry.now.punish ≡ deviation_count (counts self.now.game.now self.now.state) }
        requires deviation { Deviates self.now.game.now self.now.state self.now.entry.now i b }
        ensures { result ≡ punishment self.now.game.now self.now.state self.now.entry.now i b }
    {
        let place = place_of(self.game, self.state, self.entry.profile(), i, b);
        *self.entry.punish().get(place)
    }

    fn has_punishment(&self, i: u32, b: u32) -> bool
        requires claim { IsClaim self.now }
        requires count { length self.now.entry.now.punish ≡ deviation_count (counts self.now.game.now self.now.state) }
        requires deviation { Deviates self.now.game.now self.now.state self.now.entry.now i b }
        ensures { IsTrue result ↔ (punishment self.now.game.now self.now.state self.now.entry.now i b < length (entries_of (set_of self.now) (reached_from self.now.game.now self.now.state self.now.entry.now i b))) }
    {
        self.punishment(i, b) < self.corr.entries(self.reached(i, b)).len()
    }

    /// The player's part of the entry that punishes a deviation.
    fn punishing_part(&self, i: u32, b: u32) -> i64
        requires claim { IsClaim self.now }
        requires punishments { HasPunishments self.now.game.now (set_of self.now) self.now.state self.now.entry.now }
        requires deviation { Deviates self.now.game.now self.now.state self.now.entry.now i b }
        ensures part { result ≡ part (entry_at (set_of self.now) (reached_from self.now.game.now self.now.state self.now.entry.now i b) (punishment self.now.game.now self.now.state self.now.entry.now i b)).point i }
        ensures small { unsigned_abs result ≤ 2 ^ 30 }
    {
        let reached = self.reached(i, b);
        small_part(
            self.game,
            self.corr.entry(reached, self.punishment(i, b)),
            i,
        )
    }

    /// A payoff, in units of the correspondence.
    fn payoff(&self, a: u32, i: u32) -> i64
        requires claim { IsClaim self.now }
        requires profile { a < profile_count (counts self.now.game.now self.now.state) }
        requires player { i < self.now.game.now.players }
        ensures payoff { result ≡ self.now.scale *ℤ payoff_at self.now.game.now self.now.state a i }
        ensures small { unsigned_abs result ≤ 2 ^ 30 }
    {
        self.scale * self.game.payoff(self.state, a, i)
    }

    /// The first player whose part isn't as it must be. `weights` is the sum of the weights.
    fn first_wrong_part(&self, weights: i128) -> Option<u32>
        requires claim { IsClaim self.now }
        requires outcomes { HasOutcomes self.now.game.now (set_of self.now) self.now.state self.now.entry.now }
        requires weights { weights ≡ pos (total_weight self.now.entry.now.lottery) }
        requires small { total_weight self.now.entry.now.lottery ≤ 2 ^ 85 }
        ensures none { IfNone result ((j : ℕ) → j < self.now.game.now.players → HasValue self.now.game.now (set_of self.now) self.now.state self.now.entry.now j) }
        ensures some { IfSome result (IsFirstWrongPart self.now.game.now (set_of self.now) self.now.state self.now.entry.now) }
    {
        for i in 0..self.game.players() {
            if !self.has_value(weights, i) {
                return Some(i);
            }
        }
        None
    }

    fn has_value(&self, weights: i128, i: u32) -> bool
        requires claim { IsClaim self.now }
        requires outcomes { HasOutcomes self.now.game.now (set_of self.now) self.now.state self.now.entry.now }
        requires weights { weights ≡ pos (total_weight self.now.entry.now.lottery) }
        requires small { total_weight self.now.entry.now.lottery ≤ 2 ^ 85 }
        requires player { i < self.now.game.now.players }
        ensures { IsTrue result ↔ HasValue self.now.game.now (set_of self.now) self.now.state self.now.entry.now i }
    {
        let (p, q) = self.game.discount_of(i);
        let payoff = i128::from(self.payoff(self.profile, i));
        let own = i128::from(small_part(self.game, self.entry, i));
        let promised = weighted_sum(self.game, self.next_entries(), self.entry.lottery(), i);
        is_sum(
            weighed(q, weights, own),
            weighed(q - p, weights, payoff),
            share(p, promised),
        )
    }

    /// The first deviation that gains.
    fn first_gain(&self) -> Option<(u32, u32)>
        requires claim { IsClaim self.now }
        requires punishments { HasPunishments self.now.game.now (set_of self.now) self.now.state self.now.entry.now }
        ensures none { IfNone result ((i b : ℕ) → Deviates self.now.game.now self.now.state self.now.entry.now i b → IsDeterred self.now.game.now (set_of self.now) self.now.state self.now.entry.now i b) }
        ensures some { IfSome result (λ d. IsFirstGain self.now.game.now (set_of self.now) self.now.state self.now.entry.now d.0 d.1) }
    {
        for i in 0..self.game.players() {
            match self.first_gain_of(i) {
                Some(b) => return Some((i, b)),
                None => {}
            }
        }
        None
    }

    /// The first strategy to which a player gains by deviating.
    fn first_gain_of(&self, i: u32) -> Option<u32>
        requires claim { IsClaim self.now }
        requires punishments { HasPunishments self.now.game.now (set_of self.now) self.now.state self.now.entry.now }
        requires player { i < self.now.game.now.players }
        ensures none { IfNone result ((b : ℕ) → Deviates self.now.game.now self.now.state self.now.entry.now i b → IsDeterred self.now.game.now (set_of self.now) self.now.state self.now.entry.now i b) }
        ensures deviation { IfSome result (Deviates self.now.game.now self.now.state self.now.entry.now i) }
        ensures gains { IfSome result (λ b. ¬ IsDeterred self.now.game.now (set_of self.now) self.now.state self.now.entry.now i b) }
        ensures first { IfSome result (λ b. (x : ℕ) → x < b → Deviates self.now.game.now self.now.state self.now.entry.now i x → IsDeterred self.now.game.now (set_of self.now) self.now.state self.now.entry.now i x) }
    {
        let own = self.strategy(i);
        for b in 0..self.game.strategies(self.state, i) {
            if b != own && !self.is_deterred(i, b) {
                return Some(b);
            }
        }
        None
    }

    fn is_deterred(&self, i: u32, b: u32) -> bool
        requires claim { IsClaim self.now }
        requires punishments { HasPunishments self.now.game.now (set_of self.now) self.now.state self.now.entry.now }
        requires deviation { Deviates self.now.game.now self.now.state self.now.entry.now i b }
        ensures { IsTrue result ↔ IsDeterred self.now.game.now (set_of self.now) self.now.state self.now.entry.now i b }
    {
        let (p, q) = self.game.discount_of(i);
        let payoff = self.payoff(self.deviation(i, b), i);
        let punishing = self.punishing_part(i, b);
        let own = small_part(self.game, self.entry, i);
        is_at_most(times(q - p, payoff), times(p, punishing), times(q, own))
    }
}
