ghost use Rattle.std.specs.Prelude.{◌≡◌, ◌<◌, ◌≤◌, length, take};
ghost use Rattle.game_model.specs.SelfGeneration.{part};

use super::lottery::Lottery;
use game_model::List;
use std::marker::Model;

/// A promised payoff: a point, a profile, a lottery over entries of the state that follows, and a punishing entry for each
/// deviation. Contracts see the entry of the definitions.
#[derive(Drop)]
pub struct Entry {
    point: [i64; 3],
    profile: List<u32>,
    lottery: Lottery,
    punish: List<u32>,
}

impl Model for Entry {
    ghost use Rattle.std.specs.Prelude.{◌≡◌, ◌≤◌, length, take};
    ghost use Rattle.game_model.specs.SelfGeneration.{Entry};

    ghost Value = { Entry };

    ghost view = { λ a. record { point = take (length a.profile) a.point; profile = a.profile; lottery = a.lottery; punish = a.punish } };

    ghost invariant = { λ a. (length a.profile ≤ 3) × (length a.point ≡ 3) };
}

impl Entry {
    /// An entry of as many players as the profile has strategies, at most three. Parts of the point past them are ignored.
    /// A part is in units of one over the common denominator of the whole correspondence. `punish` has numbers of entries
    /// by player and then by strategy, leaving out the strategy that is played.
    pub fn new(point: [i64; 3], profile: List<u32>, lottery: Lottery, punish: List<u32>) -> Entry
        requires { length profile ≤ 3 }
        ensures { result ≡ record { point = take (length profile) point; profile = profile; lottery = lottery; punish = punish } }
    {
        Entry {
            point,
            profile,
            lottery,
            punish,
        }
    }

    /// Part `i` of the point.
    pub fn part(&self, i: u32) -> i64
        requires { i < length self.now.point }
        ensures { result ≡ part self.now.point i }
    {
        self.point[i as usize]
    }

    /// The strategies that are played, one for each player.
    pub fn profile(&self) -> &List<u32>
        ensures profile { result.now ≡ self.now.profile }
        ensures parts { length self.now.point ≡ length self.now.profile }
        ensures few { length self.now.profile ≤ 3 }
    {
        &self.profile
    }

    /// The outcomes that follow.
    pub fn lottery(&self) -> &Lottery
        ensures { result.now ≡ self.now.lottery }
    {
        &self.lottery
    }

    /// The numbers of the punishing entries.
    pub fn punish(&self) -> &List<u32>
        ensures { result.now ≡ self.now.punish }
    {
        &self.punish
    }
}
