ghost use Rattle.std.specs.Prelude.{◌≡◌, ◌<◌, [], length, pos, ◌<ℤ◌, slice_index_or, unsigned_abs};
ghost use Rattle.game_model.specs.SelfGeneration.{no_entry};

use super::entry::Entry;
use game_model::List;
use std::marker::Model;

/// A correspondence: for each state a list of entries, the parts of all points over one common denominator.
#[derive(Drop)]
pub struct Corr {
    common: i64,
    states: List<List<Entry>>,
}

impl Model for Corr {
    ghost use Rattle.std.specs.Prelude.{pos, ◌<ℤ◌, unsigned_abs};
    ghost use Rattle.selfgen_check.specs.Promises.{Promises};

    ghost Value = { Promises };

    ghost view = { λ a. record { common = unsigned_abs a.common; entries = a.states } };

    ghost invariant = { λ a. pos 0 <ℤ a.common };
}

impl Corr {
    /// A correspondence over the common denominator `common`, which is positive.
    pub fn new(common: i64, states: List<List<Entry>>) -> Corr
        requires { pos 0 <ℤ common }
        ensures { result ≡ record { common = unsigned_abs common; entries = states } }
    {
        Corr { common, states }
    }

    /// The common denominator of all points.
    pub fn common(&self) -> i64
        ensures common { result ≡ pos self.now.common }
        ensures positive { 0 < self.now.common }
    {
        self.common
    }

    /// The number of lists.
    pub fn states(&self) -> u32
        ensures { result ≡ length self.now.entries }
    {
        self.states.len()
    }

    /// The entries of a state.
    pub fn entries(&self, state: u32) -> &List<Entry>
        requires { state < length self.now.entries }
        ensures { result.now ≡ slice_index_or self.now.entries state [] }
    {
        self.states.get(state)
    }

    /// Entry number `k` of a state.
    pub fn entry(&self, state: u32, k: u32) -> &Entry
        requires state { state < length self.now.entries }
        requires known { k < length (slice_index_or self.now.entries state []) }
        ensures { result.now ≡ slice_index_or (slice_index_or self.now.entries state []) k no_entry }
    {
        self.states.get(state).get(k)
    }
}
