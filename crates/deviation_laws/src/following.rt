//! What follows a strategy of a player at an entry.

ghost use Rattle.std.specs.Prelude.{◌≡◌, ◌≢◌, ℕ, ◌<◌, ◌≤◌, ◌∷◌, [], length, slice_index, slice_index_or};
ghost use Rattle.game_model.specs.Game.{states, counts, profile_count};
ghost use Rattle.game_model.specs.SelfGeneration.{IsGenerated, entries_of, entry_at, punishment};
ghost use Rattle.selfgen_check.specs.Promises.{correspondence_of};
ghost use Rattle.deviation_laws.specs.Plans.{profile_after, state_after, outcomes_after};

use selfgen_check::{Checked, Entry, Lottery, number_of, place_of};

/// The number of the profile where a player plays `strategy` and the others follow the entry.
pub(crate) fn profile_after(
    set: &Checked,
    player: u32,
    state: u32,
    entry: u32,
    strategy: u32,
) -> u32
    requires player { player < set.now.game.players }
    requires state { state < states set.now.game }
    requires entry { entry < length (entries_of (correspondence_of set.now.game set.now.corr) state) }
    requires strategy { strategy < slice_index (counts set.now.game state) player }
    ensures profile { result ≡ profile_after set.now.game state (entry_at (correspondence_of set.now.game set.now.corr) state entry) player strategy }
    ensures in_range { result < profile_count (counts set.now.game state) }
{
    let game = set.game();
    let _players = game.players();
    let number = number_of(game, state, set.corr().entry(state, entry).profile());
    game.deviation(state, number, player, strategy)
}

/// The state that follows then.
pub(crate) fn state_after(set: &Checked, player: u32, state: u32, entry: u32, strategy: u32) -> u32
    requires player { player < set.now.game.players }
    requires state { state < states set.now.game }
    requires entry { entry < length (entries_of (correspondence_of set.now.game set.now.corr) state) }
    requires strategy { strategy < slice_index (counts set.now.game state) player }
    ensures next { result ≡ state_after set.now.game state (entry_at (correspondence_of set.now.game set.now.corr) state entry) player strategy }
    ensures in_range { result < states set.now.game }
{
    let game = set.game();
    let _players = game.players();
    game.next(state, profile_after(set, player, state, entry, strategy))
}

/// The entries that may follow, with their weights: those of the lottery after the entry's own strategy, and else the
/// punishing one.
pub(crate) fn outcomes_after(
    set: &Checked,
    player: u32,
    state: u32,
    entry: u32,
    strategy: u32,
) -> Lottery
    requires player { player < set.now.game.players }
    requires state { state < states set.now.game }
    requires entry { entry < length (entries_of (correspondence_of set.now.game set.now.corr) state) }
    requires strategy { strategy < slice_index (counts set.now.game state) player }
    ensures outcomes { result ≡ outcomes_after set.now.game state (entry_at (correspondence_of set.now.game set.now.corr) state entry) player strategy }
    ensures known { (j : ℕ) → j < length result → (slice_index_or result j (0, 0)).0 < length (entries_of (correspondence_of set.now.game set.now.corr) (state_after set.now.game state (entry_at (correspondence_of set.now.game set.now.corr) state entry) player strategy)) }
{
    let _players = set.game().players();
    let promise = set.corr().entry(state, entry);
    if strategy == *promise.profile().get(player) {
        copy_of(promise.lottery())
    } else {
        one_outcome(punishment_of(set, player, state, promise, strategy))
    }
}

/// The number of the entry that punishes a deviation.
fn punishment_of(set: &Checked, player: u32, state: u32, promise: &Entry, strategy: u32) -> u32
    requires player { player < set.now.game.players }
    requires state { state < states set.now.game }
    requires generated { IsGenerated set.now.game (correspondence_of set.now.game set.now.corr) state promise.now }
    requires strategy { strategy < slice_index (counts set.now.game state) player }
    requires other { strategy ≢ slice_index promise.now.profile player }
    ensures { result ≡ punishment set.now.game state promise.now player strategy }
{
    let place = place_of(set.game(), state, promise.profile(), player, strategy);
    *promise.punish().get(place)
}

fn copy_of(lottery: &Lottery) -> Lottery
    ensures { result ≡ lottery.now }
{
    let mut copy = Lottery::new();
    for k in 0..lottery.len() {
        copy.push(lottery.entry(k), lottery.weight(k));
    }
    copy
}

fn one_outcome(entry: u32) -> Lottery
    ensures { result ≡ (entry, 1) ∷ [] }
{
    let mut lottery = Lottery::new();
    lottery.push(entry, 1);
    lottery
}
