ghost use Rattle.std.specs.Prelude.{◌≡◌, ℕ, ◌<◌, ◌≤◌, ◌↔◌, length, pos, IsOk, IfOk, IfErr, IfNone, IfSome};
ghost use Rattle.game_model.specs.Game.{states};
ghost use Rattle.game_model.specs.SelfGeneration.{IsGenerated, IsSelfGenerating, entries_of, entry_at};
ghost use Rattle.selfgen_check.specs.Faults.{AreGenerated, IsFirstFault};
ghost use Rattle.selfgen_check.specs.Limits.{IsSmallEntry, KeepsLimits};
ghost use Rattle.selfgen_check.specs.Parts.{IsFirstBroken};
ghost use Rattle.selfgen_check.specs.Promises.{correspondence_of, scale_of};

use crate::claim::Claim;
use crate::corr::Corr;
use crate::entry::Entry;
use crate::fault::{CorrFault, Why};
use crate::limits::scale_of;
use crate::sums::{is_profile, number_of};
use game_model::Game;
use std::marker::Model;

/// A correspondence that is self-generating, with its game.
#[derive(Drop)]
pub struct Checked<'g> {
    game: &'g Game,
    corr: Corr,
}

impl<'g> Model for Checked<'g> {
    ghost use Rattle.selfgen_check.specs.Sets.{CheckedSet, IsChecked};

    ghost Value = { CheckedSet };

    ghost view = { λ a. record { game = a.game.now; corr = a.corr } };

    ghost invariant = { λ a. IsChecked (record { game = a.game.now; corr = a.corr }) };
}

impl<'g> Checked<'g> {
    ghost use Rattle.selfgen_check.specs.Sets.{CheckedSet, IsChecked};

    /// The game.
    pub fn game(&self) -> &'g Game
        ensures game { result.now ≡ self.now.game }
        ensures checked { IsChecked self.now }
    {
        self.game
    }

    /// The correspondence.
    pub fn corr(&self) -> &Corr
        ensures corr { result.now ≡ self.now.corr }
        ensures checked { IsChecked self.now }
    {
        &self.corr
    }

    /// The correspondence alone.
    pub fn into_corr(self) -> Corr
        ensures corr { result ≡ self.entry.corr }
        ensures checked { IsChecked self.entry }
    {
        self.corr
    }
}

/// A correspondence that isn't self-generating, and where it fails first.
#[derive(Drop)]
pub struct Refused {
    pub fault: CorrFault,
    pub corr: Corr,
}

/// Tests whether a correspondence is self-generating. It is kept unchanged in both answers. No memory is taken.
///
/// # Errors
///
/// The first entry that isn't generated, and the first part of it that is broken, in the order of `Why`.
pub fn check<'g>(game: &'g Game, corr: Corr) -> Result<Checked<'g>, Refused>
    requires { KeepsLimits game.now corr }
    ensures self_generating { IsOk result ↔ IsSelfGenerating game.now (correspondence_of game.now corr) }
    ensures kept { IfOk result (λ k. k ≡ record { game = game.now; corr = corr }) }
    ensures fault { IfErr result (λ r. IsFirstFault game.now (correspondence_of game.now corr) r.fault) }
    ensures back { IfErr result (λ r. r.corr ≡ corr) }
{
    match first_fault(game, &corr) {
        Some(fault) => Err(Refused { fault, corr }),
        None => Ok(Checked { game, corr }),
    }
}

/// The first entry that isn't generated.
fn first_fault(game: &Game, corr: &Corr) -> Option<CorrFault>
    requires { KeepsLimits game.now corr.now }
    ensures none { IfNone result ((s : ℕ) → s < states game.now → AreGenerated game.now (correspondence_of game.now corr.now) s (length (entries_of (correspondence_of game.now corr.now) s))) }
    ensures some { IfSome result (IsFirstFault game.now (correspondence_of game.now corr.now)) }
{
    let scale = scale_of(game, corr);
    for s in 0..game.states() {
        match first_fault_in(game, corr, scale, s) {
            Some(fault) => return Some(fault),
            None => {}
        }
    }
    None
}

/// The first entry of a state that isn't generated.
fn first_fault_in(game: &Game, corr: &Corr, scale: i64, s: u32) -> Option<CorrFault>
    requires limits { KeepsLimits game.now corr.now }
    requires scale { scale ≡ pos (scale_of game.now corr.now) }
    requires state { s < states game.now }
    ensures none { IfNone result (AreGenerated game.now (correspondence_of game.now corr.now) s (length (entries_of (correspondence_of game.now corr.now) s))) }
    ensures state { IfSome result (λ f. f.state ≡ s) }
    ensures entry { IfSome result (λ f. f.entry < length (entries_of (correspondence_of game.now corr.now) s)) }
    ensures broken { IfSome result (λ f. IsFirstBroken game.now (correspondence_of game.now corr.now) s (entry_at (correspondence_of game.now corr.now) s f.entry) f.why) }
    ensures before { IfSome result (λ f. AreGenerated game.now (correspondence_of game.now corr.now) s f.entry) }
{
    for k in 0..corr.entries(s).len() {
        match first_broken(game, corr, scale, s, corr.entry(s, k)) {
            Some(why) => return Some(CorrFault {
                state: s,
                entry: k,
                why,
            }),
            None => {}
        }
    }
    None
}

/// The first part that an entry breaks.
fn first_broken(game: &Game, corr: &Corr, scale: i64, s: u32, entry: &Entry) -> Option<Why>
    requires limits { KeepsLimits game.now corr.now }
    requires scale { scale ≡ pos (scale_of game.now corr.now) }
    requires state { s < states game.now }
    requires small { IsSmallEntry game.now entry.now }
    ensures none { IfNone result (IsGenerated game.now (correspondence_of game.now corr.now) s entry.now) }
    ensures some { IfSome result (IsFirstBroken game.now (correspondence_of game.now corr.now) s entry.now) }
{
    let _players = game.players();
    if !is_profile(game, s, entry.profile()) {
        return Some(Why::Profile);
    }
    let profile = number_of(game, s, entry.profile());
    let claim = Claim {
        game,
        corr,
        scale,
        state: s,
        entry,
        profile,
    };
    claim.first_broken()
}
