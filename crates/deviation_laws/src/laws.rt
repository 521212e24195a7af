ghost use Rattle.std.specs.Prelude.{◌<◌, length, pos, ◌*ℤ◌, ◌≤ℤ◌, ◌<ℤ◌};
ghost use Rattle.game_model.specs.Game.{states};
ghost use Rattle.game_model.specs.SelfGeneration.{entries_of, entry_at, part};
ghost use Rattle.selfgen_check.specs.Promises.{correspondence_of};
ghost use Rattle.deviation_laws.specs.Plans.{Fits, NoPlanGains, worth};

use crate::plan::DevPlan;
use selfgen_check::Checked;

/// A law: under a self-generating correspondence no plan of finitely many deviations gains. Its worth is at most the
/// player's part of the entry at which it begins (the one-shot deviation principle, for plans that end).
pub fn no_gain(set: &Checked, player: u32, state: u32, entry: u32, plan: &DevPlan)
    requires player { player < set.now.game.players }
    requires state { state < states set.now.game }
    requires entry { entry < length (entries_of (correspondence_of set.now.game set.now.corr) state) }
    requires fits { Fits set.now.game (correspondence_of set.now.game set.now.corr) player state entry plan.now }
    ensures positive { pos 0 <ℤ (worth set.now.game (correspondence_of set.now.game set.now.corr) player state entry plan.now).den }
    ensures at_most { (worth set.now.game (correspondence_of set.now.game set.now.corr) player state entry plan.now).num
        ≤ℤ (part (entry_at (correspondence_of set.now.game set.now.corr) state entry).point player *ℤ (worth set.now.game (correspondence_of set.now.game set.now.corr) player state entry plan.now).den) }
{
    let game = set.game();
    let _players = game.players();
}

/// A law: the same of all plans of all players at all entries.
pub fn no_plan_gains(set: &Checked)
    ensures { NoPlanGains set.now.game (correspondence_of set.now.game set.now.corr) }
{
    let game = set.game();
    let _players = game.players();
}
