ghost use Rattle.std.specs.Prelude.{◌≡◌, ℕ, ◌<◌, ◌↔◌, length, IsTrue, slice_index, slice_index_or};
ghost use Rattle.game_model.specs.Game.{states};
ghost use Rattle.game_model.specs.SelfGeneration.{entries_of, entry_at};
ghost use Rattle.selfgen_check.specs.Promises.{correspondence_of};
ghost use Rattle.deviation_laws.specs.Plans.{Fits};
ghost use Rattle.deviation_laws.specs.Lists.{FitInTurn};

use crate::following::{outcomes_after, state_after};
use crate::plan::DevPlan;
use selfgen_check::{Checked, Lottery};

/// Whether a plan of a player fits at an entry: each strategy is in range, and there is one plan for each entry that may
/// follow, which fits there.
#[cycle(fitting)]
pub fn fits(set: &Checked, player: u32, state: u32, entry: u32, plan: &DevPlan) -> bool
    requires player { player < set.now.game.players }
    requires state { state < states set.now.game }
    requires entry { entry < length (entries_of (correspondence_of set.now.game set.now.corr) state) }
    ensures { IsTrue result ↔ Fits set.now.game (correspondence_of set.now.game set.now.corr) player state entry plan.now }
{
    match plan {
        DevPlan::Stop => true,
        DevPlan::Play { strategy, plans } => {
            if *strategy >= set.game().strategies(state, player) {
                return false;
            }
            let next = state_after(set, player, state, entry, *strategy);
            let outcomes = outcomes_after(set, player, state, entry, *strategy);
            fit_in_turn(set, player, next, &outcomes, plans)
        }
    }
}

/// Whether there is one plan for each outcome, which fits there.
#[cycle(fitting)]
fn fit_in_turn(set: &Checked, player: u32, next: u32, outcomes: &Lottery, plans: &[DevPlan]) -> bool
    requires player { player < set.now.game.players }
    requires next { next < states set.now.game }
    requires known { (j : ℕ) → j < length outcomes.now → (slice_index_or outcomes.now j (0, 0)).0 < length (entries_of (correspondence_of set.now.game set.now.corr) next) }
    ensures { IsTrue result ↔ FitInTurn set.now.game (correspondence_of set.now.game set.now.corr) player next outcomes.now plans.now }
{
    if plans.len() != outcomes.len() as usize {
        return false;
    }
    for j in 0..plans.len() {
        if !fits(set, player, next, outcomes.entry(j as u32), &plans[j]) {
            return false;
        }
    }
    true
}
