//! The entries of points.

ghost use Rattle.std.specs.Prelude.{◌≡◌, ℕ, ◌^◌, ◌<◌, ◌≤◌, pos, ◌<ℤ◌, length, slice_index, take, unsigned_abs, All, IfOk, OnOk};
ghost use Rattle.game_model.specs.Game.{counts, strategies_of, successor};
ghost use Rattle.game_model.specs.SelfGeneration.{part};
ghost use Rattle.inner_sets.specs.Built.{AddsPunishments, ArePunishments, IsBuilt, IsLotteryOf, outcomes_of};
ghost use Rattle.inner_sets.specs.Choice.{remainder};
ghost use Rattle.inner_sets.specs.Summaries.{Continues, summary_at};
ghost use Rattle.inner_sets.specs.Trials.{IsTrial};

use crate::trial::Trial;
use game_model::List;
use hull_weights::HullWeights;
use selfgen_check::{Entry, Lottery};
use std::alloc::{AllocError, Global};

/// The entry of a point at the profile of the trial.
pub(crate) fn entry_of(alloc: Global, trial: &Trial, point: [i64; 2]) -> Result<Entry, AllocError>
    requires trial { IsTrial trial.now }
    requires small { (i : ℕ) → i < 2 → unsigned_abs (part point i) ≤ 2 ^ 30 }
    requires continues { Continues trial.now.game.now trial.now.n trial.now.summaries.now trial.now.state trial.now.profile point }
    ensures { IfOk result (IsBuilt trial.now.game.now trial.now.n trial.now.summaries.now trial.now.state trial.now.profile point) }
{
    let profile = strategies(alloc, trial)?;
    let lottery = lottery_at(trial, point);
    let punish = punishments(alloc, trial)?;
    Ok(Entry::new(padded(point), profile, lottery, punish))
}

/// The point with a third part.
fn padded(point: [i64; 2]) -> [i64; 3]
    ensures { take 2 result ≡ point }
{
    [point[0], point[1], 0]
}

/// The strategies of the profile.
fn strategies(alloc: Global, trial: &Trial) -> Result<List<u32>, AllocError>
    requires { IsTrial trial.now }
    ensures { IfOk result (λ list. list ≡ strategies_of (counts trial.now.game.now trial.now.state) trial.now.profile) }
{
    let mut profile = List::new(alloc);
    profile.push(trial.strategy(0))?;
    profile.push(trial.strategy(1))?;
    Ok(profile)
}

/// The average of what follows, as a lottery.
fn lottery_at(trial: &Trial, point: [i64; 2]) -> Lottery
    requires trial { IsTrial trial.now }
    requires small { (i : ℕ) → i < 2 → unsigned_abs (part point i) ≤ 2 ^ 30 }
    requires continues { Continues trial.now.game.now trial.now.n trial.now.summaries.now trial.now.state trial.now.profile point }
    ensures { IsLotteryOf (summary_at trial.now.summaries.now (successor trial.now.game.now trial.now.state trial.now.profile)).points (remainder trial.now.game.now trial.now.n trial.now.state trial.now.profile point) result }
{
    match trial.continuation(point) {
        Some(weights) => lottery_of(&weights),
        None => unreachable!(),
    }
}

/// Places with their weights, as a lottery.
fn lottery_of(weights: &HullWeights) -> Lottery
    requires few { length weights.now ≤ 3 }
    requires positive { All (λ item. pos 0 <ℤ item.1) weights.now }
    requires small { All (λ item. unsigned_abs item.1 ≤ 2 ^ 83) weights.now }
    ensures { result ≡ outcomes_of weights.now }
{
    let mut lottery = Lottery::new();
    for k in 0..weights.len() {
        let (place, weight) = *weights.get(k);
        lottery.push(place, weight);
    }
    lottery
}

/// For each deviation, by player and then by strategy, the place of the first least point.
fn punishments(alloc: Global, trial: &Trial) -> Result<List<u32>, AllocError>
    requires { IsTrial trial.now }
    ensures { IfOk result (ArePunishments trial.now.game.now trial.now.summaries.now trial.now.state trial.now.profile) }
{
    let mut punish = List::new(alloc);
    push_punishments(&mut punish, trial, 0)?;
    push_punishments(&mut punish, trial, 1)?;
    Ok(punish)
}

/// The same of one player's deviations.
fn push_punishments(punish: &mut List<u32>, trial: &Trial, i: u32) -> Result<(), AllocError>
    requires trial { IsTrial trial.now }
    requires player { i < 2 }
    requires few { length punish.old ≤ 16 }
    ensures { OnOk result (AddsPunishments trial.now.game.now trial.now.summaries.now trial.now.state trial.now.profile i (slice_index (counts trial.now.game.now trial.now.state) i) punish.old punish.new) }
{
    let own = trial.strategy(i);
    for b in 0..trial.strategies(i) {
        if b != own {
            punish.push(trial.first_least(i, b))?;
        }
    }
    Ok(())
}
