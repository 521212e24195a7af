use super::*;
use game_model::worked::dilemma;
use game_model::{Game, List};
use pay_frac::Frac;
use selfgen_check::{Checked, Corr, Entry, Lottery, check, keeps_limits};
use std::alloc::{AllocError, Global};
use std::test::Fail;

/// Both play `strategy` for ever, which `entry` promises, and are punished by entry 0.
fn same_again(alloc: Global, strategy: u32, entry: u32, part: i64) -> Result<Entry, AllocError> {
    let mut profile = List::new(alloc);
    profile.push(strategy)?;
    profile.push(strategy)?;
    let mut lottery = Lottery::new();
    lottery.push(entry, 1);
    let mut punish = List::new(alloc);
    punish.push(0)?;
    punish.push(0)?;
    Ok(Entry::new([part, part, 0], profile, lottery, punish))
}

/// Defection for ever, and cooperation under the threat of it.
fn threat(alloc: Global) -> Result<Corr, AllocError> {
    let mut entries = List::new(alloc);
    entries.push(same_again(alloc, 1, 0, 1)?)?;
    entries.push(same_again(alloc, 0, 1, 2)?)?;
    let mut states = List::new(alloc);
    states.push(entries)?;
    Ok(Corr::new(1, states))
}

fn then(alloc: Global, strategy: u32, plan: DevPlan) -> Result<DevPlan, AllocError> {
    Ok(DevPlan::Play {
        strategy,
        plans: vec![in alloc; plan]?,
    })
}

/// What the plan gains, where it fits.
fn gain_at_cooperation(set: &Checked, plan: &DevPlan) -> Option<Result<Frac, GainBeyond>> {
    let game = set.game();
    let corr = set.corr();
    if game.players() == 0 || game.states() == 0 || corr.states() == 0 {
        return None;
    }
    if corr.entries(0).len() > 1 && fits(set, 0, 0, 1, plan) && plays_at_most(plan, u32::MAX) {
        Some(gain(set, 0, 0, 1, plan))
    } else {
        None
    }
}

/// The same, where the game and the correspondence fit.
fn answer(game: &Game, corr: Corr, plan: &DevPlan) -> Option<Result<Frac, GainBeyond>> {
    if !keeps_limits(game, &corr) {
        return None;
    }
    match check(game, corr) {
        Ok(set) => gain_at_cooperation(&set, plan),
        Err(_) => None,
    }
}

/// Periods of cooperation under punishment, after a deviation: each halves what follows.
fn meek(alloc: Global, periods: u32) -> Result<DevPlan, AllocError> {
    let mut plan = DevPlan::Stop;
    for _ in 0..periods {
        plan = then(alloc, 0, plan)?;
    }
    then(alloc, 1, plan)
}

type Wanted = Option<Result<Frac, GainBeyond>>;

fn plans(alloc: Global) -> Result<[(DevPlan, Wanted); 9], AllocError> {
    let nothing = Some(Ok(Frac::of(0, 1)));
    let twice = vec![in alloc; DevPlan::Stop, DevPlan::Stop]?;
    let back = then(alloc, 0, then(alloc, 1, DevPlan::Stop)?)?;
    Ok([
        (DevPlan::Stop, nothing),
        (then(alloc, 0, DevPlan::Stop)?, nothing),
        (then(alloc, 1, DevPlan::Stop)?, nothing),
        (then(alloc, 2, DevPlan::Stop)?, None),
        (
            DevPlan::Play {
                strategy: 0,
                plans: twice,
            },
            None,
        ),
        (then(alloc, 1, back)?, Some(Ok(Frac::of(-1, 4)))),
        (then(alloc, 1, then(alloc, 2, DevPlan::Stop)?)?, None),
        (meek(alloc, 2)?, Some(Ok(Frac::of(-3, 8)))),
        (meek(alloc, 69)?, Some(Err(GainBeyond { depth: 7 }))),
    ])
}

#[test]
fn plans_fit_and_gain(rt: HostRuntime) -> Result<(), Fail> {
    let game = Game::build(dilemma(rt.alloc())?)
        .ok()
        .ok_or("the parts fit")?;
    for (plan, wanted) in &plans(rt.alloc())? {
        let corr = threat(rt.alloc())?;
        assert_eq!(rt; answer(&game, corr, plan), *wanted);
    }
    Ok(())
}
