ghost use Rattle.selfgen_check.specs.Limits.{KeepsLimits};

use super::*;
use game_model::worked::dilemma;
use game_model::{Game, List};
use std::alloc::{AllocError, Global};
use std::test::Fail;

/// A second entry beside defection for ever, and what is wrong. Parts are in units of 1/1000.
#[derive(Clone, Copy)]
struct Case {
    name: &'static str,
    point: [i64; 3],
    profile: [u32; 2],
    lottery: &'static [(u32, i128)],
    punish: &'static [u32],
    wrong: Option<Why>,
}

/// Both cooperate, until one deviates.
const HOLDS: Case = Case {
    name: "cooperation",
    point: [2000, 2000, 0],
    profile: [0, 0],
    lottery: &[(1, 1)],
    punish: &[0, 0],
    wrong: None,
};

const CASES: [Case; 18] = [
    HOLDS,
    Case {
        name: "weights that have a common divisor, one of them 0",
        lottery: &[(1, 3), (0, 0), (1, 6)],
        ..HOLDS
    },
    Case {
        name: "the largest weights",
        lottery: &[(1, 1 << 83), (1, 1 << 83), (1, 1 << 83), (1, 1 << 83)],
        ..HOLDS
    },
    Case {
        name: "a third strategy",
        profile: [0, 2],
        wrong: Some(Why::Profile),
        ..HOLDS
    },
    Case {
        name: "a third strategy, and a third entry",
        profile: [2, 0],
        lottery: &[(2, 1)],
        wrong: Some(Why::Profile),
        ..HOLDS
    },
    Case {
        name: "a third entry",
        lottery: &[(2, 1)],
        wrong: Some(Why::Lottery),
        ..HOLDS
    },
    Case {
        name: "a third entry with weight 0",
        lottery: &[(1, 1), (2, 0)],
        wrong: Some(Why::Lottery),
        ..HOLDS
    },
    Case {
        name: "no outcome",
        lottery: &[],
        wrong: Some(Why::Weights),
        ..HOLDS
    },
    Case {
        name: "no weight, and no punishment",
        lottery: &[(1, 0)],
        punish: &[],
        wrong: Some(Why::Weights),
        ..HOLDS
    },
    Case {
        name: "one punishment",
        punish: &[0],
        wrong: Some(Why::Punish),
        ..HOLDS
    },
    Case {
        name: "three punishments",
        punish: &[0, 0, 0],
        wrong: Some(Why::Punish),
        ..HOLDS
    },
    Case {
        name: "a third entry as the last punishment, and another part",
        point: [2001, 2000, 0],
        punish: &[0, 2],
        wrong: Some(Why::Punish),
        ..HOLDS
    },
    Case {
        name: "a thousandth more for player 0",
        point: [2001, 2000, 0],
        wrong: Some(Why::Point { player: 0 }),
        ..HOLDS
    },
    Case {
        name: "a thousandth less for player 1, who gains",
        point: [2000, 1999, 0],
        punish: &[0, 1],
        wrong: Some(Why::Point { player: 1 }),
        ..HOLDS
    },
    Case {
        name: "player 0 is rewarded",
        punish: &[1, 0],
        wrong: Some(Why::Gain {
            player: 0,
            strategy: 1,
        }),
        ..HOLDS
    },
    Case {
        name: "player 1 is rewarded",
        punish: &[0, 1],
        wrong: Some(Why::Gain {
            player: 1,
            strategy: 1,
        }),
        ..HOLDS
    },
    Case {
        name: "both are rewarded",
        punish: &[1, 1],
        wrong: Some(Why::Gain {
            player: 0,
            strategy: 1,
        }),
        ..HOLDS
    },
    Case {
        name: "player 1 defects alone, and player 0 does better by defecting",
        point: [500, 2000, 0],
        profile: [0, 1],
        lottery: &[(0, 1)],
        punish: &[0, 0],
        wrong: Some(Why::Gain {
            player: 0,
            strategy: 1,
        }),
    },
];

fn lottery_of(outcomes: &[(u32, i128)]) -> Lottery {
    let mut lottery = Lottery::new();
    for (entry, weight) in outcomes {
        if lottery.len() < 4 && 0 <= *weight && *weight <= 1 << 83 {
            lottery.push(*entry, *weight);
        }
    }
    lottery
}

fn numbers_of(alloc: Global, numbers: &[u32]) -> Result<List<u32>, AllocError> {
    let mut list = List::new(alloc);
    for number in numbers {
        if list.len() < 100 {
            list.push(*number)?;
        }
    }
    Ok(list)
}

fn entry_of(
    alloc: Global,
    point: [i64; 3],
    profile: [u32; 2],
    lottery: &[(u32, i128)],
    punish: &[u32],
) -> Result<Entry, AllocError> {
    let mut strategies = List::new(alloc);
    strategies.push(profile[0])?;
    strategies.push(profile[1])?;
    let punish = numbers_of(alloc, punish)?;
    Ok(Entry::new(point, strategies, lottery_of(lottery), punish))
}

fn corr_of(alloc: Global, case: &Case) -> Result<Corr, AllocError> {
    let mut entries = List::new(alloc);
    entries.push(entry_of(alloc, [1000, 1000, 0], [1, 1], &[(0, 1)], &[0, 0])?)?;
    entries.push(entry_of(alloc, case.point, case.profile, case.lottery, case.punish)?)?;
    let mut states = List::new(alloc);
    states.push(entries)?;
    Ok(Corr::new(1000, states))
}

/// What the check says, and the correspondence.
fn fault_of(game: &Game, corr: Corr) -> (Option<CorrFault>, Corr)
    requires { KeepsLimits game.now corr }
{
    match check(game, corr) {
        Ok(set) => (None, set.into_corr()),
        Err(refused) => (Some(refused.fault), refused.corr),
    }
}

#[test]
fn each_way_to_fail_is_found(rt: HostRuntime) -> Result<(), Fail> {
    let game = Game::build(dilemma(rt.alloc())?)
        .ok()
        .ok_or("the parts fit")?;
    for case in CASES {
        let corr = corr_of(rt.alloc(), &case)?;
        assert!(rt; keeps_limits(&game, &corr), "{}", case.name);
        let (fault, corr) = fault_of(&game, corr);
        let wanted = case.wrong.map(|why| CorrFault {
            state: 0,
            entry: 1,
            why,
        });
        assert_eq!(rt; fault, wanted, "{}", case.name);
        assert_eq!(rt; corr.common(), 1000);
    }
    Ok(())
}
