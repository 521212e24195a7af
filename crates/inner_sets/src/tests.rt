ghost use Rattle.std.specs.Prelude.{◌≡◌, IfOk};
ghost use Rattle.game_model.specs.Parts.{shape_of};
ghost use Rattle.game_model.specs.Worked.{prisoners};

use super::*;
use game_model::{Game, GameParts, List};
use selfgen_check::{Corr, Entry, Lottery};
use std::alloc::{AllocError, Global};
use std::test::Fail;

/// An entry of the only state.
#[derive(Clone, Copy)]
struct Wanted {
    point: [i64; 2],
    profile: [u32; 2],
    lottery: &'static [(u32, i128)],
    punish: [u32; 2],
}

/// Both defect for ever.
const DEFECTION: Wanted = Wanted {
    point: [1, 1],
    profile: [1, 1],
    lottery: &[(0, 1)],
    punish: [0, 0],
};

/// Both cooperate until one deviates, and then they defect.
const COOPERATION: Wanted = Wanted {
    point: [2, 2],
    profile: [0, 0],
    lottery: &[(1, 1)],
    punish: [0, 0],
};

const CANDIDATES: [[i64; 2]; 6] = [[0, 0], [0, 3], [1, 1], [2, 2], [3, 0], [3, 3]];

/// The prisoner's dilemma at a discount factor.
fn dilemma(alloc: Global, p: u32, q: u32) -> Result<GameParts, AllocError>
    ensures { IfOk result (λ parts. shape_of parts ≡ record (prisoners p q) { base = 1 }) }
{
    let sizes = vec![in alloc; 2, 2]?;
    let payoffs = vec![in alloc; 2, 2, 3, 0, 0, 3, 1, 1]?;
    let next = vec![in alloc; 0, 0, 0, 0]?;
    Ok(GameParts {
        players: 2,
        strategies: vec![in alloc; sizes]?,
        payoffs: vec![in alloc; payoffs]?,
        next: vec![in alloc; next]?,
        denominator: 1,
        discounts: vec![in alloc; p, p]?,
        q,
    })
}

/// Whether the lottery has these outcomes with these weights.
fn is_lottery(lottery: &Lottery, wanted: &[(u32, i128)]) -> bool {
    if lottery.len() as usize != wanted.len() {
        return false;
    }
    for i in 0..lottery.len() {
        if (lottery.entry(i), lottery.weight(i)) != wanted[i as usize] {
            return false;
        }
    }
    true
}

/// Whether the list has these two numbers.
fn are_numbers(list: &List<u32>, wanted: [u32; 2]) -> bool {
    list.len() == 2 && *list.get(0) == wanted[0] && *list.get(1) == wanted[1]
}

fn is_point(entry: &Entry, wanted: [i64; 2]) -> bool {
    entry.profile().len() == 2 && entry.part(0) == wanted[0] && entry.part(1) == wanted[1]
}

fn is_entry(entry: &Entry, wanted: &Wanted) -> bool {
    is_point(entry, wanted.point)
        && are_numbers(entry.profile(), wanted.profile)
        && are_numbers(entry.punish(), wanted.punish)
        && is_lottery(entry.lottery(), wanted.lottery)
}

/// Whether these are the entries of the only state.
fn are_entries(corr: &Corr, wanted: &[Wanted]) -> bool {
    if corr.states() != 1 || corr.entries(0).len() as usize != wanted.len() {
        return false;
    }
    for k in 0..corr.entries(0).len() {
        if !is_entry(corr.entry(0, k), &wanted[k as usize]) {
            return false;
        }
    }
    true
}

#[test]
fn cooperation_needs_patience(rt: HostRuntime) -> Result<(), Fail> {
    let patient = Game::build(dilemma(rt.alloc(), 1, 2)?)
        .ok()
        .ok_or("the parts fit")?;
    let impatient = Game::build(dilemma(rt.alloc(), 49, 100)?)
        .ok()
        .ok_or("the parts fit")?;
    assert_eq!(rt; patient.players(), 2);
    assert_eq!(rt; impatient.players(), 2);
    assert_eq!(rt; patient.states(), 1);
    let points = candidates(rt.alloc(), &patient, 1, 0)?;
    assert_eq!(rt; points.len(), 6);
    for k in 0..6 {
        assert_eq!(rt; *points.get(k), CANDIDATES[k as usize]);
    }
    let set = largest(&rt, rt.alloc(), &patient, 1)?;
    assert_eq!(rt; set.corr().common(), 1);
    assert!(rt; are_entries(set.corr(), &[DEFECTION, COOPERATION]));
    let set = largest(&rt, rt.alloc(), &impatient, 1)?;
    assert!(rt; are_entries(set.corr(), &[DEFECTION]));
    Ok(())
}
