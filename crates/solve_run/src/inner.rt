//! The inner sets of a report.

ghost use Rattle.std.specs.Prelude.{◌≡◌, ℕ, ◌<◌, ◌≤◌, [], length, slice_index_or, IfOk};
ghost use Rattle.game_model.specs.Game.{IsProfile, counts, states};
ghost use Rattle.game_model.specs.SelfGeneration.{no_entry};
ghost use Rattle.solve_run.specs.Inner.{AreNumbers, AreNumbersOf, IsInnerShown};

use deviation_laws::no_plan_gains;
use game_model::{Game, List};
use inner_sets::largest;
use selfgen_check::{Checked, Corr, number_of};
use std::alloc::{AllocError, Global};
use std::thread::Threads;

/// Inner sets, with the numbers of the profiles that their entries play.
#[derive(Drop)]
pub struct Inner {
    pub sets: Option<Corr>,
    pub numbers: List<List<u32>>,
}

/// The inner sets at `n`, and none at 0.
pub(crate) fn inner_of<R: Threads + Sync>(
    rt: &R,
    alloc: Global,
    game: &Game,
    n: u32,
) -> Result<Inner, AllocError>
    requires players { game.now.players ≡ 2 }
    requires n { n ≤ 16 }
    ensures { IfOk result (λ i. IsInnerShown game.now n i.sets i.numbers) }
{
    if n == 0 {
        return Ok(Inner {
            sets: None,
            numbers: List::new(alloc),
        });
    }
    some_inner(rt, alloc, game, n)
}

/// The inner sets at `n`.
fn some_inner<R: Threads + Sync>(
    rt: &R,
    alloc: Global,
    game: &Game,
    n: u32,
) -> Result<Inner, AllocError>
    requires players { game.now.players ≡ 2 }
    requires n_positive { 1 ≤ n }
    requires n { n ≤ 16 }
    ensures { IfOk result (λ i. IsInnerShown game.now n i.sets i.numbers) }
{
    let set = largest(rt, alloc, game, n)?;
    no_plan_gains(&set);
    let numbers = numbers_of(alloc, &set)?;
    Ok(Inner {
        sets: Some(set.into_corr()),
        numbers,
    })
}

/// The numbers of the profiles that the entries play.
fn numbers_of(alloc: Global, set: &Checked) -> Result<List<List<u32>>, AllocError>
    ensures { IfOk result (AreNumbers set.now.game set.now.corr) }
{
    let game = set.game();
    let mut lists = List::new(alloc);
    for s in 0..game.states() {
        lists.push(numbers_in(alloc, game, set.corr(), s)?)?;
    }
    Ok(lists)
}

/// The same for the entries of a state.
fn numbers_in(alloc: Global, game: &Game, corr: &Corr, s: u32) -> Result<List<u32>, AllocError>
    requires state { s < states game.now }
    requires lists { s < length corr.now.entries }
    requires profiles { (k : ℕ) → k < length (slice_index_or corr.now.entries s []) → IsProfile (counts game.now s) (slice_index_or (slice_index_or corr.now.entries s []) k no_entry).profile }
    ensures { IfOk result (AreNumbersOf game.now s (slice_index_or corr.now.entries s [])) }
{
    let mut numbers = List::new(alloc);
    for k in 0..corr.entries(s).len() {
        numbers.push(number_of(game, s, corr.entry(s, k).profile()))?;
    }
    Ok(numbers)
}
