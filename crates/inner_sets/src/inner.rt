ghost use Rattle.std.specs.Prelude.{◌≡◌, ◌<◌, ◌≤◌, pos, ◌*ℤ◌, IfOk};
ghost use Rattle.game_model.specs.Game.{states};
ghost use Rattle.inner_sets.specs.Built.{AllBuilt, AreBuilt, IsReady};
ghost use Rattle.inner_sets.specs.Inner.{IsInnerSet};
ghost use Rattle.inner_sets.specs.Rows.{AreSettled, choice_of, row_at};
ghost use Rattle.inner_sets.specs.Summaries.{AreSummaries};

use crate::entries::entry_of;
use crate::row::Row;
use crate::settle::settle;
use crate::summary::{Summary, summaries_of};
use crate::trial::Trial;
use game_model::{Game, List};
use selfgen_check::{Checked, Corr, Entry, check};
use std::alloc::{AllocError, Global};
use std::thread::Threads;

/// The inner set of a game at `n`: the largest choice of candidates, a list for each state, in which each point has a
/// profile such that what the point leaves to those that follow is an average of the next state's points, and no
/// deviation gains where the least point of the state that it reaches follows (self-generation as of Abreu, Pearce and
/// Stacchetti 1990, with punishments as of Yeltekin, Cai and Judd 2017). The common denominator is `denominator*n`. Each
/// entry has the first such profile, and for each deviation the first least point. It has passed the check.
pub fn largest<'g, R: Threads + Sync>(
    rt: &R,
    alloc: Global,
    game: &'g Game,
    n: u32,
) -> Result<Checked<'g>, AllocError>
    requires players { game.now.players ≡ 2 }
    requires n_positive { 1 ≤ n }
    requires n_small { n ≤ 16 }
    ensures game { IfOk result (λ set. set.game ≡ game.now) }
    ensures inner { IfOk result (λ set. IsInnerSet game.now n set.corr) }
{
    let corr = correspondence(rt, alloc, game, n)?;
    match check(game, corr) {
        Ok(set) => Ok(set),
        Err(_) => unreachable!(),
    }
}

/// The same before the check.
fn correspondence<R: Threads + Sync>(
    rt: &R,
    alloc: Global,
    game: &Game,
    n: u32,
) -> Result<Corr, AllocError>
    requires players { game.now.players ≡ 2 }
    requires n_positive { 1 ≤ n }
    requires n_small { n ≤ 16 }
    ensures { IfOk result (IsReady game.now n) }
{
    let _players = game.players();
    let rows = settle(rt, alloc, game, n)?;
    let summaries = summaries_of(alloc, game, &rows)?;
    let entries = all_entries(alloc, game, n, &summaries, &rows)?;
    Ok(Corr::new(common(game, n), entries))
}

/// The common denominator.
fn common(game: &Game, n: u32) -> i64
    requires n_positive { 1 ≤ n }
    requires n_small { n ≤ 16 }
    ensures { result ≡ game.now.denominator *ℤ pos n }
{
    let _players = game.players();
    game.denominator() * i64::from(n)
}

/// The entries of all points of settled rows.
fn all_entries(
    alloc: Global,
    game: &Game,
    n: u32,
    summaries: &[Summary],
    rows: &[Row],
) -> Result<List<List<Entry>>, AllocError>
    requires players { game.now.players ≡ 2 }
    requires n { n ≤ 16 }
    requires settled { AreSettled game.now n rows.now }
    requires summaries { AreSummaries game.now (choice_of rows.now) summaries.now }
    ensures { IfOk result (AllBuilt game.now n summaries.now rows.now) }
{
    let mut entries = List::new(alloc);
    for s in 0..game.states() {
        entries.push(entries_of(alloc, game, n, summaries, rows, s)?)?;
    }
    Ok(entries)
}

/// The entries of a state.
fn entries_of(
    alloc: Global,
    game: &Game,
    n: u32,
    summaries: &[Summary],
    rows: &[Row],
    s: u32,
) -> Result<List<Entry>, AllocError>
    requires players { game.now.players ≡ 2 }
    requires n { n ≤ 16 }
    requires settled { AreSettled game.now n rows.now }
    requires summaries { AreSummaries game.now (choice_of rows.now) summaries.now }
    requires state { s < states game.now }
    ensures { IfOk result (AreBuilt game.now n summaries.now s (row_at rows.now s)) }
{
    let _players = game.players();
    let row = &rows[s as usize];
    let mut entries = List::new(alloc);
    for k in 0..row.len() {
        let item = row.item(k);
        let trial = Trial {
            game,
            n,
            summaries,
            state: s,
            profile: item.profile,
        };
        entries.push(entry_of(alloc, &trial, item.point)?)?;
    }
    Ok(entries)
}
