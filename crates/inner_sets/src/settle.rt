ghost use Rattle.std.specs.Prelude.{◌≡◌, ◌<◌, ◌≤◌, false, length, slice_index_or, sum_by, IfOk, OnOk};
ghost use Rattle.game_model.specs.Game.{states};
ghost use Rattle.inner_sets.specs.Rounds.{AreAllSet, AreMarked, IsUnmoved};
ghost use Rattle.inner_sets.specs.Rows.{AreHeld, AreOpen, AreRefined, AreSettled, IsHeld, IsRefined, choice_of};
ghost use Rattle.inner_sets.specs.Summaries.{AreSummaries};

use crate::lattice::candidates;
use crate::row::Row;
use crate::summary::{Summary, has_lost, renew, summaries_of};
use game_model::Game;
use rayon::prelude::*;
use std::alloc::{AllocError, Global};
use std::thread::Threads;

/// The largest choice of candidates in which each point is given by its first profile.
pub(crate) fn settle<R: Threads + Sync>(
    rt: &R,
    alloc: Global,
    game: &Game,
    n: u32,
) -> Result<Vec<Row>, AllocError>
    requires players { game.now.players ≡ 2 }
    requires n_positive { 1 ≤ n }
    requires n_small { n ≤ 16 }
    ensures { IfOk result (λ rows. AreSettled game.now n rows.items) }
{
    let _players = game.players();
    let mut rows = all_rows(alloc, game, n)?;
    let mut summaries = summaries_of(alloc, game, &rows)?;
    let mut stale = all_stale(alloc, game)?;
    take_away(rt, alloc, game, n, &mut rows, &mut summaries, &mut stale)?;
    Ok(rows)
}

/// Rounds until none takes a point away. A round passes over the states whose flag isn't set: their points are given still.
fn take_away<R: Threads + Sync>(
    rt: &R,
    alloc: Global,
    game: &Game,
    n: u32,
    rows: &mut [Row],
    summaries: &mut [Summary],
    stale: &mut [bool],
) -> Result<(), AllocError>
    requires players { game.now.players ≡ 2 }
    requires n { n ≤ 16 }
    requires candidates { AreOpen game.now n rows.old }
    requires summaries { AreSummaries game.now (choice_of rows.old) summaries.old }
    requires held { AreHeld game.now n summaries.old stale.old rows.old }
    ensures { OnOk result (AreSettled game.now n rows.new) }
{
    let _players = game.players();
    let mut left = points_left(rows);
    'rounds: loop {
        refine(rt, game, n, summaries, stale, rows);
        let now = points_left(rows);
        if now == left {
            return Ok(());
        }
        left = now;
        mark(game, rows, summaries, stale);
        renew(alloc, game, rows, summaries)?;
    }
}

/// A flag for each state, all set.
fn all_stale(alloc: Global, game: &Game) -> Result<Vec<bool>, AllocError>
    ensures { IfOk result (λ flags. AreAllSet game.now flags.items) }
{
    let mut flags = Vec::new(alloc);
    for _s in 0..game.states() {
        flags.push(true)?;
    }
    Ok(flags)
}

/// A row of all candidates for each state.
fn all_rows(alloc: Global, game: &Game, n: u32) -> Result<Vec<Row>, AllocError>
    requires players { game.now.players ≡ 2 }
    requires n_positive { 1 ≤ n }
    requires n_small { n ≤ 16 }
    ensures { IfOk result (λ rows. AreOpen game.now n rows.items) }
{
    let _players = game.players();
    let mut rows = Vec::with_capacity(alloc, game.states() as usize)?;
    for s in 0..game.states() {
        let points = candidates(alloc, game, n, s)?;
        rows.push(Row::of(alloc, &points)?)?;
    }
    Ok(rows)
}

/// How many points are left in all states.
fn points_left(rows: &[Row]) -> u64
    requires { length rows.now ≤ 64 }
    ensures { result ≡ sum_by length rows.now }
{
    let mut left = 0;
    for row in rows {
        left += u64::from(row.len());
    }
    left
}

/// Sets the flags of the states of which some profile leads to a state that has lost a point since its summary.
fn mark(game: &Game, rows: &[Row], summaries: &[Summary], stale: &mut [bool])
    requires one_row_each { length rows.now ≡ states game.now }
    requires one_summary_each { length summaries.now ≡ states game.now }
    requires one_flag_each { length stale.old ≡ states game.now }
    ensures { AreMarked game.now rows.now summaries.now stale.new }
{
    let _players = game.players();
    for s in 0..game.states() {
        stale[s as usize] = has_lost_next(game, rows, summaries, s);
    }
}

/// Whether some profile of the state leads to a state that has lost a point since its summary.
fn has_lost_next(game: &Game, rows: &[Row], summaries: &[Summary], s: u32) -> bool
    requires one_row_each { length rows.now ≡ states game.now }
    requires one_summary_each { length summaries.now ≡ states game.now }
    requires state { s < states game.now }
    ensures { result ≡ false → IsUnmoved game.now rows.now summaries.now s }
{
    let _players = game.players();
    for a in 0..game.profiles(s) {
        let next = game.next(s, a) as usize;
        if has_lost(&rows[next], &summaries[next]) {
            return true;
        }
    }
    false
}

/// One round: each row whose flag is set is refined by what the others had before it, in threads that share the states.
fn refine<R: Threads + Sync>(
    rt: &R,
    game: &Game,
    n: u32,
    summaries: &[Summary],
    stale: &[bool],
    rows: &mut [Row],
)
    requires players { game.now.players ≡ 2 }
    requires n { n ≤ 16 }
    requires one_summary_each { length summaries.now ≡ states game.now }
    requires one_row_each { length rows.old ≡ states game.now }
    requires held { AreHeld game.now n summaries.now stale.now rows.old }
    ensures { AreRefined game.now n summaries.now rows.old rows.new }
{
    let _players = game.players();
    par_for_each_mut(
        rt,
        rows,
        |s: usize, row: &mut Row|
            requires players { game.now.players ≡ 2 }
            requires n { n ≤ 16 }
            requires one_each { length summaries.now ≡ states game.now }
            requires state { s < states game.now }
            requires few { s < 64 }
            requires flag { s < length stale.now }
            requires held { slice_index_or stale.now s false ≡ false → IsHeld game.now n summaries.now s row.old }
            ensures { IsRefined game.entry.now n summaries.entry.now s row.old row.new }
        {
            if stale[s] {
                row.refine(game, n, summaries, s as u32)
            }
        },
    );
}
