//! The settling test in threads, which share the states.

ghost use Rattle.std.specs.Prelude.{◌≡◌, ◌⊎◌, ◌≢◌, ℕ, ◌+◌, ◌*◌, ◌%◌, ◌<◌, ◌≤◌, All, length, slice_index_or, vec_len, IfOk};
ghost use Rattle.game_model.specs.Game.{states};
ghost use Rattle.level_table.specs.Levels.{levels_in};
ghost use Rattle.level_table.specs.Problem.{direction_count, problem_of};
ghost use Rattle.level_table.specs.Supported.{IsEven};
ghost use Rattle.level_table.specs.Tables.{HasSmallOpening, IsSmallTable};
ghost use Rattle.settle_test.specs.Parts.{AreTested, IsRoomy, IsTested, nothing_found};
ghost use Rattle.settle_test.specs.Verdicts.{IsReadyAt, IsRowVerdict, IsVerdict};

use crate::settle::{RowVerdict, add, begin_state, row_verdict};
use direction_set::Directions;
use game_model::{Game, List};
use level_table::{LevelTable, Problem};
use rayon::prelude::*;
use set_operator::{Prepared, Verdict};
use std::alloc::{AllocError, Global};
use std::thread::Threads;

/// The most directions of a table.
const MOST_DIRECTIONS: usize = 32;

/// A state's part of the test: room to make it ready, and what is found of its rows, direction by direction.
#[derive(Drop)]
pub(crate) struct Part {
    prepared: Prepared,
    rows: [RowVerdict; MOST_DIRECTIONS],
}

/// Whether a table of a game's levels, in units of `1/E`, is supported within the slack: a support for each finite
/// row, or else the first row that has none (the fixed points of Abreu, Pearce and Stacchetti 1990 are the tables
/// that are supported with slack 1). States are shared between threads.
pub fn settled<R: Threads + Sync>(
    rt: &R,
    alloc: Global,
    game: &Game,
    dirs: &Directions,
    grid: u32,
    levels: &LevelTable,
    slack: u64,
) -> Result<Verdict, AllocError>
    requires players { dirs.now.players ≡ game.now.players }
    requires grid { grid ≤ 30 }
    requires table { IsSmallTable (problem_of game.now dirs.now grid) levels.now }
    requires opening { HasSmallOpening (problem_of game.now dirs.now grid) }
    requires even { IsEven (problem_of game.now dirs.now grid) (levels_in levels.now) }
    ensures { IfOk result (IsVerdict (problem_of game.now dirs.now grid) levels.now slack) }
{
    let p = Problem::new(game, dirs, grid);
    settled_by_states(rt, alloc, &p, levels, slack)
}

/// The same of a problem. Memory is taken for each state.
pub fn settled_by_states<R: Threads + Sync>(
    rt: &R,
    alloc: Global,
    p: &Problem,
    levels: &LevelTable,
    slack: u64,
) -> Result<Verdict, AllocError>
    requires table { IsSmallTable p.now levels.now }
    requires opening { HasSmallOpening p.now }
    requires even { IsEven p.now (levels_in levels.now) }
    ensures { IfOk result (IsVerdict p.now levels.now slack) }
{
    let mut parts = parts_of(alloc, p)?;
    test_states(rt, p, levels, slack, &mut parts);
    gathered(alloc, p, levels, slack, &parts)
}

/// A part for each state.
fn parts_of(alloc: Global, p: &Problem) -> Result<Vec<Part>, AllocError>
    ensures one_each { IfOk result (λ parts. vec_len parts ≡ states p.now.game) }
    ensures room { IfOk result (λ parts. All (IsRoomy p.now) parts.items) }
{
    let mut parts = Vec::with_capacity(alloc, p.states() as usize)?;
    for _ in 0..p.states() {
        let prepared = Prepared::with_room(alloc, p.game())?;
        let rows = [RowVerdict::Fine(None); MOST_DIRECTIONS];
        parts.push(Part { prepared, rows })?;
    }
    Ok(parts)
}

/// Tests each state, in threads.
fn test_states<R: Threads + Sync>(
    rt: &R,
    p: &Problem,
    levels: &LevelTable,
    slack: u64,
    parts: &mut Vec<Part>,
)
    requires table { IsSmallTable p.now levels.now }
    requires opening { HasSmallOpening p.now }
    requires even { IsEven p.now (levels_in levels.now) }
    requires one_each { vec_len parts.old ≡ states p.now.game }
    requires room { All (IsRoomy p.now) parts.old.items }
    ensures one_each { vec_len parts.new ≡ states p.now.game }
    ensures tested { AreTested p.now levels.now slack parts.new.items }
{
    levels.states();
    par_for_each_mut(
        rt,
        parts.as_mut_slice(),
        |s: usize, part: &mut Part|
            requires table { IsSmallTable p.now levels.now }
            requires opening { HasSmallOpening p.now }
            requires even { IsEven p.now (levels_in levels.now) }
            requires state { s < states p.now.game }
            requires few { s < 64 }
            requires room { IsRoomy p.now part.old }
            ensures tested { IsTested p.entry.now levels.entry.now slack s part.new }
        { test_state(p, levels, slack, s as u32, part) },
    );
}

/// Tests the rows of a state.
fn test_state(p: &Problem, levels: &LevelTable, slack: u64, s: u32, part: &mut Part)
    requires table { IsSmallTable p.now levels.now }
    requires opening { HasSmallOpening p.now }
    requires even { IsEven p.now (levels_in levels.now) }
    requires state { s < states p.now.game }
    requires room { IsRoomy p.now part.old }
    ensures { IsTested p.now levels.now slack s part.new }
{
    p.rules();
    let count = p.directions();
    for k in 0..count {
        test_row(p, levels, slack, s * count + k, k, part);
    }
}

/// Tests a row, which is that of direction `k` of the state.
fn test_row(p: &Problem, levels: &LevelTable, slack: u64, row: u32, k: u32, part: &mut Part)
    requires table { IsSmallTable p.now levels.now }
    requires opening { HasSmallOpening p.now }
    requires row { row < length levels.now.levels }
    requires dir { k < direction_count p.now }
    requires room { IsRoomy p.now part.old }
    requires before { (row % direction_count p.now ≡ 0) ⊎ IsReadyAt p.now levels.now part.old.prepared row }
    ensures room { IsRoomy p.now part.new }
    ensures ready { IsReadyAt p.now levels.now part.new.prepared row }
    ensures here { IsRowVerdict p.now levels.now slack row (slice_index_or part.new.rows k nothing_found) }
    ensures others { (j : ℕ) → j ≢ k → slice_index_or part.new.rows j nothing_found ≡ slice_index_or part.old.rows j nothing_found }
{
    levels.states();
    begin_state(p, levels, &mut part.prepared, row);
    part.rows[k as usize] = row_verdict(p, levels, slack, &part.prepared, row);
}

/// The verdict of what was found of each row.
fn gathered(
    alloc: Global,
    p: &Problem,
    levels: &LevelTable,
    slack: u64,
    parts: &Vec<Part>,
) -> Result<Verdict, AllocError>
    requires table { IsSmallTable p.now levels.now }
    requires even { IsEven p.now (levels_in levels.now) }
    requires one_each { vec_len parts.now ≡ states p.now.game }
    requires tested { AreTested p.now levels.now slack parts.now.items }
    ensures verdict { IfOk result (IsVerdict p.now levels.now slack) }
{
    p.rules();
    let mut supports = List::new(alloc);
    for row in 0..levels.rows() {
        match found_at(p, levels, slack, parts, row) {
            RowVerdict::Fine(support) => add(&mut supports, support)?,
            RowVerdict::Unsupported { level, reached } => {
                return Ok(Verdict::Unsupported {
                    row,
                    level,
                    reached,
                });
            }
        }
    }
    Ok(Verdict::Supported(supports))
}

/// What was found of a row.
fn found_at(p: &Problem, levels: &LevelTable, slack: u64, parts: &Vec<Part>, row: u32) -> RowVerdict
    requires table { IsSmallTable p.now levels.now }
    requires one_each { vec_len parts.now ≡ states p.now.game }
    requires tested { AreTested p.now levels.now slack parts.now.items }
    requires row { row < length levels.now.levels }
    ensures { IsRowVerdict p.now levels.now slack row result }
{
    p.rules();
    let _slack = slack;
    levels.states();
    let count = p.directions();
    let part = &parts[(row / count) as usize];
    part.rows[(row % count) as usize]
}
