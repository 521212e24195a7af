//! From a game and the settings to the report.

ghost use Rattle.std.specs.Prelude.{◌≡◌, ℕ, ◌<◌, ◌≤◌, length, slice_index, All, IfErr, IfOk, OnOk};
ghost use Rattle.level_table.specs.Problem.{problem_of};
ghost use Rattle.level_table.specs.Tables.{HasSmallOpening, IsOpening};
ghost use Rattle.pay_words.specs.Options.{AreWithinLimits};
ghost use Rattle.report_text.specs.ReportText.{IsPrintable, discount_at};
ghost use Rattle.solve_run.specs.Inner.{IsInnerShown, inner_number};
ghost use Rattle.solve_run.specs.Problems.{directions_of, problem_in, rows_in};
ghost use Rattle.solve_run.specs.Refusals.{IsOpeningFault};
ghost use Rattle.solve_run.specs.Solved.{IsReportOf};

use crate::inner::inner_of;
use direction_set::Directions;
use game_files::GameFault;
use game_model::{Game, List};
use level_table::{LevelTable, OpeningFault, Problem, opening, unit};
use nfg_text::What;
use pay_outside::Gate;
use pay_words::Settings;
use report_text::Report;
use std::alloc::{AllocError, Global};
use std::thread::Threads;
use sweep_run::run_sweeps;

/// How many directions bound a game of two players where no word says it.
const USUAL_DIRECTIONS: u32 = 16;

/// Into how many steps the inner sets of a game of two players divide each range of payoffs where no word says it.
const USUAL_INNER: u32 = 16;

/// Bounds the payoff set of a game from outside, and gives its inner sets.
///
/// # Errors
///
/// The first opening level that passes its limit, and `NoMemory`.
pub(crate) fn report_on<R: Threads + Sync, G: Gate + Sync>(
    rt: &R,
    alloc: Global,
    game: &Game,
    set: &Settings,
    gate: &G,
) -> Result<Report, GameFault>
    requires limits { AreWithinLimits set.now }
    requires players { game.now.players ≡ 2 }
    ensures solved { IfOk result (IsReportOf (problem_in game.now set.now) set.now.slack set.now.budget) }
    ensures small { OnOk result (HasSmallOpening (problem_in game.now set.now)) }
    ensures inner { IfOk result (λ r. IsInnerShown game.now (inner_number set.now.inner) r.inner r.numbers) }
    ensures printable { IfOk result IsPrintable }
    ensures why { IfErr result (IsOpeningFault (problem_in game.now set.now)) }
{
    let dirs = directions(set);
    let start = opening_of(alloc, game, &dirs, set.grid)?;
    match reported(rt, alloc, game, &dirs, start, set, gate) {
        Ok(report) => Ok(report),
        Err(_) => Err(GameFault::NoMemory),
    }
}

/// The opening table of a game.
pub(crate) fn opening_of(
    alloc: Global,
    game: &Game,
    dirs: &Directions,
    grid: u32,
) -> Result<LevelTable, GameFault>
    requires players { dirs.now.players ≡ game.now.players }
    requires grid { grid ≤ 30 }
    ensures opened { IfOk result (IsOpening (problem_of game.now dirs.now grid)) }
    ensures small { OnOk result (HasSmallOpening (problem_of game.now dirs.now grid)) }
    ensures rows { IfOk result (λ t. length t.levels ≡ rows_in (problem_of game.now dirs.now grid)) }
    ensures why { IfErr result (IsOpeningFault (problem_of game.now dirs.now grid)) }
{
    let _problem = Problem::new(game, dirs, grid);
    match opening(alloc, game, dirs, grid) {
        Ok(levels) => {
            levels.states();
            Ok(levels)
        }
        Err(OpeningFault::NoMemory) => Err(GameFault::NoMemory),
        Err(OpeningFault::Beyond { number }) => Err(GameFault::Beyond {
            what: What::Opening,
            number,
        }),
    }
}

/// The report of a run from the opening.
fn reported<R: Threads + Sync, G: Gate + Sync>(
    rt: &R,
    alloc: Global,
    game: &Game,
    dirs: &Directions,
    start: LevelTable,
    set: &Settings,
    gate: &G,
) -> Result<Report, AllocError>
    requires limits { AreWithinLimits set.now }
    requires two { game.now.players ≡ 2 }
    requires players { dirs.now.players ≡ game.now.players }
    requires opening { IsOpening (problem_of game.now dirs.now set.now.grid) start }
    ensures solved { IfOk result (IsReportOf (problem_of game.now dirs.now set.now.grid) set.now.slack set.now.budget) }
    ensures inner { IfOk result (λ r. IsInnerShown game.now (inner_number set.now.inner) r.inner r.numbers) }
    ensures printable { IfOk result IsPrintable }
{
    let p = Problem::new(game, dirs, set.grid);
    let discounts = discounts_of(alloc, game)?;
    let run = run_sweeps(rt, alloc, game, dirs, start, set, gate)?;
    let inner = inner_of(rt, alloc, game, inner_steps(set))?;
    Ok(Report {
        players: p.players(),
        states: p.states(),
        directions: p.directions(),
        discounts,
        unit: unit(game, set.grid),
        slack: set.slack,
        sweeps: run.sweeps,
        levels: run.levels,
        verdict: run.verdict,
        notes: run.notes,
        inner: inner.sets,
        numbers: inner.numbers,
    })
}

/// The directions of the settings, for two players.
pub(crate) fn directions(set: &Settings) -> Directions
    requires { AreWithinLimits set.now }
    ensures table { result ≡ directions_of set.now }
{
    let count = match set.directions {
        Some(count) => count,
        None => USUAL_DIRECTIONS,
    };
    Directions::of(2, count).unwrap()
}

/// Into how many steps the inner sets divide each player's range of payoffs; there are no inner sets at 0.
fn inner_steps(set: &Settings) -> u32
    requires { AreWithinLimits set.now }
    ensures number { result ≡ inner_number set.now.inner }
    ensures few { result ≤ 16 }
{
    match set.inner {
        Some(steps) => steps,
        None => USUAL_INNER,
    }
}

/// Each player's discount factor.
fn discounts_of(alloc: Global, game: &Game) -> Result<List<(u32, u32)>, AllocError>
    ensures count { IfOk result (λ ds. length ds ≡ game.now.players) }
    ensures each { IfOk result (λ ds. (i : ℕ) → i < game.now.players → discount_at ds i ≡ (slice_index game.now.discounts i, game.now.q)) }
    ensures positive { IfOk result (All (λ d. 0 < d.1)) }
{
    let mut discounts = List::new(alloc);
    for i in 0..game.players() {
        discounts.push(game.discount_of(i))?;
    }
    Ok(discounts)
}
