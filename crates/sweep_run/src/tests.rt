ghost use Rattle.std.specs.Prelude.{◌≡◌};

use super::*;
use direction_set::Directions;
use game_model::Game;
use game_model::worked::dilemma;
use level_table::{Level, LevelTable, Problem, opening};
use pay_frac::Frac;
use pay_outside::OpenGate;
use pay_words::Settings;
use set_operator::Verdict;
use settle_test::settled;
use std::test::Fail;

#[test]
fn the_dilemma_comes_down(rt: HostRuntime) -> Result<(), Fail> {
    let parts = dilemma(rt.alloc())?;
    let game = Game::build(parts).ok().ok_or("the parts fit")?;
    let dirs = Directions::of(2, 4).ok_or("two players have four directions")?;
    assert_eq!(rt; game.players(), 2);
    assert_eq!(rt; dirs.players(), 2);
    for (workers, budget, sweeps, low) in [
        (1, 0, 0, 0),
        (1, 3, 0, 0),
        (1, 4, 1, -8),
        (1, 8, 2, -12),
        (1, 15, 3, -14),
        (1, 16, 4, -15),
        (1, 1000, 4, -15),
        (2, 1000, 4, -15),
        (0, 4, 1, -8),
    ] {
        let set = Settings {
            discount: Frac::of(1, 2),
            directions: Some(4),
            workers,
            budget,
            grid: 4,
            slack: 1,
            inner: None,
        };
        let start = opening(rt.alloc(), &game, &dirs, 4)?;
        let run = run_sweeps(&rt, rt.alloc(), &game, &dirs, start, &set, &OpenGate)?;
        let settled = matches!(&run.verdict, Verdict::Supported(_));
        if workers < 2 {
            assert_eq!(rt; run.sweeps, sweeps);
        }
        assert_eq!(rt; run.notes.len(), 0);
        for (row, level) in [(0, 48), (1, low), (2, 48), (3, low)] {
            assert!(rt; row < run.levels.rows());
            assert_eq!(rt; run.levels.get(row), Level::At(level), "row {row}");
        }
        assert_eq!(rt; settled, low == -15);
    }
    Ok(())
}

/// Settings of a run that settles.
fn settings(directions: u32, grid: u32, workers: u32) -> Settings
    ensures grid { result.grid ≡ grid }
    ensures slack { result.slack ≡ 1 }
{
    Settings {
        discount: Frac::of(1, 2),
        directions: Some(directions),
        workers,
        budget: 1_000_000,
        grid,
        slack: 1,
        inner: None,
    }
}

/// Whether both tables have the same levels.
fn same_levels(a: &LevelTable, b: &LevelTable) -> bool {
    if a.rows() != b.rows() {
        return false;
    }
    for row in 0..a.rows() {
        if a.get(row) != b.get(row) {
            return false;
        }
    }
    true
}

// Without workers the owner goes through the rows in order, in one thread.
#[test]
fn workers_come_down_to_the_table_of_the_owner_alone(rt: HostRuntime) -> Result<(), Fail> {
    let parts = dilemma(rt.alloc())?;
    let game = Game::build(parts).ok().ok_or("the parts fit")?;
    assert_eq!(rt; game.players(), 2);
    for (directions, grid) in [(4, 4), (4, 9), (8, 0), (8, 6), (16, 3), (32, 2)] {
        let dirs = Directions::of(2, directions).ok_or("two players have these directions")?;
        assert_eq!(rt; dirs.players(), 2);
        assert!(rt; grid <= 30);
        let start = opening(rt.alloc(), &game, &dirs, grid)?;
        let alone = settings(directions, grid, 0);
        let plain = run_sweeps(&rt, rt.alloc(), &game, &dirs, start, &alone, &OpenGate)?;
        assert!(rt; matches!(&plain.verdict, Verdict::Supported(_)));
        let _law = Problem::new(&game, &dirs, grid);
        let again = settled(&rt, rt.alloc(), &game, &dirs, grid, &plain.levels, 1)?;
        assert!(rt; matches!(&again, Verdict::Supported(_)));
        for workers in [1, 2, 4, 16] {
            let start = opening(rt.alloc(), &game, &dirs, grid)?;
            let set = settings(directions, grid, workers);
            let run = run_sweeps(&rt, rt.alloc(), &game, &dirs, start, &set, &OpenGate)?;
            assert!(rt; matches!(&run.verdict, Verdict::Supported(_)));
            assert!(rt; same_levels(&plain.levels, &run.levels));
        }
    }
    Ok(())
}
