//! What a run works on.

ghost use Rattle.std.specs.Prelude.{◌≡◌, ◌≤◌, IfOk};
ghost use Rattle.level_table.specs.Levels.{levels_in};
ghost use Rattle.level_table.specs.Problem.{problem_of};
ghost use Rattle.schedule_core.specs.Frame.{IsOpened, frame_from};
ghost use Rattle.schedule_core.specs.Room.{HasRoom};
ghost use Rattle.level_table.specs.Tables.{IsSmallTable};
ghost use Rattle.settle_test.specs.Verdicts.{IsVerdict};
ghost use Rattle.sweep_run.specs.Sweeper.{IsSettling, IsSweeper, problem_in};
ghost use Rattle.sweep_run.specs.Sweeps.{IsSwept};
ghost use Rattle.worker_pass.specs.Clearings.{KeepsNotes};

use crate::run::Run;
use direction_set::Directions;
use game_model::Game;
use level_board::{Board, Owner};
use level_table::{LevelTable, Notes};
use pay_outside::Gate;
use set_operator::{Prepared, Verdict};
use settle_test::{failing_row, settled_by_states, verdict_of};
use std::alloc::{AllocError, Global};
use std::thread::Threads;
use worker_pass::{Scratch, Worker, crew, sweep};

/// How many rows are looked at from the row that failed last on, before all are.
const ROWS_AT_ONCE: u32 = 128;

/// A board with its owner and workers, and all the room that sweeps want.
#[derive(Drop)]
pub(crate) struct Sweeper<'g> {
    pub(crate) board: Board<'g>,
    pub(crate) owner: Owner,
    pub(crate) workers: Vec<Worker>,
    /// Its levels are the table of the run.
    pub(crate) scratch: Scratch,
    pub(crate) prepared: Prepared,
    /// The row that failed the settling test last.
    pub(crate) failed: u32,
}

impl<'g> Sweeper<'g> {
    /// Opens a board at a start, and takes the room for so many workers.
    pub(crate) fn new(
        alloc: Global,
        game: &'g Game,
        dirs: &'g Directions,
        grid: u32,
        start: LevelTable,
        notes: Notes,
        count: u32,
    ) -> Result<Sweeper<'g>, AllocError>
        requires players { dirs.now.players ≡ game.now.players }
        requires grid { grid ≤ 30 }
        requires start { IsOpened (frame_from game.now dirs.now grid start) notes.list }
        requires table { IsSmallTable (problem_of game.now dirs.now grid) start }
        requires room { HasRoom game.now notes }
        ensures problem { IfOk result (λ w. problem_in w ≡ problem_of game.now dirs.now grid) }
        ensures levels { IfOk result (λ w. w.scratch.levels ≡ start) }
        ensures notes { IfOk result (λ w. w.owner.notes ≡ notes.list) }
        ensures sweeper { IfOk result IsSweeper }
    {
        let (board, mut owner) = Board::open(alloc, game, dirs, grid, &start, notes)?;
        board.rules();
        owner.rules();
        let workers = crew(alloc, &board, &mut owner, count)?;
        let room = Scratch::new(alloc, board.problem())?;
        let scratch = room.with_levels(board.problem(), start);
        let prepared = Prepared::with_room(alloc, game)?;
        Ok(Sweeper {
            board,
            owner,
            workers,
            scratch,
            prepared,
            failed: 0,
        })
    }

    /// One sweep by the workers. No memory is taken.
    pub(crate) fn sweep<R: Threads + Sync, G: Gate + Sync>(&mut self, rt: &R, gate: &G)
        requires sweeper { IsSweeper self.old }
        ensures board { self.new.board ≡ self.old.board }
        ensures swept { IsSwept (problem_in self.old) self.old.scratch.levels self.old.owner.notes self.new.scratch.levels self.new.owner.notes }
        ensures noted { KeepsNotes (problem_in self.old) (levels_in self.old.scratch.levels) self.old.owner.notes self.new.owner.notes }
        ensures sweeper { IsSweeper self.new }
    {
        self.owner.rules();
        sweep(
            rt,
            &self.board,
            &mut self.owner,
            &mut self.workers,
            &mut self.scratch,
            gate,
        );
    }

    /// The verdict of the settling test where the table is supported, and none where a row fails. The row that failed
    /// last is looked at first, with some behind it.
    pub(crate) fn settling<R: Threads + Sync>(
        &mut self,
        rt: &R,
        alloc: Global,
        slack: u64,
    ) -> Result<Option<Verdict>, AllocError>
        requires sweeper { IsSweeper self.old }
        ensures settling { IfOk result (IsSettling (problem_in self.old) self.old.scratch.levels slack) }
        ensures board { self.new.board ≡ self.old.board }
        ensures levels { self.new.scratch.levels ≡ self.old.scratch.levels }
        ensures notes { self.new.owner.notes ≡ self.old.owner.notes }
        ensures sweeper { IsSweeper self.new }
    {
        let p = self.board.problem();
        let levels = &self.scratch.levels;
        let found = failing_row(
            p,
            levels,
            slack,
            &mut self.prepared,
            self.failed,
            ROWS_AT_ONCE,
        );
        if let Some(row) = found {
            self.failed = row;
            return Ok(None);
        }
        let verdict = self.verdict(rt, alloc, slack)?;
        if let Verdict::Unsupported { row, .. } = verdict {
            self.failed = row;
            return Ok(None);
        }
        Ok(Some(verdict))
    }

    /// What the settling test says of the table. Several workers share its states.
    pub(crate) fn verdict<R: Threads + Sync>(
        &mut self,
        rt: &R,
        alloc: Global,
        slack: u64,
    ) -> Result<Verdict, AllocError>
        requires sweeper { IsSweeper self.old }
        ensures verdict { IfOk result (IsVerdict (problem_in self.old) self.old.scratch.levels slack) }
        ensures board { self.new.board ≡ self.old.board }
        ensures levels { self.new.scratch.levels ≡ self.old.scratch.levels }
        ensures notes { self.new.owner.notes ≡ self.old.owner.notes }
        ensures sweeper { IsSweeper self.new }
    {
        let p = self.board.problem();
        let levels = &self.scratch.levels;
        if self.workers.len() > 1 && p.states() > 1 {
            return settled_by_states(rt, alloc, p, levels, slack);
        }
        verdict_of(alloc, p, levels, slack, &mut self.prepared)
    }

    /// Where the run ended, without its room.
    pub(crate) fn ended(self, sweeps: u64, verdict: Verdict) -> Run
        requires { self.owner.board ≡ self.board }
        ensures levels { result.levels ≡ self.entry.scratch.levels }
        ensures notes { result.notes.list ≡ self.entry.owner.notes }
        ensures sweeps { result.sweeps ≡ sweeps }
        ensures verdict { result.verdict ≡ verdict }
    {
        let Sweeper {
            board,
            owner,
            workers: _,
            scratch,
            prepared: _,
            failed: _,
        } = self;
        Run {
            levels: scratch.levels,
            notes: board.into_notes(owner),
            sweeps,
            verdict,
        }
    }
}
