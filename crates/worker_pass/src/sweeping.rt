//! One sweep, and the workers that make it.

ghost use Rattle.std.specs.Prelude.{◌≡◌, ℕ, ◌<◌, All, length, vec_len, IfOk, OnOk};
ghost use Rattle.schedule_core.specs.Frame.{IsFallen, rows_of};
ghost use Rattle.worker_pass.specs.Scratches.{IsScratch};
ghost use Rattle.worker_pass.specs.Sweeps.{HoldsButFirst, IsCleared, IsSweep};
ghost use Rattle.worker_pass.specs.Work.{IsWorkerOf};

use crate::clearing::{clear_states, load_all};
use crate::joining::lower_rows;
use crate::scratch::Scratch;
use crate::working::Worker;
use game_model::List;
use level_board::{Board, Owner, Pass};
use pay_outside::Gate;
use std::alloc::{AllocError, Global};
use std::thread::Threads;

/// How many states were named empty in a sweep.
#[derive(Clone, Copy, Debug, PartialEq, Eq)]
pub struct SweepNote {
    pub cleared: u32,
}

/// So many workers, each with a pass that has seen at most what the owner has seen, and all the room that sweeps want.
pub fn crew(
    alloc: Global,
    board: &Board<'_>,
    owner: &mut Owner,
    count: u32,
) -> Result<Vec<Worker>, AllocError>
    requires owner { owner.old.board ≡ board.now }
    ensures owner { OnOk result (owner.new.board ≡ board.now) }
    ensures workers { IfOk result (λ ws. All (λ w. IsWorkerOf board.now w) ws.items) }
    ensures below { IfOk result (λ ws. All (λ w. IsFallen owner.new.seen w.pass.seen) ws.items) }
    ensures len { IfOk result (λ ws. vec_len ws ≡ count) }
    ensures seen { OnOk result (HoldsButFirst owner.old.seen owner.new.seen) }
    ensures notes { OnOk result (owner.new.notes ≡ owner.old.notes) }
{
    let mut first = board.split(owner);
    let mut workers = Vec::with_capacity(alloc, count as usize)?;
    for number in 0..count {
        let worker = hire(alloc, board, &mut first, number)?;
        workers.push(worker)?;
    }
    Ok(workers)
}

/// A worker with a copy of a pass.
fn hire(
    alloc: Global,
    board: &Board<'_>,
    other: &mut Pass,
    number: u32,
) -> Result<Worker, AllocError>
    requires other { other.old.board ≡ board.now }
    ensures other { OnOk result (other.new.board ≡ board.now) }
    ensures worker { IfOk result (IsWorkerOf board.now) }
    ensures fell { OnOk result (IsFallen other.old.seen other.new.seen) }
    ensures copy { IfOk result (λ w. IsFallen other.old.seen w.pass.seen) }
{
    board.rules();
    let scratch = Scratch::new(alloc, board.problem())?;
    let done = unmarked(alloc, board.rows())?;
    let pass = board.split_pass(other);
    Ok(Worker {
        number,
        pass,
        scratch,
        done,
    })
}

/// So many rows without a mark.
fn unmarked(alloc: Global, rows: u32) -> Result<List<bool>, AllocError>
    ensures { IfOk result (λ marks. length marks ≡ rows) }
{
    let mut marks = List::new(alloc);
    for _ in 0..rows {
        marks.push(false)?;
    }
    Ok(marks)
}

/// Gives a worker a copy of a pass.
fn copy_to(board: &Board<'_>, other: &mut Pass, worker: &mut Worker)
    requires other { other.old.board ≡ board.now }
    requires worker { IsWorkerOf board.now worker.old }
    ensures other { other.new.board ≡ board.now }
    ensures worker { IsWorkerOf board.now worker.new }
    ensures fell { IsFallen other.old.seen other.new.seen }
    ensures copy { IsFallen other.old.seen worker.new.pass.seen }
{
    let new = board.split_pass(other);
    worker.pass = new;
}

/// Gives each worker a new pass, which has seen at most what the owner has seen.
fn renew_passes(board: &Board<'_>, owner: &mut Owner, workers: &mut Vec<Worker>)
    requires owner { owner.old.board ≡ board.now }
    requires workers { All (λ w. IsWorkerOf board.now w) workers.old.items }
    ensures owner { owner.new.board ≡ board.now }
    ensures workers { All (λ w. IsWorkerOf board.now w) workers.new.items }
    ensures len { vec_len workers.new ≡ vec_len workers.old }
    ensures below { All (λ w. IsFallen owner.new.seen w.pass.seen) workers.new.items }
    ensures fell { IsFallen owner.old.seen owner.new.seen }
    ensures seen { HoldsButFirst owner.old.seen owner.new.seen }
    ensures notes { owner.new.notes ≡ owner.old.notes }
{
    let mut first = board.split(owner);
    for i in 0..workers.len() {
        copy_to(board, &mut first, &mut workers[i]);
    }
}

/// One sweep: the workers lower each row, the owner joins their passes, loads each row and clears the states in which
/// nothing is admissible. The scratch then holds what the owner loaded, with Empty in each row that was cleared, and
/// each worker has a new pass. The conditions hold again. No memory is taken.
pub fn sweep<R: Threads + Sync, G: Gate + Sync>(
    rt: &R,
    board: &Board<'_>,
    owner: &mut Owner,
    workers: &mut Vec<Worker>,
    scratch: &mut Scratch,
    gate: &G,
) -> SweepNote
    requires owner { owner.old.board ≡ board.now }
    requires scratch { IsScratch board.now.frame.problem scratch.old }
    requires workers { All (λ w. IsWorkerOf board.now w) workers.old.items }
    requires below { All (λ w. IsFallen owner.old.seen w.pass.seen) workers.old.items }
    requires cleared { IsCleared board.now.frame owner.old.notes owner.old.seen }
    ensures owner { owner.new.board ≡ board.now }
    ensures scratch { IsScratch board.now.frame.problem scratch.new }
    ensures workers { All (λ w. IsWorkerOf board.now w) workers.new.items }
    ensures len { vec_len workers.new ≡ vec_len workers.old }
    ensures below { All (λ w. IsFallen owner.new.seen w.pass.seen) workers.new.items }
    ensures cleared { IsCleared board.now.frame owner.new.notes owner.new.seen }
    ensures swept { IsSweep board.now.frame owner.old owner.new scratch.new.levels result }
{
    board.rules();
    owner.rules();
    lower_rows(rt, board, owner, workers, scratch, gate);
    load_all(board, owner, scratch);
    owner.rules();
    let cleared = clear_states(board, owner, scratch);
    owner.rules();
    renew_passes(board, owner, workers);
    SweepNote { cleared }
}
