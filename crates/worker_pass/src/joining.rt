//! The first part of a sweep: rows are lowered, and the owner takes in what the workers have seen.

ghost use Rattle.std.specs.Prelude.{◌≡◌, ◌⊎◌, ℕ, ◌<◌, All, length, vec_len, IsTrue};
ghost use Rattle.level_table.specs.Levels.{Levels, IsBelow, levels_in};
ghost use Rattle.schedule_core.specs.Frame.{IsFallen, rows_of};
ghost use Rattle.worker_pass.specs.Scratches.{IsScratch};
ghost use Rattle.worker_pass.specs.Updates.{IsPassedRow};
ghost use Rattle.worker_pass.specs.Work.{HasMarked, IsWorkerOf};

use crate::scratch::Scratch;
use crate::updating::take_down;
use crate::working::{Worker, work_all};
use level_board::{Board, Owner, Pass};
use pay_outside::Gate;
use std::mem;
use std::thread::Threads;

/// Whether some worker has marked the row.
fn is_marked(workers: &Vec<Worker>, row: u32) -> bool
    requires { All (λ w. row < length w.done) workers.now.items }
    ensures { IsTrue result → HasMarked workers.now.items row }
{
    for worker in workers {
        if *worker.done.get(row) {
            return true;
        }
    }
    false
}

/// Whether each row has a mark.
fn are_marked(board: &Board<'_>, workers: &Vec<Worker>) -> bool
    requires { All (λ w. IsWorkerOf board.now w) workers.now.items }
    ensures { IsTrue result → (r : ℕ) → r < rows_of board.now.frame → HasMarked workers.now.items r }
{
    for row in 0..board.rows() {
        if !is_marked(workers, row) {
            return false;
        }
    }
    true
}

/// Updates a row that no worker has marked.
fn update_unmarked(
    board: &Board<'_>,
    pass: &mut Pass,
    scratch: &mut Scratch,
    workers: &Vec<Worker>,
    row: u32,
)
    requires board { pass.old.board ≡ board.now }
    requires scratch { IsScratch board.now.frame.problem scratch.old }
    requires workers { All (λ w. IsWorkerOf board.now w) workers.now.items }
    requires row { row < rows_of board.now.frame }
    ensures board { pass.new.board ≡ board.now }
    ensures scratch { IsScratch board.now.frame.problem scratch.new }
    ensures fell { IsFallen pass.old.seen pass.new.seen }
    ensures passed { (above : Levels) → IsBelow board.now.frame.problem (levels_in pass.old.seen) above → HasMarked workers.now.items row ⊎ IsPassedRow board.now.frame above pass.new.seen row }
{
    board.rules();
    pass.rules();
    if !is_marked(workers, row) {
        take_down(board, pass, scratch, row, None);
    }
}

/// Updates each row that no worker has marked.
fn update_rest(board: &Board<'_>, pass: &mut Pass, scratch: &mut Scratch, workers: &Vec<Worker>)
    requires board { pass.old.board ≡ board.now }
    requires scratch { IsScratch board.now.frame.problem scratch.old }
    requires workers { All (λ w. IsWorkerOf board.now w) workers.now.items }
    ensures board { pass.new.board ≡ board.now }
    ensures scratch { IsScratch board.now.frame.problem scratch.new }
    ensures fell { IsFallen pass.old.seen pass.new.seen }
    ensures passed { (above : Levels) → IsBelow board.now.frame.problem (levels_in pass.old.seen) above → (r : ℕ) → r < rows_of board.now.frame → HasMarked workers.now.items r ⊎ IsPassedRow board.now.frame above pass.new.seen r }
{
    board.rules();
    for row in 0..board.rows() {
        update_unmarked(board, pass, scratch, workers, row);
    }
}

/// The owner takes in the pass of a worker, who gets a copy of what the owner has seen in its place.
fn take_in(board: &Board<'_>, owner: &mut Owner, worker: &mut Worker)
    requires owner { owner.old.board ≡ board.now }
    requires worker { IsWorkerOf board.now worker.old }
    ensures owner { owner.new.board ≡ board.now }
    ensures worker { IsWorkerOf board.now worker.new }
    ensures done { worker.new.done ≡ worker.old.done }
    ensures fell { IsFallen owner.old.seen owner.new.seen }
    ensures taken { IsFallen worker.old.pass.seen owner.new.seen }
    ensures notes { owner.new.notes ≡ owner.old.notes }
{
    let copy = board.split(owner);
    let old = mem::replace(&mut worker.pass, copy);
    board.join(owner, old);
}

/// The same for each worker.
fn join_all(board: &Board<'_>, owner: &mut Owner, workers: &mut Vec<Worker>)
    requires owner { owner.old.board ≡ board.now }
    requires workers { All (λ w. IsWorkerOf board.now w) workers.old.items }
    ensures owner { owner.new.board ≡ board.now }
    ensures workers { All (λ w. IsWorkerOf board.now w) workers.new.items }
    ensures len { vec_len workers.new ≡ vec_len workers.old }
    ensures marks { (r : ℕ) → HasMarked workers.new.items r → HasMarked workers.old.items r }
    ensures fell { IsFallen owner.old.seen owner.new.seen }
    ensures taken { All (λ w. IsFallen w.pass.seen owner.new.seen) workers.old.items }
    ensures notes { owner.new.notes ≡ owner.old.notes }
{
    for i in 0..workers.len() {
        take_in(board, owner, &mut workers[i]);
    }
}

/// Updates each row that no worker has marked with a pass of the owner, if there are any.
fn finish_rows(board: &Board<'_>, owner: &mut Owner, workers: &Vec<Worker>, scratch: &mut Scratch)
    requires owner { owner.old.board ≡ board.now }
    requires scratch { IsScratch board.now.frame.problem scratch.old }
    requires workers { All (λ w. IsWorkerOf board.now w) workers.now.items }
    ensures owner { owner.new.board ≡ board.now }
    ensures scratch { IsScratch board.now.frame.problem scratch.new }
    ensures fell { IsFallen owner.old.seen owner.new.seen }
    ensures passed { (above : Levels) → IsBelow board.now.frame.problem (levels_in owner.old.seen) above → (r : ℕ) → r < rows_of board.now.frame → HasMarked workers.now.items r ⊎ IsPassedRow board.now.frame above owner.new.seen r }
    ensures notes { owner.new.notes ≡ owner.old.notes }
{
    if are_marked(board, workers) {
        return;
    }
    board.rules();
    let mut pass = board.split(owner);
    update_rest(board, &mut pass, scratch, workers);
    board.join(owner, pass);
}

/// Lowers each row, in threads, and takes in what was seen.
pub(crate) fn lower_rows<R: Threads + Sync, G: Gate + Sync>(
    rt: &R,
    board: &Board<'_>,
    owner: &mut Owner,
    workers: &mut Vec<Worker>,
    scratch: &mut Scratch,
    gate: &G,
)
    requires owner { owner.old.board ≡ board.now }
    requires scratch { IsScratch board.now.frame.problem scratch.old }
    requires workers { All (λ w. IsWorkerOf board.now w) workers.old.items }
    requires below { All (λ w. IsFallen owner.old.seen w.pass.seen) workers.old.items }
    ensures owner { owner.new.board ≡ board.now }
    ensures scratch { IsScratch board.now.frame.problem scratch.new }
    ensures workers { All (λ w. IsWorkerOf board.now w) workers.new.items }
    ensures len { vec_len workers.new ≡ vec_len workers.old }
    ensures fell { IsFallen owner.old.seen owner.new.seen }
    ensures passed { (above : Levels) → IsBelow board.now.frame.problem (levels_in owner.old.seen) above → (r : ℕ) → r < rows_of board.now.frame → IsPassedRow board.now.frame above owner.new.seen r }
    ensures notes { owner.new.notes ≡ owner.old.notes }
{
    board.rules();
    let base = board.draw_owner(owner);
    work_all(rt, board, base, workers, gate);
    join_all(board, owner, workers);
    finish_rows(board, owner, workers, scratch);
}
