//! What each worker does in a sweep.

ghost use Rattle.std.specs.Prelude.{◌≡◌, ℕ, ◌<◌, ◌≤◌, All, length, slice_index_or, true, false, vec_len, IfSome};
ghost use Rattle.level_table.specs.Levels.{Levels, IsBelow, levels_in};
ghost use Rattle.schedule_core.specs.Frame.{IsFallen, rows_of};
ghost use Rattle.std.specs.Thread.{IsSync};
ghost use Rattle.worker_pass.specs.Scratches.{HoldsAfter};
ghost use Rattle.worker_pass.specs.Work.{Did, HaveWorked, IsWorkerOf, Marks};

use crate::loading::load_row;
use crate::scratch::Scratch;
use crate::updating::take_down;
use game_model::List;
use level_board::{Board, Pass};
use lists::Few;
use pay_outside::Gate;
use std::thread::{Threads, join_mut};

/// A worker with its pass, what it loads into, and a mark for each row that it took in this sweep.
#[derive(Drop)]
pub struct Worker {
    pub number: u32,
    pub pass: Pass,
    pub scratch: Scratch,
    pub done: List<bool>,
}

/// Takes all marks away.
fn unmark(done: &mut List<bool>)
    ensures same { length done.new ≡ length done.old }
    ensures none { (r : ℕ) → slice_index_or done.new r false ≡ false }
{
    for row in 0..done.len() {
        done.set(row, false);
    }
}

/// Updates a row and marks it. Where the rows that follow its state are held, they aren't loaded anew. Answers the state
/// for which they are held then.
fn take_row(board: &Board<'_>, worker: &mut Worker, row: u32, held: Option<u32>) -> Option<u32>
    requires worker { IsWorkerOf board.now worker.old }
    requires row { row < rows_of board.now.frame }
    requires held { IfSome held (HoldsAfter board.now.frame worker.old.scratch.levels worker.old.pass.seen) }
    ensures worker { IsWorkerOf board.now worker.new }
    ensures fallen { IsFallen worker.old.pass.seen worker.new.pass.seen }
    ensures marked { (above : Levels) → IsBelow board.now.frame.problem (levels_in worker.old.pass.seen) above → Marks board.now.frame above worker.old → Marks board.now.frame above worker.new }
    ensures held { IfSome result (HoldsAfter board.now.frame worker.new.scratch.levels worker.new.pass.seen) }
{
    board.rules();
    let pass = &mut worker.pass;
    pass.rules();
    let after = take_down(board, pass, &mut worker.scratch, row, held);
    load_row(board, pass, &mut worker.scratch, row);
    worker.done.set(row, true);
    after
}

/// The most rows that a worker draws at once.
const MOST_AT_ONCE: u32 = 32;

/// How many rows a worker draws at once: as many as a state has, so that each state is made ready by one worker, but fewer
/// where that leaves less than eight draws for each worker.
fn share_of(board: &Board<'_>, workers: usize) -> u32
    ensures { result ≤ 32 }
{
    let directions = board.problem().directions();
    let most = directions.min(MOST_AT_ONCE);
    let even = u64::from(board.rows()) / 8 / (workers as u64).max(1);
    if even < u64::from(most) {
        (even as u32).max(1)
    } else {
        most
    }
}

/// The numbers of a sweep: those behind `base`, which so many workers draw.
#[derive(Clone, Copy)]
struct Numbers {
    base: u64,
    workers: usize,
}

/// Draws so many numbers, until one is past the rows. The others are the rows.
fn draw_some(board: &Board<'_>, base: u64, worker: &mut Worker, share: u32) -> Few<u32, 32>
    requires worker { IsWorkerOf board.now worker.old }
    requires share { share ≤ 32 }
    ensures worker { IsWorkerOf board.now worker.new }
    ensures seen { worker.new.pass.seen ≡ worker.old.pass.seen }
    ensures done { worker.new.done ≡ worker.old.done }
    ensures rows { All (λ row. row < rows_of board.now.frame) result }
{
    let mut rows = Few::new();
    for _ in 0..share {
        let number = board
            .draw(&mut worker.pass)
            .wrapping_sub(base)
            .wrapping_sub(1);
        if number >= u64::from(worker.done.len()) {
            break;
        }
        rows.push(number as u32);
    }
    rows
}

/// Takes these rows. What follows a state is loaded once for its rows that come one after the other.
fn take_rows<G: Gate + Sync>(board: &Board<'_>, worker: &mut Worker, rows: &Few<u32, 32>, gate: &G)
    requires worker { IsWorkerOf board.now worker.old }
    requires rows { All (λ row. row < rows_of board.now.frame) rows.now }
    ensures worker { IsWorkerOf board.now worker.new }
    ensures did { (w : Worker) → Did board.now.frame w worker.old → Did board.now.frame w worker.new }
{
    let mut held = None;
    for i in 0..rows.len() {
        let row = *rows.get(i);
        gate.before(worker.number, row);
        held = take_row(board, worker, row, held);
        gate.after(worker.number, row);
    }
}

/// Takes rows by drawn numbers, a share at once, until a number is past the rows.
fn work<G: Gate + Sync>(board: &Board<'_>, numbers: Numbers, worker: &mut Worker, gate: &G)
    requires worker { IsWorkerOf board.now worker.old }
    ensures worker { IsWorkerOf board.now worker.new }
    ensures did { Did board.now.frame worker.old worker.new }
{
    board.rules();
    unmark(&mut worker.done);
    let share = share_of(board, numbers.workers);
    for _ in 0..worker.done.len() {
        let rows = draw_some(board, numbers.base, worker, share);
        take_rows(board, worker, &rows, gate);
        if rows.len() < share {
            break;
        }
    }
}

/// Each worker takes rows: the last one in this thread, each other in a thread that this one starts.
#[cycle(crew)]
fn work_each<R: Threads + Sync, G: Gate + Sync>(
    rt: &R,
    board: &Board<'_>,
    numbers: Numbers,
    gate: &G,
    workers: &mut [Worker],
)
    requires { All (λ w. IsWorkerOf board.now w) workers.old }
    ensures { HaveWorked board.now workers.old workers.new }
{
    if workers.is_empty() {
        return;
    }
    if workers.len() == 1 {
        work(board, numbers, &mut workers[0], gate);
        return;
    }
    let (first, rest) = workers.split_at_mut(1);
    work_both(rt, board, numbers, gate, first, rest);
}

/// The same of two parts: the first in a new thread, and the rest in this one.
#[cycle(crew)]
fn work_both<R: Threads + Sync, G: Gate + Sync>(
    rt: &R,
    board: &Board<'_>,
    numbers: Numbers,
    gate: &G,
    first: &mut [Worker],
    rest: &mut [Worker],
)
    requires some_first { 0 < length first.old }
    requires some_rest { 0 < length rest.old }
    requires first { All (λ w. IsWorkerOf board.now w) first.old }
    requires rest { All (λ w. IsWorkerOf board.now w) rest.old }
    ensures first { HaveWorked board.now first.old first.new }
    ensures rest { HaveWorked board.now rest.old rest.new }
{
    let mut there = ||
        requires { IsSync R.row × IsSync G.row × All (λ w. IsWorkerOf board.now w) first.now }
        ensures { HaveWorked board.entry.now first.entry.now first.exit.now }
    { work_each(rt, board, numbers, gate, first) };
    let mut here = ||
        requires { IsSync R.row × IsSync G.row × All (λ w. IsWorkerOf board.now w) rest.now }
        ensures { HaveWorked board.entry.now rest.entry.now rest.exit.now }
    { work_each(rt, board, numbers, gate, rest) };
    join_mut(rt, &mut there, &mut here);
}

/// Each worker takes rows, in threads.
pub(crate) fn work_all<R: Threads + Sync, G: Gate + Sync>(
    rt: &R,
    board: &Board<'_>,
    base: u64,
    workers: &mut Vec<Worker>,
    gate: &G,
)
    requires workers { All (λ w. IsWorkerOf board.now w) workers.old.items }
    ensures len { vec_len workers.new ≡ vec_len workers.old }
    ensures workers { All (λ w. IsWorkerOf board.now w) workers.new.items }
    ensures did { (i : ℕ) (d : Worker) → i < vec_len workers.old → Did board.now.frame (slice_index_or workers.old.items i d) (slice_index_or workers.new.items i d) }
{
    let numbers = Numbers {
        base,
        workers: workers.len(),
    };
    work_each(rt, board, numbers, gate, workers.as_mut_slice());
}
