ghost use Rattle.std.specs.Prelude.{◌≡◌, ◌<◌, All, IfOk, IfSome};
ghost use Rattle.game_model.specs.Parts.{shape_of};
ghost use Rattle.schedule_core.specs.Frame.{rows_of};
ghost use Rattle.board_race.specs.Fall.{IsFresh, IsReady, falling, four_directions};

use direction_set::Directions;
use game_model::{Game, GameParts};
use level_board::{Board, Owner, Pass};
use level_table::{Level, Notes, OpeningFault, opening};
use std::alloc::{AllocError, Global};
use std::test::Fail;
use std::thread;
use std::thread::Threads;

fn falling_parts(alloc: Global) -> Result<GameParts, AllocError>
    ensures { IfOk result (λ p. shape_of p ≡ falling) }
{
    let first = vec![in alloc; 1, 1]?;
    let second = vec![in alloc; 1, 1]?;
    let some = vec![in alloc; 2, 2]?;
    let none = vec![in alloc; 0, 0]?;
    let next = vec![in alloc; 1]?;
    let last = vec![in alloc; 1]?;
    Ok(GameParts {
        players: 2,
        strategies: vec![in alloc; first, second]?,
        payoffs: vec![in alloc; some, none]?,
        next: vec![in alloc; next, last]?,
        denominator: 1,
        discounts: vec![in alloc; 1, 1]?,
        q: 2,
    })
}

fn falling_game(parts: GameParts) -> Option<Game>
    requires { shape_of parts ≡ falling }
    ensures { IfSome result (λ g. g ≡ falling) }
{
    match Game::build(parts) {
        Ok(game) => Some(game),
        Err(_) => None,
    }
}

fn open_falling<'g>(
    alloc: Global,
    game: &'g Game,
    dirs: &'g Directions,
) -> Result<(Board<'g>, Owner), OpeningFault>
    requires game { game.now ≡ falling }
    requires dirs { dirs.now ≡ four_directions }
    ensures board { IfOk result (λ b. b.1.board ≡ b.0) }
    ensures row { IfOk result (λ b. 4 < rows_of b.0.frame) }
    ensures fresh { IfOk result (λ b. IsFresh b.0.frame b.1.seen) }
{
    let table = opening(alloc, game, dirs, 4)?;
    game.players();
    dirs.rules();
    table.states();
    match Notes::with_room(alloc, game) {
        Ok(notes) => match Board::open(alloc, game, dirs, 4, &table, notes) {
            Ok(made) => Ok(made),
            Err(_) => Err(OpeningFault::NoMemory),
        },
        Err(_) => Err(OpeningFault::NoMemory),
    }
}

/// A pass that has seen the opening in the second state.
fn split_fresh(board: &Board<'_>, owner: &mut Owner) -> Pass
    requires board { owner.old.board ≡ board.now }
    requires row { 4 < rows_of board.now.frame }
    requires fresh { IsFresh board.now.frame owner.old.seen }
    ensures board { owner.new.board ≡ board.now }
    ensures fresh { IsFresh board.now.frame owner.new.seen }
    ensures ready { IsReady board.now result }
{
    board.split(owner)
}

#[derive(Drop)]
struct Worker {
    pass: Pass,
    found: Level,
    drawn: u64,
    turns: u64,
}

/// Lowers the row to its row level.
fn lower_row(board: &Board<'_>, worker: &mut Worker)
    requires { IsReady board.now worker.old.pass }
    ensures { worker.new.pass.board ≡ board.now }
{
    worker.found = board.lower(&mut worker.pass, 4, 16);
    worker.drawn = board.draw(&mut worker.pass);
}

/// Lowers the row to its row level as the owner.
fn lower_as_owner(board: &Board<'_>, owner: &mut Owner) -> Level
    requires board { owner.old.board ≡ board.now }
    requires row { 4 < rows_of board.now.frame }
    requires fresh { IsFresh board.now.frame owner.old.seen }
    ensures board { owner.new.board ≡ board.now }
{
    board.lower_owner(owner, 4, 16)
}

/// Lowers the row to its row level, and loads it.
fn lower_and_load(board: &Board<'_>, worker: &mut Worker)
    requires { IsReady board.now worker.old.pass }
    ensures { worker.new.pass.board ≡ board.now }
{
    lower_row(board, worker);
    worker.found = board.load(&mut worker.pass, 4);
}

/// Loads the row until it finds the lower level, without a join.
fn await_lower(board: &Board<'_>, worker: &mut Worker)
    requires board { worker.old.pass.board ≡ board.now }
    requires row { 4 < rows_of board.now.frame }
    ensures { worker.new.pass.board ≡ board.now }
{
    worker.drawn = board.draw(&mut worker.pass);
    for turn in 0..10000000u64 {
        worker.found = board.load(&mut worker.pass, 4);
        worker.turns = turn;
        if worker.found == Level::At(16) {
            return;
        }
    }
}

fn work(board: &Board<'_>, number: usize, worker: &mut Worker)
    requires { IsReady board.now worker.old.pass }
    ensures { worker.new.pass.board ≡ board.now }
{
    if number == 1 {
        lower_row(board, worker);
    } else {
        await_lower(board, worker);
    }
}

fn two_workers(
    alloc: Global,
    board: &Board<'_>,
    one: Pass,
    two: Pass,
) -> Result<Vec<Worker>, AllocError>
    requires one { IsReady board.now one }
    requires two { IsReady board.now two }
    ensures { IfOk result (λ v. All (λ w. IsReady board.now w.pass) v.items) }
{
    let mut workers = Vec::new(alloc);
    workers.push(Worker {
        pass: one,
        found: Level::Empty,
        drawn: 9,
        turns: 0,
    })?;
    workers.push(Worker {
        pass: two,
        found: Level::Empty,
        drawn: 9,
        turns: 0,
    })?;
    Ok(workers)
}

fn four() -> Option<Directions>
    ensures { IfSome result (λ d. d ≡ four_directions) }
{
    match Directions::of(2, 4) {
        Some(dirs) => Some(dirs),
        None => None,
    }
}

fn race<R: Threads + Sync>(rt: &R, board: &Board<'_>, workers: &mut Vec<Worker>)
    requires { All (λ w. IsReady board.now w.pass) workers.old.items }
    ensures { All (λ w. w.pass.board ≡ board.now) workers.new.items }
{
    thread::for_each_mut(
        rt,
        workers.as_mut_slice(),
        4,
        &|i, worker: &mut Worker| work(board, i, worker),
    );
}

#[test]
fn a_pass_sees_what_another_lowers(rt: HostRuntime) -> Result<(), Fail> {
    let parts = falling_parts(rt.alloc())?;
    let game = falling_game(parts).ok_or("the parts fit")?;
    let dirs = four().ok_or("two players have four directions")?;
    let (board, mut owner) = open_falling(rt.alloc(), &game, &dirs)?;
    let one = split_fresh(&board, &mut owner);
    let two = split_fresh(&board, &mut owner);
    let mut workers = two_workers(rt.alloc(), &board, one, two)?;
    race(&rt, &board, &mut workers);
    assert!(rt; workers.len() == 2);
    assert_eq!(rt; workers[0].found, Level::At(16));
    assert_eq!(rt; workers[1].found, Level::At(32));
    assert!(rt; workers[0].turns < 9999999);
    assert!(rt; workers[0].drawn < 2 && workers[1].drawn < 2);
    assert!(rt; workers[0].drawn != workers[1].drawn);
    assert_eq!(rt; board.load_owner(&mut owner, 4), Level::At(16));
    Ok(())
}

#[test]
fn a_pass_sees_what_the_owner_lowers(rt: HostRuntime) -> Result<(), Fail> {
    let parts = falling_parts(rt.alloc())?;
    let game = falling_game(parts).ok_or("the parts fit")?;
    let dirs = four().ok_or("two players have four directions")?;
    let (board, mut owner) = open_falling(rt.alloc(), &game, &dirs)?;
    let mut pass = split_fresh(&board, &mut owner);
    assert_eq!(rt; lower_as_owner(&board, &mut owner), Level::At(32));
    assert_eq!(rt; board.load(&mut pass, 4), Level::At(16));
    Ok(())
}

fn race_down<R: Threads + Sync>(rt: &R, board: &Board<'_>, workers: &mut Vec<Worker>)
    requires { All (λ w. IsReady board.now w.pass) workers.old.items }
    ensures { All (λ w. w.pass.board ≡ board.now) workers.new.items }
{
    thread::for_each_mut(
        rt,
        workers.as_mut_slice(),
        4,
        &|_, worker: &mut Worker| lower_and_load(board, worker),
    );
}

#[test]
fn two_passes_lower_and_load_one_row(rt: HostRuntime) -> Result<(), Fail> {
    let parts = falling_parts(rt.alloc())?;
    let game = falling_game(parts).ok_or("the parts fit")?;
    let dirs = four().ok_or("two players have four directions")?;
    let (board, mut owner) = open_falling(rt.alloc(), &game, &dirs)?;
    let one = split_fresh(&board, &mut owner);
    let two = split_fresh(&board, &mut owner);
    let mut workers = two_workers(rt.alloc(), &board, one, two)?;
    race_down(&rt, &board, &mut workers);
    assert!(rt; workers.len() == 2);
    assert_eq!(rt; workers[0].found, Level::At(16));
    assert_eq!(rt; workers[1].found, Level::At(16));
    assert!(rt; workers[0].drawn != workers[1].drawn);
    Ok(())
}
