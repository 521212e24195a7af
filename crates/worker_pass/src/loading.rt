//! What a pass loads goes into its scratch.

ghost use Rattle.std.specs.Prelude.{◌≡◌, ◌≢◌, ℕ, ◌/◌, ◌%◌, ◌<◌, true, slice_index_or, false, IfSome};
ghost use Rattle.game_model.specs.Game.{states};
ghost use Rattle.level_table.specs.declared.level.Level.TheVariants.{Empty};
ghost use Rattle.level_table.specs.Levels.{IsNumber, IsRow, level_at};
ghost use Rattle.schedule_core.specs.Frame.{rows_of};
ghost use Rattle.worker_pass.specs.Scratches.{HoldsAfter, HoldsMarked, HoldsState, IsLoaded, IsScratch};

use crate::scratch::Scratch;
use level_board::{Board, Pass};
use level_table::Level;

/// The state and the direction of a row.
#[derive(Clone, Copy)]
pub(crate) struct Place {
    pub(crate) state: u32,
    pub(crate) dir: u32,
}

/// Where a row stands.
pub(crate) fn place_of(board: &Board<'_>, row: u32) -> Place
    requires { row < rows_of board.now.frame }
    ensures state { result.state ≡ row / board.now.frame.start.directions }
    ensures dir { result.dir ≡ row % board.now.frame.start.directions }
    ensures row { IsRow board.now.frame.problem result.state result.dir }
{
    board.rules();
    let p = board.problem();
    p.rules();
    let count = p.directions();
    Place {
        state: row / count,
        dir: row % count,
    }
}

/// Loads a row.
pub(crate) fn load_row(board: &Board<'_>, pass: &mut Pass, scratch: &mut Scratch, row: u32) -> Level
    requires board { pass.old.board ≡ board.now }
    requires scratch { IsScratch board.now.frame.problem scratch.old }
    requires row { row < rows_of board.now.frame }
    ensures board { pass.new.board ≡ board.now }
    ensures scratch { IsScratch board.now.frame.problem scratch.new }
    ensures loaded { IsLoaded pass.old.seen pass.new.seen scratch.old.levels scratch.new.levels }
    ensures here { level_at scratch.new.levels row ≡ level_at pass.new.seen row }
    ensures level { level_at pass.new.seen row ≡ result }
    ensures others { (r : ℕ) → r ≢ row → level_at pass.new.seen r ≡ level_at pass.old.seen r }
{
    board.rules();
    pass.rules();
    let level = board.load(pass, row);
    pass.rules();
    scratch.put(board.problem(), row, level);
    level
}

/// Loads a row, unless it is the one that was loaded first.
fn load_other(board: &Board<'_>, pass: &mut Pass, scratch: &mut Scratch, row: u32, first: u32)
    requires board { pass.old.board ≡ board.now }
    requires scratch { IsScratch board.now.frame.problem scratch.old }
    requires row { row < rows_of board.now.frame }
    requires first { level_at scratch.old.levels first ≡ level_at pass.old.seen first }
    ensures board { pass.new.board ≡ board.now }
    ensures scratch { IsScratch board.now.frame.problem scratch.new }
    ensures loaded { IsLoaded pass.old.seen pass.new.seen scratch.old.levels scratch.new.levels }
    ensures here { level_at scratch.new.levels row ≡ level_at pass.new.seen row }
    ensures first { level_at pass.new.seen first ≡ level_at pass.old.seen first }
{
    if row != first {
        load_row(board, pass, scratch, row);
    }
}

/// Loads the rows of a state.
fn load_state(board: &Board<'_>, pass: &mut Pass, scratch: &mut Scratch, s: u32, first: u32)
    requires board { pass.old.board ≡ board.now }
    requires scratch { IsScratch board.now.frame.problem scratch.old }
    requires state { s < states board.now.frame.problem.game }
    requires first { level_at scratch.old.levels first ≡ level_at pass.old.seen first }
    ensures board { pass.new.board ≡ board.now }
    ensures scratch { IsScratch board.now.frame.problem scratch.new }
    ensures loaded { IsLoaded pass.old.seen pass.new.seen scratch.old.levels scratch.new.levels }
    ensures here { HoldsState board.now.frame scratch.new.levels pass.new.seen s }
    ensures first { level_at pass.new.seen first ≡ level_at pass.old.seen first }
{
    board.rules();
    let count = scratch.levels.directions();
    for k in 0..count {
        load_other(board, pass, scratch, s * count + k, first);
    }
}

/// Loads the rows of a state that has no mark, and marks it.
fn load_unmarked(
    board: &Board<'_>,
    pass: &mut Pass,
    scratch: &mut Scratch,
    s: u32,
    first: u32,
    marks: &mut [bool; 64],
)
    requires board { pass.old.board ≡ board.now }
    requires scratch { IsScratch board.now.frame.problem scratch.old }
    requires state { s < states board.now.frame.problem.game }
    requires first { level_at scratch.old.levels first ≡ level_at pass.old.seen first }
    requires marks { HoldsMarked board.now.frame scratch.old.levels pass.old.seen marks.old }
    ensures board { pass.new.board ≡ board.now }
    ensures scratch { IsScratch board.now.frame.problem scratch.new }
    ensures loaded { IsLoaded pass.old.seen pass.new.seen scratch.old.levels scratch.new.levels }
    ensures marks { HoldsMarked board.now.frame scratch.new.levels pass.new.seen marks.new }
    ensures here { HoldsState board.now.frame scratch.new.levels pass.new.seen s }
    ensures first { level_at pass.new.seen first ≡ level_at pass.old.seen first }
{
    board.rules();
    scratch.levels.states();
    let marked = marks[s as usize];
    if !marked {
        load_state(board, pass, scratch, s, first);
        marks[s as usize] = true;
    }
}

/// Loads the rows of each state that follows a profile of the state, each once.
fn load_after(board: &Board<'_>, pass: &mut Pass, scratch: &mut Scratch, s: u32, first: u32)
    requires board { pass.old.board ≡ board.now }
    requires scratch { IsScratch board.now.frame.problem scratch.old }
    requires state { s < states board.now.frame.problem.game }
    requires first { level_at scratch.old.levels first ≡ level_at pass.old.seen first }
    ensures board { pass.new.board ≡ board.now }
    ensures scratch { IsScratch board.now.frame.problem scratch.new }
    ensures loaded { IsLoaded pass.old.seen pass.new.seen scratch.old.levels scratch.new.levels }
    ensures after { HoldsAfter board.now.frame scratch.new.levels pass.new.seen s }
    ensures first { level_at pass.new.seen first ≡ level_at pass.old.seen first }
{
    let game = board.problem().game();
    game.players();
    let mut marks = [false; 64];
    for a in 0..game.profiles(s) {
        let next = game.next(s, a);
        load_unmarked(board, pass, scratch, next, first, &mut marks);
    }
}

/// Loads a row, and unless it is Empty all other rows of the states that follow its state, which may be left out where
/// they are held for this state. Answers the row's level.
pub(crate) fn load_for(
    board: &Board<'_>,
    pass: &mut Pass,
    scratch: &mut Scratch,
    row: u32,
    held: Option<u32>,
) -> Level
    requires board { pass.old.board ≡ board.now }
    requires scratch { IsScratch board.now.frame.problem scratch.old }
    requires row { row < rows_of board.now.frame }
    requires held { IfSome held (HoldsAfter board.now.frame scratch.old.levels pass.old.seen) }
    ensures board { pass.new.board ≡ board.now }
    ensures scratch { IsScratch board.now.frame.problem scratch.new }
    ensures loaded { IsLoaded pass.old.seen pass.new.seen scratch.old.levels scratch.new.levels }
    ensures here { level_at scratch.new.levels row ≡ level_at pass.new.seen row }
    ensures level { level_at scratch.new.levels row ≡ result }
    ensures alone { result ≡ Empty → (r : ℕ) → r ≢ row → level_at pass.new.seen r ≡ level_at pass.old.seen r }
    ensures after { IsNumber result → HoldsAfter board.now.frame scratch.new.levels pass.new.seen (row / board.now.frame.start.directions) }
{
    let level = load_row(board, pass, scratch, row);
    if level != Level::Empty {
        let place = place_of(board, row);
        if held != Some(place.state) {
            load_after(board, pass, scratch, place.state, row);
        }
    }
    level
}
