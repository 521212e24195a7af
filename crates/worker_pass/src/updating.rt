//! One update of a row.

ghost use Rattle.std.specs.Prelude.{◌≡◌, ◌/◌, ◌<◌, IfSome};
ghost use Rattle.level_table.specs.declared.level.Level.TheVariants.{At};
ghost use Rattle.level_table.specs.Levels.{Levels, IsBelow, IsNumber, level_at, levels_in};
ghost use Rattle.schedule_core.specs.Frame.{rows_of};
ghost use Rattle.worker_pass.specs.declared.updating.UpdateNote.{UpdateNote};
ghost use Rattle.worker_pass.specs.Scratches.{HoldsAfter, IsScratch};
ghost use Rattle.worker_pass.specs.Updates.{IsLowering, IsPassedRow, IsUpdated};

use crate::loading::{load_for, place_of};
use crate::scratch::Scratch;
use level_board::{Board, Pass};
use level_table::Level;
use set_operator::RowAnswer;

/// What an update did.
#[derive(Clone, Copy, Debug, PartialEq, Eq)]
pub enum UpdateNote {
    /// The row was lowered to this row level, in units of `1/E`, if it wasn't lower.
    Lowered { level: i64 },
    /// The row is Empty.
    WasEmpty,
    /// No profile has an admissible point.
    NothingAdmissible,
}

/// Loads the row, and unless it is Empty all other rows of the states that follow its state, each once, and lowers it
/// to the row level of what was loaded (Judd, Yeltekin and Conklin 2003). No memory is taken.
pub fn update(board: &Board<'_>, pass: &mut Pass, scratch: &mut Scratch, row: u32) -> UpdateNote
    requires board { pass.old.board ≡ board.now }
    requires scratch { IsScratch board.now.frame.problem scratch.old }
    requires row { row < rows_of board.now.frame }
    ensures board { pass.new.board ≡ board.now }
    ensures scratch { IsScratch board.now.frame.problem scratch.new }
    ensures updated { IsUpdated board.now.frame pass.old.seen pass.new.seen scratch.new.levels row result }
{
    match load_for(board, pass, scratch, row, None) {
        Level::Empty => UpdateNote::WasEmpty,
        Level::At(_) => lower_to_row_level(board, pass, scratch, row),
    }
}

/// Lowers a row to the row level of what was loaded.
fn lower_to_row_level(
    board: &Board<'_>,
    pass: &mut Pass,
    scratch: &mut Scratch,
    row: u32,
) -> UpdateNote
    requires board { pass.old.board ≡ board.now }
    requires scratch { IsScratch board.now.frame.problem scratch.old }
    requires row { row < rows_of board.now.frame }
    requires after { HoldsAfter board.now.frame scratch.old.levels pass.old.seen (row / board.now.frame.start.directions) }
    ensures board { pass.new.board ≡ board.now }
    ensures scratch { IsScratch board.now.frame.problem scratch.new }
    ensures levels { scratch.new.levels ≡ scratch.old.levels }
    ensures lowering { IsLowering board.now.frame scratch.old.levels pass.old.seen pass.new.seen row result }
{
    board.rules();
    pass.rules();
    let place = place_of(board, row);
    let p = board.problem();
    scratch.make_ready(p, place.state);
    match scratch.prepared.answer(p, &scratch.levels, place.dir) {
        RowAnswer::Level { level, .. } => {
            board.lower(pass, row, level);
            UpdateNote::Lowered { level }
        }
        RowAnswer::EmptyState => UpdateNote::NothingAdmissible,
    }
}

/// The same update, but the row level is only looked for as far as it is below what was loaded. So it is lowered just
/// where that is lower. The rows that follow needn't be loaded where they are held for the row's state. Answers this
/// state, unless the row is Empty: all rows that follow it are held then, but for the row.
pub(crate) fn take_down(
    board: &Board<'_>,
    pass: &mut Pass,
    scratch: &mut Scratch,
    row: u32,
    held: Option<u32>,
) -> Option<u32>
    requires board { pass.old.board ≡ board.now }
    requires scratch { IsScratch board.now.frame.problem scratch.old }
    requires row { row < rows_of board.now.frame }
    requires held { IfSome held (HoldsAfter board.now.frame scratch.old.levels pass.old.seen) }
    ensures board { pass.new.board ≡ board.now }
    ensures scratch { IsScratch board.now.frame.problem scratch.new }
    ensures updated { (note : UpdateNote) × IsUpdated board.now.frame pass.old.seen pass.new.seen scratch.new.levels row note }
    ensures held { IfSome result (λ s. (s ≡ row / board.now.frame.start.directions) × IsNumber (level_at scratch.new.levels row)) }
{
    match load_for(board, pass, scratch, row, held) {
        Level::Empty => None,
        Level::At(level) => {
            lower_to_less(board, pass, scratch, row, level);
            Some(place_of(board, row).state)
        }
    }
}

/// Lowers a row that was loaded with this level to the row level of what was loaded, where that is less.
fn lower_to_less(board: &Board<'_>, pass: &mut Pass, scratch: &mut Scratch, row: u32, level: i64)
    requires board { pass.old.board ≡ board.now }
    requires scratch { IsScratch board.now.frame.problem scratch.old }
    requires row { row < rows_of board.now.frame }
    requires here { level_at scratch.old.levels row ≡ level_at pass.old.seen row }
    requires level { level_at scratch.old.levels row ≡ At level }
    requires after { HoldsAfter board.now.frame scratch.old.levels pass.old.seen (row / board.now.frame.start.directions) }
    ensures board { pass.new.board ≡ board.now }
    ensures scratch { IsScratch board.now.frame.problem scratch.new }
    ensures levels { scratch.new.levels ≡ scratch.old.levels }
    ensures lowering { (note : UpdateNote) × IsLowering board.now.frame scratch.old.levels pass.old.seen pass.new.seen row note }
{
    board.rules();
    pass.rules();
    let place = place_of(board, row);
    let p = board.problem();
    scratch.make_ready(p, place.state);
    let hint = scratch.hints[row as usize];
    match scratch
        .prepared
        .lesser(p, &scratch.levels, place.dir, level, hint)
    {
        Some(found) => {
            scratch.hints[row as usize] = found.profile;
            if found.level < level {
                board.lower(pass, row, found.level);
            }
        }
        None => {}
    }
}
