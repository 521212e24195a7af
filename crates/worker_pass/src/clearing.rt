//! The second part of a sweep: the owner loads each row, and clears the states in which nothing is admissible.

ghost use Rattle.std.specs.Prelude.{◌≡◌, ◌++◌, ◌∷◌, [], ℕ, ◌+◌, ◌*◌, ◌<◌, ◌≤◌, length};
ghost use Rattle.game_model.specs.Game.{states};
ghost use Rattle.level_table.specs.declared.level.Level.TheVariants.{Empty};
ghost use Rattle.level_table.specs.declared.reason.Note.{Note};
ghost use Rattle.level_table.specs.Levels.{IsRow, level_at, levels_in};
ghost use Rattle.level_table.specs.Notes.{Named};
ghost use Rattle.level_table.specs.Operator.{HasAdmissible, IsRowLevel};
ghost use Rattle.level_table.specs.Reasons.{IsNoteOver};
ghost use Rattle.schedule_core.specs.Frame.{IsFallen, NamedRow, rows_of};
ghost use Rattle.set_operator.specs.Prepared.{IsPrepared};
ghost use Rattle.worker_pass.specs.Clearings.{AreCleared, IsGoneThrough, KeepsNotes};
ghost use Rattle.worker_pass.specs.Scratches.{IsScratch};
ghost use Rattle.worker_pass.specs.Sweeps.{IsCleared};

use crate::scratch::Scratch;
use level_board::{Board, Owner};
use level_table::Level;
use set_operator::is_alive;

/// The owner loads a row.
fn load_one(board: &Board<'_>, owner: &mut Owner, scratch: &mut Scratch, row: u32)
    requires owner { owner.old.board ≡ board.now }
    requires scratch { IsScratch board.now.frame.problem scratch.old }
    requires row { row < rows_of board.now.frame }
    ensures owner { owner.new.board ≡ board.now }
    ensures scratch { IsScratch board.now.frame.problem scratch.new }
    ensures here { level_at scratch.new.levels row ≡ level_at owner.new.seen row }
    ensures held { (r : ℕ) → level_at scratch.old.levels r ≡ level_at owner.old.seen r → level_at scratch.new.levels r ≡ level_at owner.new.seen r }
    ensures fell { IsFallen owner.old.seen owner.new.seen }
    ensures notes { owner.new.notes ≡ owner.old.notes }
{
    board.rules();
    owner.rules();
    let level = board.load_owner(owner, row);
    owner.rules();
    scratch.put(board.problem(), row, level);
}

/// The same, row by row.
fn load_rows(board: &Board<'_>, owner: &mut Owner, scratch: &mut Scratch)
    requires owner { owner.old.board ≡ board.now }
    requires scratch { IsScratch board.now.frame.problem scratch.old }
    ensures owner { owner.new.board ≡ board.now }
    ensures scratch { IsScratch board.now.frame.problem scratch.new }
    ensures loaded { (r : ℕ) → r < rows_of board.now.frame → level_at scratch.new.levels r ≡ level_at owner.new.seen r }
    ensures fell { IsFallen owner.old.seen owner.new.seen }
    ensures notes { owner.new.notes ≡ owner.old.notes }
{
    board.rules();
    owner.rules();
    for row in 0..board.rows() {
        load_one(board, owner, scratch, row);
    }
}

/// The owner loads each row.
pub(crate) fn load_all(board: &Board<'_>, owner: &mut Owner, scratch: &mut Scratch)
    requires owner { owner.old.board ≡ board.now }
    requires scratch { IsScratch board.now.frame.problem scratch.old }
    ensures owner { owner.new.board ≡ board.now }
    ensures scratch { IsScratch board.now.frame.problem scratch.new }
    ensures loaded { scratch.new.levels ≡ owner.new.seen }
    ensures fell { IsFallen owner.old.seen owner.new.seen }
    ensures notes { owner.new.notes ≡ owner.old.notes }
{
    load_rows(board, owner, scratch);
    board.rules();
    owner.rules();
}

/// Makes a row of a named state Empty.
fn clear_row(board: &Board<'_>, owner: &mut Owner, scratch: &mut Scratch, row: u32)
    requires owner { owner.old.board ≡ board.now }
    requires scratch { IsScratch board.now.frame.problem scratch.old }
    requires same { scratch.old.levels ≡ owner.old.seen }
    requires row { row < rows_of board.now.frame }
    requires named { NamedRow board.now.frame owner.old.notes row }
    ensures owner { owner.new.board ≡ board.now }
    ensures scratch { IsScratch board.now.frame.problem scratch.new }
    ensures same { scratch.new.levels ≡ owner.new.seen }
    ensures fell { IsFallen owner.old.seen owner.new.seen }
    ensures here { level_at owner.new.seen row ≡ Empty }
    ensures others { (r : ℕ) → (r ≡ row → ⊥) → level_at owner.new.seen r ≡ level_at owner.old.seen r }
    ensures notes { owner.new.notes ≡ owner.old.notes }
{
    board.rules();
    owner.rules();
    board.clear(owner, row);
    owner.rules();
    scratch.put(board.problem(), row, Level::Empty);
}

/// Makes each row of a named state Empty.
fn clear_state(board: &Board<'_>, owner: &mut Owner, scratch: &mut Scratch, s: u32)
    requires owner { owner.old.board ≡ board.now }
    requires scratch { IsScratch board.now.frame.problem scratch.old }
    requires same { scratch.old.levels ≡ owner.old.seen }
    requires state { s < states board.now.frame.problem.game }
    requires named { Named owner.old.notes s }
    ensures owner { owner.new.board ≡ board.now }
    ensures scratch { IsScratch board.now.frame.problem scratch.new }
    ensures same { scratch.new.levels ≡ owner.new.seen }
    ensures fell { IsFallen owner.old.seen owner.new.seen }
    ensures here { (k : ℕ) → k < board.now.frame.start.directions → level_at owner.new.seen (s * board.now.frame.start.directions + k) ≡ Empty }
    ensures others { (r : ℕ) → ((k : ℕ) → k < board.now.frame.start.directions → r ≡ s * board.now.frame.start.directions + k → ⊥) → level_at owner.new.seen r ≡ level_at owner.old.seen r }
    ensures notes { owner.new.notes ≡ owner.old.notes }
{
    board.rules();
    owner.rules();
    let count = scratch.levels.directions();
    for k in 0..count {
        clear_row(board, owner, scratch, s * count + k);
    }
}

/// Keeps a note that says why the state that is ready admits nothing.
fn name_state(board: &Board<'_>, owner: &mut Owner, scratch: &mut Scratch, s: u32)
    requires owner { owner.old.board ≡ board.now }
    requires scratch { IsScratch board.now.frame.problem scratch.old }
    requires same { scratch.old.levels ≡ owner.old.seen }
    requires cleared { IsCleared board.now.frame owner.old.notes owner.old.seen }
    requires state { scratch.old.prepared.state ≡ s }
    requires ready { IsPrepared board.now.frame.problem (levels_in scratch.old.levels) scratch.old.prepared }
    requires number { levels_in scratch.old.levels s 0 ≡ Empty → ⊥ }
    requires nothing { HasAdmissible board.now.frame.problem (levels_in scratch.old.levels) s → ⊥ }
    ensures owner { owner.new.board ≡ board.now }
    ensures scratch { IsScratch board.now.frame.problem scratch.new }
    ensures levels { scratch.new.levels ≡ scratch.old.levels }
    ensures seen { owner.new.seen ≡ owner.old.seen }
    ensures number { levels_in owner.old.seen s 0 ≡ Empty → ⊥ }
    ensures nothing { HasAdmissible board.now.frame.problem (levels_in owner.old.seen) s → ⊥ }
    ensures note { (note : Note) × IsNoteOver board.now.frame.problem (levels_in owner.old.seen) s note × (owner.new.notes ≡ owner.old.notes ++ note ∷ []) }
{
    board.rules();
    owner.rules();
    scratch.note.state = s;
    scratch.prepared.explain(board.problem(), &scratch.levels, &mut scratch.note.reasons);
    board.keep(owner, &mut scratch.note);
}

/// Clears a state in which nothing is admissible, with a note that says why. Answers how many notes were kept.
fn clear_dead(board: &Board<'_>, owner: &mut Owner, scratch: &mut Scratch, s: u32) -> u32
    requires owner { owner.old.board ≡ board.now }
    requires scratch { IsScratch board.now.frame.problem scratch.old }
    requires same { scratch.old.levels ≡ owner.old.seen }
    requires cleared { IsCleared board.now.frame owner.old.notes owner.old.seen }
    requires state { s < states board.now.frame.problem.game }
    ensures owner { owner.new.board ≡ board.now }
    ensures scratch { IsScratch board.now.frame.problem scratch.new }
    ensures same { scratch.new.levels ≡ owner.new.seen }
    ensures cleared { IsCleared board.now.frame owner.new.notes owner.new.seen }
    ensures fell { IsFallen owner.old.seen owner.new.seen }
    ensures one { IsGoneThrough board.now.frame.problem s (levels_in owner.old.seen) owner.old.notes (levels_in owner.new.seen) owner.new.notes }
    ensures noted { KeepsNotes board.now.frame.problem (levels_in owner.old.seen) owner.old.notes owner.new.notes }
    ensures notes { length owner.new.notes ≡ length owner.old.notes + result }
    ensures most { result ≤ 1 }
{
    board.rules();
    owner.rules();
    let p = board.problem();
    p.rules();
    if scratch.levels.at(s, 0) == Level::Empty {
        return 0;
    }
    if is_alive(p, &scratch.levels, s) {
        return 0;
    }
    scratch.make_ready(p, s);
    name_state(board, owner, scratch, s);
    clear_state(board, owner, scratch, s);
    1
}

/// Clears each state in order in which nothing is admissible. Answers how many there were.
pub(crate) fn clear_states(board: &Board<'_>, owner: &mut Owner, scratch: &mut Scratch) -> u32
    requires owner { owner.old.board ≡ board.now }
    requires scratch { IsScratch board.now.frame.problem scratch.old }
    requires same { scratch.old.levels ≡ owner.old.seen }
    requires cleared { IsCleared board.now.frame owner.old.notes owner.old.seen }
    ensures owner { owner.new.board ≡ board.now }
    ensures scratch { IsScratch board.now.frame.problem scratch.new }
    ensures same { scratch.new.levels ≡ owner.new.seen }
    ensures cleared { IsCleared board.now.frame owner.new.notes owner.new.seen }
    ensures fell { IsFallen owner.old.seen owner.new.seen }
    ensures clearing { AreCleared board.now.frame.problem (states board.now.frame.problem.game) (levels_in owner.old.seen) owner.old.notes (levels_in owner.new.seen) owner.new.notes }
    ensures noted { KeepsNotes board.now.frame.problem (levels_in owner.old.seen) owner.old.notes owner.new.notes }
    ensures dead { (s k : ℕ) → IsRow board.now.frame.problem s k → IsRowLevel board.now.frame.problem (levels_in owner.old.seen) s k Empty → levels_in owner.new.seen s k ≡ Empty }
    ensures notes { length owner.new.notes ≡ length owner.old.notes + result }
{
    board.rules();
    owner.rules();
    let p = board.problem();
    p.rules();
    let mut count = 0;
    for s in 0..p.states() {
        owner.rules();
        count += clear_dead(board, owner, scratch, s);
    }
    count
}
