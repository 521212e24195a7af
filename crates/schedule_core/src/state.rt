//! A core state as a value, changed one event at a time.

ghost use Rattle.std.specs.Prelude.{◌≡◌, ℕ, ◌-◌, ◌^◌, ◌<◌, ◌≤◌, [], ◌∷◌, ◌++◌, length, slice_index, slice_index_or, slice_set, replicate, IfOk};
ghost use Rattle.level_table.specs.declared.level.Level.{Level};
ghost use Rattle.level_table.specs.declared.level.Level.TheVariants.{Empty, At};
ghost use Rattle.level_table.specs.Levels.{Table, level_at, lesser};
ghost use Rattle.level_table.specs.Notes.{HasRoomFor};
ghost use Rattle.schedule_core.specs.Frame.{IsFrame, IsNoteOver, IsOpened, IsRowLevelOf, NamedRow, frame_from, rows_of, with_level};
ghost use Rattle.schedule_core.specs.Core.{Core, IsValid, IsWorking, MayHappen, cleared, loaded, lowered, noted, seen_by, stepped};
ghost use Rattle.schedule_core.specs.Room.{HasRoom};
ghost use Rattle.schedule_core.specs.Runs.{started};
ghost use Rattle.schedule_core.specs.State.{table_at, words_in};

use super::event::Event;
use direction_set::Directions;
use game_model::Game;
use level_table::{Level, LevelTable, Note, Notes, Problem, lesser};
use std::alloc::{AllocError, Global};
use std::marker::Model;
use std::snapshot::Snapshot;

/// The words, what each worker has last seen in each row, and the notes of empty states. Levels are in units of `1/E`.
/// Worker 0 is the owner. Contracts see it as a `Core`.
#[derive(Drop)]
pub struct CoreState<'g> {
    problem: Problem<'g>,
    start: Snapshot<LevelTable>,
    words: LevelTable,
    seen: Vec<LevelTable>,
    notes: Notes,
}

impl<'g> Model for CoreState<'g> {
    ghost use Rattle.std.specs.Prelude.{◌≡◌};
    ghost use Rattle.schedule_core.specs.Frame.{Frame, IsFrame};
    ghost use Rattle.schedule_core.specs.Core.{Core, IsValid};
    ghost use Rattle.schedule_core.specs.Room.{HasRoom};
    ghost use Rattle.schedule_core.specs.State.{core_of};

    ghost Value = { Core };

    ghost view = { λ a. core_of a.problem a.start.value a.words a.seen.items a.notes.list };

    ghost invariant = { λ a.
        IsFrame (record { problem = a.problem; start = a.start.value })
        × IsValid (core_of a.problem a.start.value a.words a.seen.items a.notes.list)
        × (a.words.states ≡ a.start.value.states)
        × (a.words.directions ≡ a.start.value.directions)
        × HasRoom a.problem.game a.notes };
}

impl<'g> CoreState<'g> {
    /// A state whose words are a start, which each of the workers has seen, and which has its notes.
    pub fn start(
        alloc: Global,
        game: &'g Game,
        dirs: &'g Directions,
        grid: u32,
        opening: &LevelTable,
        workers: u32,
        notes: Notes,
    ) -> Result<CoreState<'g>, AllocError>
        requires players { dirs.now.players ≡ game.now.players }
        requires grid { grid ≤ 30 }
        requires start { IsOpened (frame_from game.now dirs.now grid opening.now) notes.list }
        requires room { HasRoom game.now notes }
        requires workers { 0 < workers }
        ensures core { IfOk result (λ c. c ≡ started (frame_from game.now dirs.now grid opening.now) (workers - 1) notes.list) }
    {
        let problem = Problem::new(game, dirs, grid);
        opening.states();
        let words = opening.copy(alloc)?;
        let seen = copies(alloc, opening, workers)?;
        Ok(CoreState {
            problem,
            start: Snapshot::of(opening),
            words,
            seen,
            notes,
        })
    }

    /// The words, as levels.
    pub fn levels(&self) -> &LevelTable
        ensures { result.now ≡ words_in self.now }
    {
        &self.words
    }

    /// What worker `w` has last seen in each row.
    pub fn seen(&self, w: u32) -> &LevelTable
        requires { w < length self.now.readers }
        ensures { result.now ≡ seen_by self.now w }
    {
        &self.seen[w as usize]
    }

    /// The notes of empty states.
    pub fn notes(&self) -> &Notes
        ensures notes { result.now.list ≡ self.now.notes }
        ensures room { HasRoom self.now.frame.problem.game result.now }
    {
        &self.notes
    }

    /// The words and the notes.
    pub fn into_parts(self) -> (LevelTable, Notes)
        ensures levels { result.0 ≡ words_in self.entry }
        ensures notes { result.1.list ≡ self.entry.notes }
        ensures room { HasRoom self.entry.frame.problem.game result.1 }
    {
        (self.words, self.notes)
    }

    /// A law: the problem is within its limits, the start bounds, and the state is valid.
    pub fn rules(&self)
        ensures frame { IsFrame self.now.frame }
        ensures valid { IsValid self.now }
    {
        let _ = &self.words;
    }

    fn load(&mut self, w: u32, row: u32)
        requires works { IsWorking self.old w }
        requires row { row < rows_of self.old.frame }
        ensures { self.new ≡ loaded self.old w row }
    {
        let level = self.words.get(row);
        see(&mut self.seen, w, row, level);
    }

    fn lower(&mut self, w: u32, row: u32, level: i64)
        requires works { IsWorking self.old w }
        requires row { row < rows_of self.old.frame }
        requires level { IsRowLevelOf self.old.frame (seen_by self.old w) row (At level) }
        ensures { self.new ≡ lowered self.old w row (At level) }
    {
        let new = lesser(self.words.get(row), Level::At(level));
        self.words.set(row, new);
        see(&mut self.seen, w, row, new);
    }

    fn clear(&mut self, row: u32)
        requires row { row < rows_of self.old.frame }
        requires named { NamedRow self.old.frame self.old.notes row }
        ensures { self.new ≡ cleared self.old row }
    {
        self.words.set(row, Level::Empty);
        see(&mut self.seen, 0, row, Level::Empty);
    }
}

/// Makes one event happen. The state stays valid. Takes no memory.
pub fn step(state: &mut CoreState<'_>, event: Event)
    requires { MayHappen state.old event }
    ensures step { state.new ≡ stepped state.old event }
    ensures valid { IsValid state.new }
{
    match event {
        Event::Load { w, row } => state.load(w, row),
        Event::Lower { w, row, level } => state.lower(w, row, level),
        Event::Clear { row } => state.clear(row),
    }
    state.rules();
}

/// Keeps a note that is right over what the owner has seen beside the notes so far, and leaves behind an empty one whose
/// list has room for the reasons of any state. The state stays valid. Takes no memory.
pub fn note(state: &mut CoreState<'_>, note: &mut Note)
    requires { IsNoteOver state.old.frame (seen_by state.old 0) state.old.notes note.old }
    ensures step { state.new ≡ noted state.old note.old }
    ensures valid { IsValid state.new }
    ensures left { note.new.reasons.list ≡ [] }
    ensures room { HasRoomFor state.old.frame.problem.game note.new.reasons.spare }
{
    state.notes.add(note);
    state.rules();
}

/// So many copies of the table.
fn copies(alloc: Global, table: &LevelTable, count: u32) -> Result<Vec<LevelTable>, AllocError>
    ensures { IfOk result (λ v. v.items ≡ replicate count table.now) }
{
    let mut copies = Vec::with_capacity(alloc, count as usize)?;
    for _ in 0..count {
        copies.push(table.copy(alloc)?)?;
    }
    Ok(copies)
}

/// Worker `w` has now seen the level in the row.
fn see(seen: &mut Vec<LevelTable>, w: u32, row: u32, level: Level)
    requires worker { w < length seen.old.items }
    requires row { row < length (table_at seen.old.items w).levels }
    ensures { seen.new.items ≡ slice_set seen.old.items w (with_level (table_at seen.old.items w) row level) }
{
    seen[w as usize].set(row, level);
}
