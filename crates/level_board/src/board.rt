//! The board and its passes.

ghost use Rattle.std.specs.Prelude.{◌≡◌, ℕ, ◌+◌, ◌-◌, ◌^◌, ◌<◌, ◌≤◌, [], ◌∷◌, ◌++◌, length, IfOk};
ghost use Rattle.level_table.specs.declared.level.Level.TheVariants.{At, Empty};
ghost use Rattle.level_table.specs.declared.level.Level.{Level};
ghost use Rattle.level_table.specs.Levels.{AtMost, IsSmall, level_at, lesser};
ghost use Rattle.level_table.specs.Notes.{HasRoomFor};
ghost use Rattle.schedule_core.specs.Frame.{AreKept, BoundsEach, BoundsRow, IsAbove, IsFallen, IsFrame, IsNoteOver, IsOpened, IsRowLevelOf, IsSeen, NamedRow, NamesEmpty, frame_from, lesser_table, rows_of, with_level};
ghost use Rattle.schedule_core.specs.Room.{HasRoom};
ghost use Rattle.level_board.specs.Board.{HasValidState, IsClear, IsLoad, IsLower, words_of};

use crate::view::{Clear, Copied, Draw, Falls, Key, Learn, Lesser, Look, Lower, View};
use atomic_table::{Seat, Table};
use direction_set::Directions;
use game_model::Game;
use level_table::{Level, LevelTable, Note, Notes, Problem, level_of, word_of};
use std::alloc::{AllocError, Global};
use std::marker::Model;
use std::snapshot::Snapshot;

/// The words of the levels, one for each row, and the claim word behind them, shared between threads. Row `r` is
/// direction `r % directions` of state `r / directions`. Levels are in units of `1/E`.
#[derive(Drop)]
pub struct Board<'g> {
    table: Table<(), View, Key, Falls, Global>,
    problem: Problem<'g>,
}

impl<'g> Model for Board<'g> {
    ghost use Rattle.std.specs.Prelude.{◌≡◌, ◌+◌};
    ghost use Rattle.schedule_core.specs.Frame.{IsFrame, rows_of};
    ghost use Rattle.level_board.specs.Board.{BoardId};
    ghost use Rattle.level_board.specs.Rule.{frame_of_key};

    ghost Value = { BoardId };

    ghost view = { λ b. record { table = b.table.shared.table_id; frame = frame_of_key b.table.shared.key } };

    ghost invariant = { λ b.
        IsFrame (frame_of_key b.table.shared.key)
        × (b.table.shared.table_id.words ≡ rows_of (frame_of_key b.table.shared.key) + 1)
        × (b.table.shared.table_id.slots ≡ 0)
        × (b.problem ≡ (frame_of_key b.table.shared.key).problem) };
}

/// A seat at the board, which knows the levels that it has last seen.
#[derive(Drop)]
pub struct Pass {
    seat: Seat<(), View>,
}

impl Model for Pass {
    ghost use Rattle.std.specs.Prelude.{◌≡◌, [], false};
    ghost use Rattle.level_board.specs.Board.{PassView};
    ghost use Rattle.level_board.specs.Rule.{IsPass, view_of};

    ghost Value = { PassView };

    ghost view = { λ p. view_of p.seat.table_id p.seat.me.0 };

    ghost invariant = { λ p. IsPass p.seat.me.0 × (p.seat.me.0.owner ≡ false) × (p.seat.me.1 ≡ []) };
}

/// The first seat, which alone clears states, with the notes that say why.
#[derive(Drop)]
pub struct Owner {
    seat: Seat<(), View>,
    notes: Notes,
}

impl Model for Owner {
    ghost use Rattle.std.specs.Prelude.{◌≡◌, []};
    ghost use Rattle.schedule_core.specs.Room.{HasRoom};
    ghost use Rattle.level_board.specs.Board.{OwnerView};
    ghost use Rattle.level_board.specs.Rule.{IsOwner, frame_of, owner_of};

    ghost Value = { OwnerView };

    ghost view = { λ o. owner_of o.seat.table_id o.seat.me.0 o.notes.list };

    ghost invariant = { λ o.
        IsOwner o.seat.me.0 o.notes.list
        × (o.seat.me.1 ≡ [])
        × HasRoom (frame_of o.seat.me.0).problem.game o.notes };
}

impl Pass {
    /// A law: each level that a pass has seen bounds, and is at least that of every supported table at most the start.
    pub fn rules(&self)
        ensures seen { IsSeen self.now.board.frame self.now.seen }
        ensures bounds { BoundsEach self.now.board.frame self.now.seen }
    {
        let _ = &self.seat;
    }
}

impl Owner {
    /// A law: the same of the owner. The notes are right, and each state where the owner has seen an Empty has one.
    pub fn rules(&self)
        ensures seen { IsSeen self.now.board.frame self.now.seen }
        ensures bounds { BoundsEach self.now.board.frame self.now.seen }
        ensures kept { AreKept self.now.board.frame self.now.notes }
        ensures named { NamesEmpty self.now.board.frame self.now.notes self.now.seen }
    {
        let _ = &self.seat;
    }
}

impl<'g> Board<'g> {
    /// A law: the problem is within its limits, and the start bounds.
    pub fn rules(&self)
        ensures { IsFrame self.now.frame }
    {
        let _ = &self.table;
    }

    /// The number of rows.
    pub fn rows(&self) -> u32
        ensures { result ≡ rows_of self.now.frame }
    {
        (self.table.word_count() - 1) as u32
    }

    /// The game, the directions and the grid that the board was opened with.
    pub fn problem(&self) -> &Problem<'g>
        ensures { result.now ≡ self.now.frame.problem }
    {
        &self.problem
    }

    /// A board whose words are a start, and its owner, who has seen it and has its notes.
    pub fn open(
        alloc: Global,
        game: &'g Game,
        dirs: &'g Directions,
        grid: u32,
        start: &LevelTable,
        notes: Notes,
    ) -> Result<(Board<'g>, Owner), AllocError>
        requires players { dirs.now.players ≡ game.now.players }
        requires grid { grid ≤ 30 }
        requires start { IsOpened (frame_from game.now dirs.now grid start.now) notes.list }
        requires room { HasRoom game.now notes }
        ensures frame { IfOk result (λ b. b.0.frame ≡ frame_from game.now dirs.now grid start.now) }
        ensures board { IfOk result (λ b. b.1.board ≡ b.0) }
        ensures seen { IfOk result (λ b. b.1.seen ≡ start.now) }
        ensures notes { IfOk result (λ b. b.1.notes ≡ notes.list) }
    {
        let problem = Problem::new(game, dirs, grid);
        start.states();
        let key = Key {
            game: Snapshot::of(game),
            directions: Snapshot::of(dirs),
            grid,
            start: Snapshot::of(start),
        };
        let words = words_of(alloc, start)?;
        let (table, seat) = Table::of_words(alloc, &words, &key)?;
        Ok((Board { table, problem }, Owner { seat, notes }))
    }

    /// Loads the level of the row, which the pass has then seen.
    pub fn load(&self, pass: &mut Pass, row: u32) -> Level
        requires board { pass.old.board ≡ self.now }
        requires row { row < rows_of self.now.frame }
        ensures event { IsLoad self.now.frame row pass.old.seen result pass.new.seen }
        ensures board { pass.new.board ≡ pass.old.board }
        ensures seen { pass.new.seen ≡ with_level pass.old.seen row result }
        ensures fell { AtMost result (level_at pass.old.seen row) }
        ensures fallen { IsFallen pass.old.seen pass.new.seen }
        ensures drawn { pass.new.drawn ≡ pass.old.drawn }
        ensures above { IsAbove self.now.frame row result }
        ensures bounds { BoundsRow self.now.frame row result }
    {
        let word = self.table.shared.load::<Look>(&mut pass.seat, row as usize);
        level_of(word)
    }

    /// Lowers the row to the level by one fetch-min, and answers its old level. The pass has then seen the lesser of
    /// both. The level is the row level of what the pass has seen.
    pub fn lower(&self, pass: &mut Pass, row: u32, level: i64) -> Level
        requires board { pass.old.board ≡ self.now }
        requires row { row < rows_of self.now.frame }
        requires level { IsRowLevelOf self.now.frame pass.old.seen row (At level) }
        ensures event { IsLower self.now.frame row level pass.old.seen result pass.new.seen }
        ensures board { pass.new.board ≡ pass.old.board }
        ensures seen { pass.new.seen ≡ with_level pass.old.seen row (lesser result (At level)) }
        ensures back { AtMost (level_at pass.new.seen row) (At level) }
        ensures fell { AtMost result (level_at pass.old.seen row) }
        ensures fallen { IsFallen pass.old.seen pass.new.seen }
        ensures drawn { pass.new.drawn ≡ pass.old.drawn }
        ensures above { IsAbove self.now.frame row result }
        ensures bounds { BoundsRow self.now.frame row result }
    {
        let shared = &self.table.shared;
        let seat = &mut pass.seat;
        let new = word_of(Level::At(level));
        let old = shared.fetch_min::<Lower>(seat, row as usize, new);
        level_of(old)
    }

    /// The same load by the owner. A row that it finds Empty is of a state that has a note.
    pub fn load_owner(&self, owner: &mut Owner, row: u32) -> Level
        requires board { owner.old.board ≡ self.now }
        requires row { row < rows_of self.now.frame }
        ensures event { IsLoad self.now.frame row owner.old.seen result owner.new.seen }
        ensures board { owner.new.board ≡ owner.old.board }
        ensures seen { owner.new.seen ≡ with_level owner.old.seen row result }
        ensures fell { AtMost result (level_at owner.old.seen row) }
        ensures fallen { IsFallen owner.old.seen owner.new.seen }
        ensures drawn { owner.new.drawn ≡ owner.old.drawn }
        ensures notes { owner.new.notes ≡ owner.old.notes }
        ensures above { IsAbove self.now.frame row result }
        ensures bounds { BoundsRow self.now.frame row result }
        ensures named { result ≡ Empty → NamedRow self.now.frame owner.new.notes row }
    {
        let word = self
            .table
            .shared
            .load::<Look>(&mut owner.seat, row as usize);
        level_of(word)
    }

    /// The same lowering by the owner.
    pub fn lower_owner(&self, owner: &mut Owner, row: u32, level: i64) -> Level
        requires board { owner.old.board ≡ self.now }
        requires row { row < rows_of self.now.frame }
        requires level { IsRowLevelOf self.now.frame owner.old.seen row (At level) }
        ensures event { IsLower self.now.frame row level owner.old.seen result owner.new.seen }
        ensures board { owner.new.board ≡ owner.old.board }
        ensures seen { owner.new.seen ≡ with_level owner.old.seen row (lesser result (At level)) }
        ensures back { AtMost (level_at owner.new.seen row) (At level) }
        ensures fell { AtMost result (level_at owner.old.seen row) }
        ensures fallen { IsFallen owner.old.seen owner.new.seen }
        ensures drawn { owner.new.drawn ≡ owner.old.drawn }
        ensures notes { owner.new.notes ≡ owner.old.notes }
        ensures above { IsAbove self.now.frame row result }
        ensures bounds { BoundsRow self.now.frame row result }
    {
        let shared = &self.table.shared;
        let seat = &mut owner.seat;
        let new = word_of(Level::At(level));
        let found = shared.fetch_min::<Lower>(seat, row as usize, new);
        level_of(found)
    }

    /// Makes a row of a named state Empty by one fetch-min, and answers its old level.
    pub fn clear(&self, owner: &mut Owner, row: u32) -> Level
        requires board { owner.old.board ≡ self.now }
        requires row { row < rows_of self.now.frame }
        requires named { NamedRow self.now.frame owner.old.notes row }
        ensures event { IsClear self.now.frame row owner.old.seen result owner.new.seen }
        ensures board { owner.new.board ≡ owner.old.board }
        ensures seen { owner.new.seen ≡ with_level owner.old.seen row Empty }
        ensures fell { AtMost result (level_at owner.old.seen row) }
        ensures fallen { IsFallen owner.old.seen owner.new.seen }
        ensures drawn { owner.new.drawn ≡ owner.old.drawn }
        ensures notes { owner.new.notes ≡ owner.old.notes }
        ensures above { IsAbove self.now.frame row result }
        ensures bounds { BoundsRow self.now.frame row result }
    {
        let old = self
            .table
            .shared
            .fetch_min::<Clear>(&mut owner.seat, row as usize, 0);
        level_of(old)
    }

    /// Keeps a note that is right over what the owner has seen beside the notes so far, and leaves behind an empty one
    /// whose list has room for the reasons of any state. No word changes.
    pub fn keep(&self, owner: &mut Owner, note: &mut Note)
        requires board { owner.old.board ≡ self.now }
        requires note { IsNoteOver self.now.frame owner.old.seen owner.old.notes note.old }
        ensures board { owner.new.board ≡ owner.old.board }
        ensures seen { owner.new.seen ≡ owner.old.seen }
        ensures drawn { owner.new.drawn ≡ owner.old.drawn }
        ensures notes { owner.new.notes ≡ owner.old.notes ++ note.old ∷ [] }
        ensures left { note.new.reasons.list ≡ [] }
        ensures room { HasRoomFor self.now.frame.problem.game note.new.reasons.spare }
    {
        let _shared = &self.table.shared;
        owner.notes.add(note);
    }

    /// The notes of the owner.
    pub fn notes<'o>(&self, owner: &'o Owner) -> &'o Notes
        requires { owner.now.board ≡ self.now }
        ensures { result.now.list ≡ owner.now.notes }
    {
        &owner.notes
    }

    /// The number of the claim word, which rises by one. After 2^64 draws it begins again at 0.
    pub fn draw(&self, pass: &mut Pass) -> u64
        requires board { pass.old.board ≡ self.now }
        ensures board { pass.new.board ≡ pass.old.board }
        ensures seen { pass.new.seen ≡ pass.old.seen }
        ensures drawn { pass.new.drawn ≡ result }
    {
        let claim = self.table.word_count() - 1;
        self.table
            .shared
            .fetch_add::<Draw>(&mut pass.seat, claim, 1)
    }

    /// The same draw by the owner.
    pub fn draw_owner(&self, owner: &mut Owner) -> u64
        requires board { owner.old.board ≡ self.now }
        ensures board { owner.new.board ≡ owner.old.board }
        ensures seen { owner.new.seen ≡ owner.old.seen }
        ensures drawn { owner.new.drawn ≡ result }
        ensures notes { owner.new.notes ≡ owner.old.notes }
    {
        let last = self.table.word_count() - 1;
        self.table
            .shared
            .fetch_add::<Draw>(&mut owner.seat, last, 1)
    }

    /// A pass that has seen what the owner has seen, who loads row 0 first.
    pub fn split(&self, owner: &mut Owner) -> Pass
        requires board { owner.old.board ≡ self.now }
        ensures board { owner.new.board ≡ owner.old.board }
        ensures same { result.board ≡ owner.old.board }
        ensures copy { result.seen ≡ owner.new.seen }
        ensures event { IsLoad self.now.frame 0 owner.old.seen (level_at owner.new.seen 0) owner.new.seen }
        ensures first { owner.new.seen ≡ with_level owner.old.seen 0 (level_at owner.new.seen 0) }
        ensures fallen { IsFallen owner.old.seen owner.new.seen }
        ensures drawn { owner.new.drawn ≡ owner.old.drawn }
        ensures notes { owner.new.notes ≡ owner.old.notes }
    {
        let shared = &self.table.shared;
        self.load_owner(owner, 0);
        let seat = shared.split_seat::<Copied>(&mut owner.seat);
        Pass { seat }
    }

    /// A pass that has seen what this pass has seen, which loads row 0 first.
    pub fn split_pass(&self, pass: &mut Pass) -> Pass
        requires board { pass.old.board ≡ self.now }
        ensures board { pass.new.board ≡ pass.old.board }
        ensures same { result.board ≡ pass.old.board }
        ensures copy { result.seen ≡ pass.new.seen }
        ensures event { IsLoad self.now.frame 0 pass.old.seen (level_at pass.new.seen 0) pass.new.seen }
        ensures first { pass.new.seen ≡ with_level pass.old.seen 0 (level_at pass.new.seen 0) }
        ensures fallen { IsFallen pass.old.seen pass.new.seen }
        ensures drawn { pass.new.drawn ≡ pass.old.drawn }
    {
        let shared = &self.table.shared;
        self.load(pass, 0);
        let seat = shared.split_seat::<Copied>(&mut pass.seat);
        Pass { seat }
    }

    /// The owner loads row 0, and has then seen the lesser of what both had seen in each row.
    pub fn join(&self, owner: &mut Owner, pass: Pass)
        requires board { owner.old.board ≡ self.now }
        requires same { pass.board ≡ self.now }
        ensures board { owner.new.board ≡ owner.old.board }
        ensures seen { (first : Level)
            × IsLoad self.now.frame 0 owner.old.seen first (with_level owner.old.seen 0 first)
            × AtMost first (level_at owner.old.seen 0)
            × (owner.new.seen ≡ lesser_table (with_level owner.old.seen 0 first) pass.seen) }
        ensures fallen { IsFallen owner.old.seen owner.new.seen }
        ensures below { IsFallen pass.seen owner.new.seen }
        ensures drawn { owner.new.drawn ≡ owner.old.drawn }
        ensures notes { owner.new.notes ≡ owner.old.notes }
    {
        let shared = &self.table.shared;
        self.load_owner(owner, 0);
        let Pass { seat } = pass;
        shared.join_seat::<Lesser>(&mut owner.seat, seat);
        shared.load::<Learn>(&mut owner.seat, 0);
    }

    /// The notes of the owner. What is left of the words and passes shows a valid core state with this owner.
    pub fn into_notes(self, owner: Owner) -> Notes
        requires { owner.board ≡ self }
        ensures notes { result.list ≡ owner.notes }
        ensures room { HasRoom self.entry.frame.problem.game result }
        ensures valid { HasValidState self.entry.frame owner }
    {
        let Board { table, problem: _ } = self;
        let Owner { seat, notes } = owner;
        let closed = table.close_with(seat);
        closed.free();
        notes
    }
}

/// The words of the levels of a table, and 0 behind them.
fn words_of(alloc: Global, table: &LevelTable) -> Result<Vec<u64>, AllocError>
    requires { (row : ℕ) → row < length table.now.levels → IsSmall (level_at table.now row) }
    ensures { IfOk result (λ v. v.items ≡ words_of table.now.levels 0) }
{
    let mut words = Vec::new(alloc);
    for row in 0..table.rows() {
        words.push(word_of(table.get(row)))?;
    }
    words.push(0)?;
    Ok(words)
}
