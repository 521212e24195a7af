//! A state made ready under the present levels, once for all directions.

ghost use Rattle.std.specs.Prelude.{◌≡◌, ℕ, ◌+◌, ◌*◌, ◌<◌, ◌≤◌, ◌^◌, ◌↔◌, [], length, slice_index_or, vec_capacity, None, IsTrue, IfOk, IfSome, IfNone};
ghost use Rattle.game_model.specs.Game.{states, counts, profile_count};
ghost use Rattle.level_table.specs.Levels.{Levels, levels_in};
ghost use Rattle.level_table.specs.Notes.{HasRoomFor};
ghost use Rattle.level_table.specs.Operator.{Admissible, Fractions, HasAdmissible};
ghost use Rattle.level_table.specs.Problem.{Problem as ProblemRecord};
ghost use Rattle.level_table.specs.Problem.{IsProblem, direction_count};
ghost use Rattle.level_table.specs.Reasons.{AreReasonsOver};
ghost use Rattle.level_table.specs.Tables.{HasSmallOpening, IsSmallTable};
ghost use Rattle.set_operator.specs.Answers.{IsRowAnswer};
ghost use Rattle.set_operator.specs.Lines.{AreAll};
ghost use Rattle.set_operator.specs.Prepared.{IsBoxAt, IsLesser, IsPrepared, KeepsAxes, PreparedState};
ghost use Rattle.set_operator.specs.Search.{IsLargestSoFar, IsLeader};

use crate::best::{Best, best_of};
use crate::boxes::{ProfileBox, known_states};
use crate::lesser::Lesser;
use crate::lines::{Asks, fill_asks};
use crate::most::discounts_of;
use crate::program::some_rows;
use crate::reasons::explain;
use crate::row::RowAnswer;
use crate::search::{Row, answer_of, first_best, leader, level_of};
use crate::sides::box_by;
use game_model::Game;
use level_table::{LevelTable, Problem, ReasonList, most_profiles};
use lp_cert::Rows;
use std::alloc::{AllocError, Global};
use std::marker::Model;

/// The programs of a state's profiles under a table of levels, made once for all directions of the state. They stay
/// right where a level of another direction than the axes falls.
#[derive(Drop)]
pub struct Prepared {
    state: u32,
    flags: [bool; 64],
    asks: Vec<Option<Asks>>,
    boxes: Vec<Option<ProfileBox>>,
    room: u32,
}

impl Model for Prepared {
    ghost use Rattle.std.specs.Prelude.{◌*◌, ◌≤◌, vec_len, vec_capacity};
    ghost use Rattle.set_operator.specs.Prepared.{PreparedState};

    ghost Value = { PreparedState };

    ghost view = { λ a. record { state = a.state; flags = a.flags; boxes = a.boxes.items; room = a.room } };

    ghost invariant = { λ a. (a.room ≤ vec_capacity a.boxes) × (3 * a.room ≤ vec_capacity a.asks) };
}

impl Prepared {
    /// Room for as many profiles as any state of the game has. Nothing is ready yet.
    pub fn with_room(alloc: Global, game: &Game) -> Result<Prepared, AllocError>
        ensures { IfOk result (λ q. HasRoomFor game.now q.room) }
    {
        let room = most_profiles(game);
        Ok(Prepared {
            state: 0,
            flags: [false; 64],
            asks: Vec::with_capacity(alloc, 3 * room as usize)?,
            boxes: Vec::with_capacity(alloc, room as usize)?,
            room,
        })
    }

    /// Makes a state ready under these levels. No memory is taken.
    pub fn prepare(&mut self, p: &Problem, levels: &LevelTable, state: u32)
        requires table { IsSmallTable p.now levels.now }
        requires opening { HasSmallOpening p.now }
        requires state { state < states p.now.game }
        requires room { HasRoomFor p.now.game self.old.room }
        ensures ready { IsPrepared p.now (levels_in levels.now) self.new }
        ensures state { self.new.state ≡ state }
        ensures room { self.new.room ≡ self.old.room }
    {
        p.rules();
        self.state = state;
        self.flags = known_states(p, levels);
        self.asks.clear();
        fill_asks(p, levels, &self.flags, state, &mut self.asks);
        self.boxes.clear();
        fill(p, levels, state, &self.asks, &mut self.boxes);
    }

    /// What the operator says of direction `dir` of the state.
    pub fn answer(&self, p: &Problem, levels: &LevelTable, dir: u32) -> RowAnswer
        requires table { IsSmallTable p.now levels.now }
        requires opening { HasSmallOpening p.now }
        requires ready { IsPrepared p.now (levels_in levels.now) self.now }
        requires dir { dir < direction_count p.now }
        ensures { IsRowAnswer p.now (levels_in levels.now) self.now.state dir result }
    {
        let _count = p.game().profiles(self.state);
        let row = Row {
            state: self.state,
            dir,
            discounts: discounts_of(p),
        };
        let best = first_best(p, levels, row, &self.boxes);
        answer_of(p, levels, row, best)
    }

    /// The lesser of `level` and the row level of direction `dir` of the state, and none where the state admits
    /// nothing. The search begins at profile `first`, and ends at the first profile whose largest value is above
    /// `level - 1`.
    pub fn lesser(
        &self,
        p: &Problem,
        levels: &LevelTable,
        dir: u32,
        level: i64,
        first: u32,
    ) -> Option<Lesser>
        requires table { IsSmallTable p.now levels.now }
        requires opening { HasSmallOpening p.now }
        requires ready { IsPrepared p.now (levels_in levels.now) self.now }
        requires dir { dir < direction_count p.now }
        ensures { IsLesser p.now (levels_in levels.now) self.now.state dir level result }
    {
        let _count = p.game().profiles(self.state);
        let row = Row {
            state: self.state,
            dir,
            discounts: discounts_of(p),
        };
        let mut rows = some_rows();
        let start = best_at(p, levels, row, &self.boxes, first, &mut rows);
        let found = leader(p, levels, row, &self.boxes, level, start, &mut rows);
        lesser_of(p, levels, row, level, found)
    }

    /// Fills the list with one reason for each profile of the state, which admits nothing.
    pub fn explain(&self, p: &Problem, levels: &LevelTable, reasons: &mut ReasonList)
        requires table { IsSmallTable p.now levels.now }
        requires opening { HasSmallOpening p.now }
        requires ready { IsPrepared p.now (levels_in levels.now) self.now }
        requires nothing { HasAdmissible p.now (levels_in levels.now) self.now.state → ⊥ }
        requires room { profile_count (counts p.now.game self.now.state) ≤ length reasons.old.list + reasons.old.spare }
        ensures reasons { AreReasonsOver p.now (levels_in levels.now) self.now.state reasons.new.list }
        ensures room { length reasons.new.list + reasons.new.spare ≡ length reasons.old.list + reasons.old.spare }
    {
        explain(p, levels, &self.flags, self.state, reasons);
    }
}

/// A law: what is ready under a table is ready under another that has the same levels in the directions of the axes,
/// and numbers in the same rows.
pub fn stays_prepared()
    ensures { (p : ProblemRecord) (t u : Levels) (q : PreparedState)
        → IsProblem p → KeepsAxes p t u → IsPrepared p t q → IsPrepared p u q }
{}

/// The boxes of a state's profiles, in order, for which there is room.
fn fill(
    p: &Problem,
    levels: &LevelTable,
    state: u32,
    asks: &[Option<Asks>],
    boxes: &mut Vec<Option<ProfileBox>>,
)
    requires table { IsSmallTable p.now levels.now }
    requires opening { HasSmallOpening p.now }
    requires state { state < states p.now.game }
    requires asks { AreAll p.now (levels_in levels.now) state asks.now }
    requires all { length asks.now ≡ p.now.game.players * profile_count (counts p.now.game state) }
    requires none { boxes.old.items ≡ [] }
    requires room { profile_count (counts p.now.game state) ≤ vec_capacity boxes.old }
    ensures one_each { length boxes.new.items ≡ profile_count (counts p.now.game state) }
    ensures each { (a : ℕ) → a < length boxes.new.items → IsBoxAt p.now (levels_in levels.now) state a (slice_index_or boxes.new.items a None) }
    ensures room { vec_capacity boxes.old ≤ vec_capacity boxes.new }
{
    for a in 0..p.game().profiles(state) {
        match boxes.push(box_by(p, levels, state, a, asks)) {
            Ok(()) => {}
            Err(_) => unreachable!(),
        }
    }
}

/// The largest value of the profile of this number, if there is one that admits something.
fn best_at(
    p: &Problem,
    levels: &LevelTable,
    row: Row,
    programs: &[Option<ProfileBox>],
    first: u32,
    rows: &mut Rows,
) -> Option<Best>
    requires table { IsSmallTable p.now levels.now }
    requires dir { row.dir < direction_count p.now }
    requires one_each { length programs.now ≡ profile_count (counts p.now.game row.state) }
    requires each { (a : ℕ) → a < length programs.now → IsBoxAt p.now (levels_in levels.now) row.state a (slice_index_or programs.now a None) }
    ensures { IsLargestSoFar p.now (levels_in levels.now) row.state row.dir 0 result }
{
    if first as usize >= programs.len() {
        return None;
    }
    match &programs[first as usize] {
        Some(program) => best_of(p, levels, program, row.dir, rows),
        None => None,
    }
}

/// The lesser of a level and what a leader reaches.
fn lesser_of(
    p: &Problem,
    levels: &LevelTable,
    row: Row,
    level: i64,
    found: Option<Best>,
) -> Option<Lesser>
    requires table { IsSmallTable p.now levels.now }
    requires opening { HasSmallOpening p.now }
    requires state { row.state < states p.now.game }
    requires dir { row.dir < direction_count p.now }
    requires some { IfSome found (IsLeader p.now (levels_in levels.now) row.state row.dir level) }
    requires none { IfNone found (IsLargestSoFar p.now (levels_in levels.now) row.state row.dir (profile_count (counts p.now.game row.state)) None) }
    ensures { IsLesser p.now (levels_in levels.now) row.state row.dir level result }
{
    p.rules();
    match found {
        None => None,
        Some(best) => Some(Lesser {
            level: level.min(level_of(p, levels, row, &best)),
            profile: best.profile,
        }),
    }
}
