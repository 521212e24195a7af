ghost use Rattle.std.specs.Prelude.{◌≡◌, ◌≢◌, ℕ, ◌*◌, ◌%◌, ◌<◌, ◌≤◌, ◌↔◌, length, slice_set, slice_index_or, replicate, pos, IsTrue, IfOk};
ghost use Rattle.level_table.specs.declared.level.Level.TheVariants.{Empty, At};
ghost use Rattle.level_table.specs.Levels.{AtMost, IsNumber, lesser, level_at, levels_in};
ghost use Rattle.level_table.specs.Tables.{IsPut, IsWhole};

use super::level::{Level, at_most, lesser as lesser_of};
use std::alloc::{AllocError, Global};
use std::marker::Model;

/// A level for each state and direction. Row `s * directions + k` is direction `k` of state `s`.
/// Contracts see it as a `Table`.
#[derive(Drop)]
pub struct LevelTable {
    states: u32,
    directions: u32,
    levels: Vec<Level>,
}

impl Model for LevelTable {
    ghost use Rattle.level_table.specs.Levels.{Table};
    ghost use Rattle.level_table.specs.Tables.{IsWhole};

    ghost Value = { Table };

    ghost view = { λ t. record { states = t.states; directions = t.directions; levels = t.levels.items } };

    ghost invariant = { λ t. IsWhole (record { states = t.states; directions = t.directions; levels = t.levels.items }) };
}

impl LevelTable {
    /// The table with every level Empty.
    pub fn empty(alloc: Global, states: u32, directions: u32) -> Result<LevelTable, AllocError>
        requires some_state { 1 ≤ states }
        requires few_states { states ≤ 64 }
        requires some_direction { 1 ≤ directions }
        requires few_directions { directions ≤ 32 }
        ensures { IfOk result (λ t. t ≡ record { states = states; directions = directions; levels = replicate (states * directions) Empty }) }
    {
        let rows = (states * directions) as usize;
        let mut levels = Vec::with_capacity(alloc, rows)?;
        for _ in 0..rows {
            levels.push(Level::Empty)?;
        }
        Ok(LevelTable {
            states,
            directions,
            levels,
        })
    }

    /// The table in which each state has these levels, one for each direction.
    pub(crate) fn uniform(
        alloc: Global,
        states: u32,
        directions: u32,
        each: &[i64; 32],
    ) -> Result<LevelTable, AllocError>
        requires some_state { 1 ≤ states }
        requires few_states { states ≤ 64 }
        requires some_direction { 1 ≤ directions }
        requires few_directions { directions ≤ 32 }
        ensures states { IfOk result (λ t. t.states ≡ states) }
        ensures directions { IfOk result (λ t. t.directions ≡ directions) }
        ensures levels { IfOk result (λ t. (row : ℕ) → row < states * directions → level_at t row ≡ At (slice_index_or each.now (row % directions) (pos 0))) }
        ensures whole { IfOk result IsWhole }
    {
        let rows = states * directions;
        let mut levels = Vec::with_capacity(alloc, rows as usize)?;
        for row in 0..rows {
            levels.push(Level::At(each[(row % directions) as usize]))?;
        }
        Ok(LevelTable {
            states,
            directions,
            levels,
        })
    }

    /// The number of states, 1 to 64.
    pub fn states(&self) -> u32
        ensures count { result ≡ self.now.states }
        ensures whole { IsWhole self.now }
    {
        self.states
    }

    /// The number of directions, 1 to 32.
    pub fn directions(&self) -> u32
        ensures { result ≡ self.now.directions }
    {
        self.directions
    }

    /// The number of rows, which is states times directions.
    pub fn rows(&self) -> u32
        ensures { result ≡ length self.now.levels }
    {
        self.levels.len() as u32
    }

    /// The level of a row.
    pub fn get(&self, row: u32) -> Level
        requires { row < length self.now.levels }
        ensures { result ≡ level_at self.now row }
    {
        self.levels[row as usize]
    }

    /// The level of direction `dir` of a state.
    pub fn at(&self, state: u32, dir: u32) -> Level
        requires state { state < self.now.states }
        requires dir { dir < self.now.directions }
        ensures level { result ≡ levels_in self.now state dir }
        ensures whole { IsWhole self.now }
    {
        self.levels[(state * self.directions + dir) as usize]
    }

    /// Whether each level of a state is a number.
    pub fn is_known(&self, state: u32) -> bool
        requires { state < self.now.states }
        ensures known { IsTrue result ↔ ((k : ℕ) → k < self.now.directions → IsNumber (levels_in self.now state k)) }
    {
        for dir in 0..self.directions {
            if self.at(state, dir) == Level::Empty {
                return false;
            }
        }
        true
    }

    /// Puts `level` in the place of the level of direction `dir` of a state.
    pub fn put(&mut self, state: u32, dir: u32, level: Level)
        requires state { state < self.old.states }
        requires dir { dir < self.old.directions }
        ensures { IsPut self.old self.new state dir level }
    {
        self.set(state * self.directions + dir, level);
    }

    /// Lowers the level of direction `dir` of a state to `level`, if that is less.
    pub fn lower(&mut self, state: u32, dir: u32, level: Level)
        requires state { state < self.old.states }
        requires dir { dir < self.old.directions }
        ensures { IsPut self.old self.new state dir (lesser (levels_in self.old state dir) level) }
    {
        let old = self.at(state, dir);
        self.put(state, dir, lesser_of(old, level));
    }

    /// Makes each level of a state Empty.
    pub fn clear_state(&mut self, state: u32)
        requires { state < self.old.states }
        ensures states { self.new.states ≡ self.old.states }
        ensures directions { self.new.directions ≡ self.old.directions }
        ensures cleared { (k : ℕ) → k < self.old.directions → levels_in self.new state k ≡ Empty }
        ensures others { (t k : ℕ) → t ≢ state → k < self.old.directions → levels_in self.new t k ≡ levels_in self.old t k }
        ensures whole { IsWhole self.new }
    {
        for dir in 0..self.directions {
            self.put(state, dir, Level::Empty);
        }
    }

    /// Puts `level` in the place of the row's level.
    pub fn set(&mut self, row: u32, level: Level)
        requires { row < length self.old.levels }
        ensures { self.new ≡ record self.old { levels = slice_set self.old.levels row level } }
    {
        self.levels[row as usize] = level;
    }

    /// A table with the same levels.
    pub fn copy(&self, alloc: Global) -> Result<LevelTable, AllocError>
        ensures { IfOk result (λ t. t ≡ self.now) }
    {
        let levels = Vec::from_slice(alloc, &self.levels)?;
        Ok(LevelTable {
            states: self.states,
            directions: self.directions,
            levels,
        })
    }
}

/// Whether each row of `a` is at most that of `b`, a table of the same sizes.
pub fn below(a: &LevelTable, b: &LevelTable) -> bool
    requires states { a.now.states ≡ b.now.states }
    requires directions { a.now.directions ≡ b.now.directions }
    ensures { IsTrue result ↔ ((row : ℕ) → row < length a.now.levels → AtMost (level_at a.now row) (level_at b.now row)) }
{
    for row in 0..a.levels.len() {
        if !at_most(a.levels[row], b.levels[row]) {
            return false;
        }
    }
    true
}
