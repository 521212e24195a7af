//! What a pass works on.

ghost use Rattle.std.specs.Prelude.{◌≡◌, ℕ, ◌*◌, ◌%◌, ◌<◌, ◌≤◌, length, IfOk, IsTrue};
ghost use Rattle.game_model.specs.Game.{states};
ghost use Rattle.level_table.specs.declared.level.Level.TheVariants.{Empty};
ghost use Rattle.level_table.specs.Levels.{IsNumber, IsSmall, level_at, levels_in};
ghost use Rattle.level_table.specs.Problem.{direction_count};
ghost use Rattle.level_table.specs.Tables.{HasSmallOpening, IsSmallTable};
ghost use Rattle.schedule_core.specs.Frame.{with_level};
ghost use Rattle.set_operator.specs.Prepared.{IsPrepared};
ghost use Rattle.worker_pass.specs.Scratches.{IsScratch};

use level_table::{Level, LevelTable, Note, Problem, ReasonList, most_profiles};
use set_operator::{Prepared, stays_prepared};
use std::alloc::{AllocError, Global};

/// The levels that a pass has loaded, in units of `1/E`, and all the room that updates and clearings want.
#[derive(Drop)]
pub struct Scratch {
    pub levels: LevelTable,
    /// Where the note of a state is written.
    pub note: Note,
    pub(crate) prepared: Prepared,
    /// The state that is ready under the levels.
    pub(crate) ready: Option<u32>,
    /// For each row the profile that was best last time.
    pub(crate) hints: Vec<u32>,
}

impl Scratch {
    /// Room for the problem, with each level Empty.
    pub fn new(alloc: Global, p: &Problem) -> Result<Scratch, AllocError>
        ensures scratch { IfOk result (IsScratch p.now) }
        ensures empty { IfOk result (λ w. (row : ℕ) → level_at w.levels row ≡ Empty) }
    {
        p.rules();
        let levels = LevelTable::empty(alloc, p.states(), p.directions())?;
        let reasons = ReasonList::with_room(alloc, most_profiles(p.game()))?;
        let prepared = Prepared::with_room(alloc, p.game())?;
        let hints = zeros(alloc, levels.rows())?;
        Ok(Scratch {
            levels,
            note: Note { state: 0, reasons },
            prepared,
            ready: None,
            hints,
        })
    }

    /// The same room with other levels.
    pub fn with_levels(self, p: &Problem, levels: LevelTable) -> Scratch
        requires scratch { IsScratch p.now self }
        requires table { IsSmallTable p.now levels }
        ensures scratch { IsScratch p.now result }
        ensures levels { result.levels ≡ levels }
    {
        Scratch {
            levels,
            note: self.note,
            prepared: self.prepared,
            ready: None,
            hints: self.hints,
        }
    }

    /// Puts a level into a row.
    pub(crate) fn put(&mut self, p: &Problem, row: u32, level: Level)
        requires scratch { IsScratch p.now self.old }
        requires row { row < length self.old.levels.levels }
        requires small { IsSmall level }
        ensures scratch { IsScratch p.now self.new }
        ensures levels { self.new.levels ≡ with_level self.old.levels row level }
    {
        let old = self.levels.get(row);
        if old != level {
            self.change(p, row, old, level);
        }
    }

    /// Puts another level into a row. The state that is ready stays so where the row has a number of no axis.
    fn change(&mut self, p: &Problem, row: u32, old: Level, level: Level)
        requires scratch { IsScratch p.now self.old }
        requires row { row < length self.old.levels.levels }
        requires old { old ≡ level_at self.old.levels row }
        requires small { IsSmall level }
        ensures scratch { IsScratch p.now self.new }
        ensures levels { self.new.levels ≡ with_level self.old.levels row level }
    {
        stays_prepared();
        p.rules();
        self.levels.set(row, level);
        if !keeps_axes(p, row, old, level) {
            self.ready = None;
        }
    }

    /// Makes a state ready under the levels.
    pub(crate) fn make_ready(&mut self, p: &Problem, s: u32)
        requires scratch { IsScratch p.now self.old }
        requires opening { HasSmallOpening p.now }
        requires state { s < states p.now.game }
        ensures scratch { IsScratch p.now self.new }
        ensures levels { self.new.levels ≡ self.old.levels }
        ensures state { self.new.prepared.state ≡ s }
        ensures ready { IsPrepared p.now (levels_in self.new.levels) self.new.prepared }
    {
        if let Some(state) = self.ready {
            if state == s {
                return;
            }
        }
        self.prepared.prepare(p, &self.levels, s);
        self.ready = Some(s);
    }
}

/// Whether a row of numbers is of no axis.
fn keeps_axes(p: &Problem, row: u32, old: Level, level: Level) -> bool
    ensures { IsTrue result → (2 * p.now.game.players ≤ row % direction_count p.now) × IsNumber old × IsNumber level }
{
    p.rules();
    match (old, level) {
        (Level::At(_), Level::At(_)) => row % p.directions() >= 2 * p.players(),
        _ => false,
    }
}

/// So many zeros.
fn zeros(alloc: Global, count: u32) -> Result<Vec<u32>, AllocError>
    ensures { IfOk result (λ v. length v.items ≡ count) }
{
    let mut all = Vec::with_capacity(alloc, count as usize)?;
    for _ in 0..count {
        all.push(0)?;
    }
    Ok(all)
}
