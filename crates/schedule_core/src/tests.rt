ghost use Rattle.std.specs.Prelude.{◌≡◌, ◌≤◌, [], IfOk};
ghost use Rattle.schedule_core.specs.Runs.{started};

use super::*;
use direction_set::Directions;
use game_model::Game;
use game_model::worked::dilemma;
use level_table::{Level, Notes, OpeningFault, opening};
use std::alloc::Global;
use std::test::Fail;

/// Two workers at the opening.
fn start_at_opening<'g>(
    alloc: Global,
    game: &'g Game,
    dirs: &'g Directions,
    grid: u32,
) -> Result<CoreState<'g>, OpeningFault>
    requires players { dirs.now.players ≡ game.now.players }
    requires grid { grid ≤ 30 }
    ensures { IfOk result (λ c. c.readers ≡ (started c.frame 1 []).readers) }
{
    let table = opening(alloc, game, dirs, grid)?;
    game.players();
    dirs.rules();
    table.states();
    match Notes::with_room(alloc, game) {
        Ok(notes) => match CoreState::start(alloc, game, dirs, grid, &table, 2, notes) {
            Ok(core) => Ok(core),
            Err(_) => Err(OpeningFault::NoMemory),
        },
        Err(_) => Err(OpeningFault::NoMemory),
    }
}

#[test]
fn a_core_is_started_and_read(rt: HostRuntime) -> Result<(), Fail> {
    let parts = dilemma(rt.alloc())?;
    let game = Game::build(parts).ok().ok_or("the parts fit")?;
    let dirs = Directions::of(2, 4).ok_or("two players have four directions")?;
    assert_eq!(rt; game.players(), 2);
    assert_eq!(rt; dirs.players(), 2);
    let mut core = start_at_opening(rt.alloc(), &game, &dirs, 4)?;
    core.rules();
    let rows = core.levels().rows();
    assert!(rt; rows == 4);
    step(&mut core, Event::Load { w: 1, row: 2 });
    assert_eq!(rt; core.notes().len(), 0);
    let (words, notes) = core.into_parts();
    assert!(rt; words.rows() == 4);
    for (row, level) in [(0, 48), (1, 0), (2, 48), (3, 0)] {
        assert_eq!(rt; words.get(row), Level::At(level), "row {row}");
    }
    assert_eq!(rt; notes.len(), 0);
    Ok(())
}
