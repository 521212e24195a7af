ghost use Rattle.std.specs.Prelude.{◌≡◌, ◌≤◌, IfOk};

use super::*;
use direction_set::Directions;
use game_model::Game;
use game_model::worked::dilemma;
use level_board::{Board, Owner};
use level_table::{Level, Notes, OpeningFault, opening};
use std::alloc::Global;
use std::test::Fail;

/// A board at the opening.
fn open_at_opening<'g>(
    alloc: Global,
    game: &'g Game,
    dirs: &'g Directions,
    grid: u32,
) -> Result<(Board<'g>, Owner), OpeningFault>
    requires players { dirs.now.players ≡ game.now.players }
    requires grid { grid ≤ 30 }
    ensures board { IfOk result (λ b. b.1.board ≡ b.0) }
{
    let table = opening(alloc, game, dirs, grid)?;
    game.players();
    dirs.rules();
    table.states();
    match Notes::with_room(alloc, game) {
        Ok(notes) => match Board::open(alloc, game, dirs, grid, &table, notes) {
            Ok(made) => Ok(made),
            Err(_) => Err(OpeningFault::NoMemory),
        },
        Err(_) => Err(OpeningFault::NoMemory),
    }
}

// Neither pass was joined, so the second learns of the first by its loads.
#[test]
fn a_pass_updates_under_what_another_lowered(rt: HostRuntime) -> Result<(), Fail> {
    let parts = dilemma(rt.alloc())?;
    let game = Game::build(parts).ok().ok_or("the parts fit")?;
    let dirs = Directions::of(2, 4).ok_or("two players have four directions")?;
    assert_eq!(rt; game.players(), 2);
    assert_eq!(rt; dirs.players(), 2);
    let (board, mut owner) = open_at_opening(rt.alloc(), &game, &dirs, 4)?;
    let mut one = board.split(&mut owner);
    let mut two = board.split(&mut owner);
    let mut scratch = Scratch::new(rt.alloc(), board.problem())?;
    assert!(rt; board.rows() == 4);
    let first = update(&board, &mut one, &mut scratch, 1);
    assert_eq!(rt; first, UpdateNote::Lowered { level: -8 });
    let first = update(&board, &mut one, &mut scratch, 1);
    assert_eq!(rt; first, UpdateNote::Lowered { level: -12 });
    let second = update(&board, &mut two, &mut scratch, 1);
    assert_eq!(rt; second, UpdateNote::Lowered { level: -14 });
    let other = update(&board, &mut two, &mut scratch, 0);
    assert_eq!(rt; other, UpdateNote::Lowered { level: 48 });
    assert_eq!(rt; board.load_owner(&mut owner, 1), Level::At(-14));
    Ok(())
}
