ghost use Rattle.std.specs.Prelude.{◌≡◌, ℕ, ◌<◌, ◌≤◌, All, IfOk, length, slice_index_or};
ghost use Rattle.game_model.specs.Parts.{shape_of};
ghost use Rattle.level_table.specs.Levels.{AtMost, level_at};
ghost use Rattle.level_table.specs.Worked.{one_profile};
ghost use Rattle.schedule_core.specs.Frame.{rows_of};

use super::*;
use direction_set::Directions;
use game_model::{Game, GameParts};
use level_table::{Level, Notes, OpeningFault, opening};
use std::alloc::{AllocError, Global};
use std::test::Fail;

/// The parts of the game with one profile, payoffs 1 and 2, at discount factor 1/2.
fn one_parts(alloc: Global) -> Result<GameParts, AllocError>
    ensures { IfOk result (λ p. shape_of p ≡ one_profile) }
{
    let sizes = vec![in alloc; 1, 1]?;
    let payoffs = vec![in alloc; 1, 2]?;
    let next = vec![in alloc; 0]?;
    Ok(GameParts {
        players: 2,
        strategies: vec![in alloc; sizes]?,
        payoffs: vec![in alloc; payoffs]?,
        next: vec![in alloc; next]?,
        denominator: 1,
        discounts: vec![in alloc; 1, 1]?,
        q: 2,
    })
}

/// A board at the opening.
fn open_at_opening<'g>(
    alloc: Global,
    game: &'g Game,
    dirs: &'g Directions,
    grid: u32,
) -> Result<(Board<'g>, Owner), OpeningFault>
    requires players { dirs.now.players ≡ game.now.players }
    requires grid { grid ≤ 30 }
    ensures board { IfOk result (λ b. b.1.board ≡ b.0) }
{
    let table = opening(alloc, game, dirs, grid)?;
    game.players();
    dirs.rules();
    table.states();
    match Notes::with_room(alloc, game) {
        Ok(notes) => match Board::open(alloc, game, dirs, grid, &table, notes) {
            Ok(made) => Ok(made),
            Err(_) => Err(OpeningFault::NoMemory),
        },
        Err(_) => Err(OpeningFault::NoMemory),
    }
}

#[test]
fn passes_load_draw_split_and_join(rt: HostRuntime) -> Result<(), Fail> {
    let parts = one_parts(rt.alloc())?;
    let game = Game::build(parts).ok().ok_or("the parts fit")?;
    let dirs = Directions::of(2, 4).ok_or("two players have four directions")?;
    assert_eq!(rt; game.players(), 2);
    assert_eq!(rt; dirs.players(), 2);
    let (board, mut owner) = open_at_opening(rt.alloc(), &game, &dirs, 0)?;
    assert!(rt; board.rows() == 4);
    assert_eq!(rt; board.draw_owner(&mut owner), 0);
    let mut pass = board.split(&mut owner);
    assert_eq!(rt; board.draw(&mut pass), 1);
    assert_eq!(rt; board.draw_owner(&mut owner), 2);
    assert_eq!(rt; board.load(&mut pass, 2), Level::At(2));
    let mut other = board.split_pass(&mut pass);
    assert_eq!(rt; board.load(&mut other, 3), Level::At(-2));
    board.join(&mut owner, pass);
    board.join(&mut owner, other);
    assert_eq!(rt; board.load_owner(&mut owner, 2), Level::At(2));
    assert_eq!(rt; board.notes(&owner).len(), 0);
    assert_eq!(rt; board.into_notes(owner).len(), 0);
    Ok(())
}
