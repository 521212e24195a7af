use super::*;
use direction_set::Directions;
use game_model::Game;
use game_model::worked::dilemma;
use std::test::Fail;

#[test]
fn tables_are_opened_and_compared(rt: HostRuntime) -> Result<(), Fail> {
    let parts = dilemma(rt.alloc())?;
    let game = Game::build(parts).ok().ok_or("the parts fit")?;
    let dirs = Directions::of(2, 4).ok_or("two players have four directions")?;
    assert_eq!(rt; game.players(), 2);
    assert_eq!(rt; dirs.players(), 2);
    assert_eq!(rt; unit(&game, 4), 16);
    let table = opening(rt.alloc(), &game, &dirs, 4)?;
    for (row, level) in [(0, 48), (1, 0), (2, 48), (3, 0)] {
        assert!(rt; row < table.rows());
        assert_eq!(rt; table.get(row), Level::At(level), "row {row}");
    }
    assert_eq!(rt; table.rows(), 4);
    let mut lower = table.copy(rt.alloc())?;
    lower.set(3, Level::Empty);
    assert!(rt; below(&lower, &table));
    assert!(rt; !below(&table, &lower));
    let empty = LevelTable::empty(rt.alloc(), 1, 4)?;
    assert_eq!(rt; empty.get(3), Level::Empty);
    Ok(())
}
