use super::*;
use direction_set::Directions;
use game_model::Game;
use game_model::worked::dilemma;
use level_table::{Level, opening};
use schedule_core::read_schedule;
use std::test::Fail;

#[test]
fn workers_lower_by_what_they_have_seen(rt: HostRuntime) -> Result<(), Fail> {
    let parts = dilemma(rt.alloc())?;
    let game = Game::build(parts).ok().ok_or("the parts fit")?;
    let dirs = Directions::of(2, 4).ok_or("two players have four directions")?;
    assert_eq!(rt; game.players(), 2);
    assert_eq!(rt; dirs.players(), 2);
    let start = opening(rt.alloc(), &game, &dirs, 4)?;
    let rows = start.states() * start.directions();
    for (text, word, seen) in [
        ("SCH 1 2 { }", 0, 0),
        ("SCH 1 2 { lower 0 1 }", -8, 0),
        ("SCH 1 2 { lower 0 1 lower 0 1 }", -12, 0),
        ("SCH 1 2 { lower 0 1 lower 1 1 }", -8, -8),
        ("SCH 1 2 { lower 0 1 load 1 1 lower 0 1 }", -12, -8),
        (
            "SCH 1 2 { lower 0 1 load 1 1 lower 0 1 lower 1 1 }",
            -12,
            -12,
        ),
        ("SCH 1 2 { lower 0 1 clear 0 1 load 1 1 }", -8, -8),
    ] {
        let schedule = read_schedule(rt.alloc(), text.as_bytes(), rows)?;
        let core = replay(rt.alloc(), &game, &dirs, 4, &start, &schedule)?;
        assert_eq!(rt; schedule.workers, 2);
        assert_eq!(rt; core.notes().len(), 0);
        assert!(rt; core.levels().rows() == 4);
        assert_eq!(rt; core.levels().get(1), Level::At(word), "{text}");
        assert_eq!(rt; core.levels().get(3), Level::At(0), "{text}");
        assert!(rt; core.seen(1).rows() == 4);
        assert_eq!(rt; core.seen(1).get(1), Level::At(seen), "{text}");
    }
    Ok(())
}
