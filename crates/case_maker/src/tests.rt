use super::*;
use std::test::Fail;

// The last state of games of a few seeds, by a program that isn't this one.
#[test]
fn the_last_state_is_drawn(rt: HostRuntime) -> Result<(), Fail> {
    for (seed, count, payoffs, next) in [
        (1, 8, [15, 3, 4, 9, 12, 15], [5, 0, 6]),
        (0, 1, [0, 12, 5, 10, 13, 13], [0, 0, 0]),
        (2_147_483_647, 64, [7, 14, 8, 12, 5, 6], [41, 36, 26]),
    ] {
        let parts = generated(rt.alloc(), seed, count)?;
        assert_eq!(rt; parts.players, 2);
        assert_eq!(rt; parts.strategies.len(), count as usize);
        assert_eq!(rt; parts.payoffs.len(), count as usize);
        assert_eq!(rt; parts.next.len(), count as usize);
        let last = count as usize - 1;
        assert!(rt; parts.strategies[last].as_slice() == [4, 4].as_slice());
        assert!(rt;
            parts.payoffs[last].as_slice().starts_with(&payoffs),
            "seed {seed}"
        );
        assert!(rt;
            parts.next[last].as_slice().starts_with(&next),
            "seed {seed}"
        );
    }
    Ok(())
}

#[test]
fn the_parts_make_a_game(rt: HostRuntime) -> Result<(), Fail> {
    let game = game_from(rt.alloc(), 1, 8)?;
    assert_eq!(rt; game.states(), 8);
    assert_eq!(rt; game.profiles(0), 16);
    for (a, first, second, next) in [(0, 6, 14, 1), (1, 11, 11, 3), (2, 2, 11, 4)] {
        assert!(rt; a < game.profiles(0));
        assert_eq!(rt; game.payoff(0, a, 0), first, "profile {a}");
        assert_eq!(rt; game.payoff(0, a, 1), second, "profile {a}");
        assert_eq!(rt; game.next(0, a), next, "profile {a}");
    }
    assert_eq!(rt; game.discount_of(0), (1, 2));
    assert_eq!(rt; game.discount_of(1), (1, 2));
    Ok(())
}
