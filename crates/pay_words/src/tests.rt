use super::*;
use std::alloc::Global;
use std::test::Fail;

fn words_of(alloc: Global, line: &str) -> Result<Vec<String>, Fail> {
    let mut words = Vec::new(alloc);
    for word in line.split_whitespace() {
        words.push(String::from_str(alloc, word)?)?;
    }
    Ok(words)
}

#[test]
fn misfits(rt: HostRuntime) -> Result<(), Fail> {
    for (line, index) in [
        ("", 0),
        ("solved pd.nfg", 0),
        ("solve", 1),
        ("solve pd.nfg discount=1", 2),
        ("solve pd.nfg discount=0", 2),
        ("solve pd.nfg discount=-1/2", 2),
        ("solve pd.nfg discount=", 2),
        ("solve pd.nfg workers=0", 2),
        ("solve pd.nfg workers=17", 2),
        ("solve pd.nfg slack=1 slack=2", 3),
        ("solve pd.nfg grid=31", 2),
        ("solve pd.nfg slack=0", 2),
        ("solve pd.nfg slack=1000000001", 2),
        ("solve pd.nfg grid=4 budget=1000000000000001", 3),
        ("solve pd.nfg budget=0000000000000000015", 2),
        ("solve pd.nfg budget=", 2),
        ("solve pd.nfg budget", 2),
        ("solve pd.nfg budgets=1", 2),
        ("solve pd.nfg budget=1=1", 2),
        ("solve pd.nfg directions=6", 2),
        ("solve pd.nfg inner=0 directions=16 inner=1", 4),
        ("solve pd.nfg inner=17", 2),
        ("solve pd.nfg inner=17 inner=1", 2),
        ("solve pd.nfg inner=1 inner=1", 3),
        ("check", 1),
        ("check pd.nfg", 2),
        ("check pd.nfg pd.sgc grid=4", 3),
        ("check pd.nfg pd.sgc discount=1/2 discount=1/2", 4),
        ("check pd.nfg pd.sgc pd.sgc", 3),
        ("replays pd.nfg pd.sch", 0),
        ("replay", 1),
        ("replay pd.nfg", 2),
        ("replay pd.nfg pd.sch directions=4 workers=2", 4),
        ("replay pd.nfg pd.sch budget=1", 3),
        ("replay pd.nfg pd.sch slack=1", 3),
        ("replay pd.nfg pd.sch inner=0", 3),
        ("solve pd.nfg seed=1", 2),
        ("solve pd.nfg states=8", 2),
        ("make", 1),
        ("make states=8", 2),
        ("make workers=2 states=8", 3),
        ("make workers=2 states=0", 2),
        ("make states=65 seed=1", 1),
        ("make seed=2147483648", 1),
        ("make seed=", 1),
        ("make seed=1 seed=1", 2),
        ("make seed=1 workers=17", 2),
        ("make seed=1 workers=0", 2),
        ("make pd.nfg seed=1", 1),
        ("make seed=1 grid=4", 2),
        ("make seed=1 discount=1/2", 2),
    ] {
        let words = words_of(rt.alloc(), line)?;
        assert!(rt; words.len() < 100);
        assert_eq!(rt; command_of(&words), Err(UsageFault { index }), "{line}");
    }
    Ok(())
}

#[test]
fn commands(rt: HostRuntime) -> Result<(), Fail> {
    for (line, discount, directions, workers, budget, grid, slack, inner) in [
        ("solve pd.nfg", (9, 10), None, 2, 1_000_000, 16, 1, None),
        (
            "solve pd.nfg discount=1/2000",
            (1, 2000),
            None,
            2,
            1_000_000,
            16,
            1,
            None,
        ),
        (
            "solve pd.nfg discount=.9 budget=1000000000000000",
            (9, 10),
            None,
            2,
            1_000_000_000_000_000,
            16,
            1,
            None,
        ),
        (
            "solve pd.nfg discount=1/2 directions=4 grid=4 workers=16 inner=0 budget=15 slack=1000000000",
            (1, 2),
            Some(4),
            16,
            15,
            4,
            1_000_000_000,
            Some(0),
        ),
        (
            "solve pd.nfg slack=01000000000 budget=000000000000000015 inner=0 workers=01 grid=04 directions=4 discount=.50",
            (1, 2),
            Some(4),
            1,
            15,
            4,
            1_000_000_000,
            Some(0),
        ),
        (
            "solve pd.nfg inner=16 directions=32 grid=0",
            (9, 10),
            Some(32),
            2,
            1_000_000,
            0,
            1,
            Some(16),
        ),
    ] {
        let words = words_of(rt.alloc(), line)?;
        assert!(rt; words.len() < 100);
        match command_of(&words) {
            Ok(Command::Solve { file, set }) => {
                assert_eq!(rt; file, "pd.nfg", "{line}");
                assert_eq!(rt; set.discount.num(), discount.0, "{line}");
                assert_eq!(rt; set.discount.den(), discount.1, "{line}");
                assert_eq!(rt; set.directions, directions, "{line}");
                assert_eq!(rt; set.workers, workers, "{line}");
                assert_eq!(rt; set.budget, budget, "{line}");
                assert_eq!(rt; set.grid, grid, "{line}");
                assert_eq!(rt; set.slack, slack, "{line}");
                assert_eq!(rt; set.inner, inner, "{line}");
            }
            Ok(_) => assert!(rt; false, "another command than {line}"),
            Err(fault) => assert!(rt; false, "word {} of {line}", fault.index),
        }
    }
    Ok(())
}

#[test]
fn two_files(rt: HostRuntime) -> Result<(), Fail> {
    for (line, discount, directions, grid) in [
        ("replay pd.nfg pd.sch", (9, 10), None, 16),
        ("replay pd.nfg pd.sch grid=4 discount=1/2", (1, 2), None, 4),
        ("replay pd.nfg pd.sch directions=4", (9, 10), Some(4), 16),
    ] {
        let words = words_of(rt.alloc(), line)?;
        assert!(rt; words.len() < 100);
        match command_of(&words) {
            Ok(
                Command::Replay {
                    file,
                    schedule,
                    set,
                },
            ) => {
                assert_eq!(rt; file, "pd.nfg", "{line}");
                assert_eq!(rt; schedule, "pd.sch", "{line}");
                assert_eq!(rt; set.discount.num(), discount.0, "{line}");
                assert_eq!(rt; set.discount.den(), discount.1, "{line}");
                assert_eq!(rt; set.directions, directions, "{line}");
                assert_eq!(rt; set.grid, grid, "{line}");
                assert_eq!(rt; set.workers, 2, "{line}");
            }
            _ => assert!(rt; false, "another answer to {line}"),
        }
    }
    for line in ["check pd.nfg pd.sgc", "check pd.nfg pd.sgc discount=.5"] {
        let words = words_of(rt.alloc(), line)?;
        assert!(rt; words.len() < 100);
        match command_of(&words) {
            Ok(Command::Check { file, corr, .. }) => {
                assert_eq!(rt; file, "pd.nfg", "{line}");
                assert_eq!(rt; corr, "pd.sgc", "{line}");
            }
            _ => assert!(rt; false, "another answer to {line}"),
        }
    }
    Ok(())
}

#[test]
fn seeds(rt: HostRuntime) -> Result<(), Fail> {
    for (line, game) in [
        ("make seed=1", (1, 8, 2)),
        ("make seed=0 workers=4", (0, 8, 4)),
        (
            "make workers=16 seed=2147483647 states=64",
            (2_147_483_647, 64, 16),
        ),
        ("make states=01 workers=01 seed=007", (7, 1, 1)),
    ] {
        let words = words_of(rt.alloc(), line)?;
        assert!(rt; words.len() < 100);
        let (seed, states, workers) = game;
        assert_eq!(rt;
            command_of(&words),
            Ok(Command::Make {
                seed,
                states,
                workers
            }),
            "{line}"
        );
    }
    Ok(())
}
