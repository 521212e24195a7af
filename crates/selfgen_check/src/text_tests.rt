ghost use Rattle.std.specs.Prelude.{◌≡◌, IfOk};
ghost use Rattle.game_model.specs.Parts.{shape_of};
ghost use Rattle.selfgen_check.specs.TestGames.{dilemma, givers};

use super::*;
use game_model::{Game, GameParts};
use nfg_text::What;
use std::alloc::{AllocError, Global};
use std::test::Fail;
use token_text::Text;

/// What is said of a text: its fault, or what the check says.
#[derive(Clone, Copy, Debug, PartialEq, Eq)]
enum Answer {
    Text(CorrTextFault),
    Fails(CorrFault),
    Holds,
}

#[derive(Clone, Copy)]
struct Row {
    text: &'static str,
    wanted: Answer,
}

const SET: &str =
    "SGC 1 { { { { 1 1 } { 1 1 } { 0 1 } { 0 0 } } { { 2 2 } { 0 0 } { 1 1 } { 0 0 } } } }";

const ROWS: [Row; 35] = [
    Row {
        text: "SGC 1 { { { { 1 1 } { 1 1 } { 0 1 } { 0 0 } } { { 2 2 } { 0 0 } { 1 1 } { 0 0 } } } }",
        wanted: Answer::Holds,
    },
    Row {
        text: "SGC 1{{{{1 1}{1,1}{0 1}{0 0}}\n{{2.0 4/2}{0 00}{1 1 0 0}{0 0}}}}",
        wanted: Answer::Holds,
    },
    Row {
        text: "SGC 1 { { { { 1 1 } { 1 1 } { 0 1 } { 0 0 } } { { 2 2 } { 0 0 } { 1 1 } { 1 0 } } } }",
        wanted: Answer::Fails(CorrFault {
            state: 0,
            entry: 1,
            why: Why::Gain {
                player: 0,
                strategy: 1,
            },
        }),
    },
    Row {
        text: "SGC 1 { { { { 1 1 } { 1 1 } { 0 1 } { 0 0 } } { { 2001/1000 2 } { 0 0 } { 1 1 } { 0 0 } } } }",
        wanted: Answer::Fails(CorrFault {
            state: 0,
            entry: 1,
            why: Why::Point { player: 0 },
        }),
    },
    Row {
        text: "SGC 1 { { { { 1 1 } { 1 1 } { 0 1 } { 0 0 } } { { 2 2 } { 0 0 } { 1 0 } { 0 0 } } } }",
        wanted: Answer::Fails(CorrFault {
            state: 0,
            entry: 1,
            why: Why::Weights,
        }),
    },
    Row {
        text: "SGC 1 { { { { 1 1 } { 1 1 } { 0 1 } { 0 0 } } { { 2 2 } { 0 0 } { 2 1 } { 0 0 } } } }",
        wanted: Answer::Fails(CorrFault {
            state: 0,
            entry: 1,
            why: Why::Lottery,
        }),
    },
    Row {
        text: "SGC 1 { { { { 1 1 } { 1 1 } { 0 1 } { 0 0 } } { { 2 2 } { 0 0 } { 1 1 } { 0 } } } }",
        wanted: Answer::Fails(CorrFault {
            state: 0,
            entry: 1,
            why: Why::Punish,
        }),
    },
    Row {
        text: "SGC 1 { { { { 1 1 } { 1 1 } { 0 1 } { 0 0 } } { { 2 2 } { 0 2 } { 1 1 } { 0 0 } } } }",
        wanted: Answer::Fails(CorrFault {
            state: 0,
            entry: 1,
            why: Why::Profile,
        }),
    },
    Row {
        text: "SGC 1 { { } }",
        wanted: Answer::Holds,
    },
    Row {
        text: "SGC 1 { { }",
        wanted: Answer::Text(CorrTextFault::Bad { at: 11 }),
    },
    Row {
        text: "SGC 1 { }",
        wanted: Answer::Text(CorrTextFault::Bad { at: 8 }),
    },
    Row {
        text: "SGC 1 { { } { } }",
        wanted: Answer::Text(CorrTextFault::Bad { at: 12 }),
    },
    Row {
        text: "SGC 1 { { } } }",
        wanted: Answer::Text(CorrTextFault::Bad { at: 14 }),
    },
    Row {
        text: "SGC 2 { { } }",
        wanted: Answer::Text(CorrTextFault::Bad { at: 4 }),
    },
    Row {
        text: "SGC 1 { { { { 1 } { 1 1 } { 0 1 } { 0 0 } } } }",
        wanted: Answer::Text(CorrTextFault::Bad { at: 16 }),
    },
    Row {
        text: "SGC 1 { { { { 1 1 } { 1 1 1 } { 0 1 } { 0 0 } } } }",
        wanted: Answer::Text(CorrTextFault::Bad { at: 26 }),
    },
    Row {
        text: "SGC 1 { { { { 1 1 } { 1 1 } { 0 } { 0 0 } } } }",
        wanted: Answer::Text(CorrTextFault::Bad { at: 32 }),
    },
    Row {
        text: "SGC 1 { { { { 1 1 } { 1 1 } { 0 1/1 } { 0 0 } } } }",
        wanted: Answer::Text(CorrTextFault::Bad { at: 32 }),
    },
    Row {
        text: "SGC 1 { { { { 1 1 } { 1 1 } { 0 1 0 1 0 1 0 1 0 1 } { 0 0 } } } }",
        wanted: Answer::Text(CorrTextFault::Limit {
            what: What::Outcomes,
            number: 5,
            at: 46,
        }),
    },
    Row {
        text: "SGC 1 { { { { 1 1 } { 1 1 } { 0 1 0 1 0 1 0 1 9999999999999999999999999999999999999 } { 0 0 } } } }",
        wanted: Answer::Text(CorrTextFault::Limit {
            what: What::Outcomes,
            number: 5,
            at: 46,
        }),
    },
    Row {
        text: "SGC 1 { { { { 1 1 } { 1 1 } { 0 1 0 1 0 1 0 1 -1 } { 0 0 } } } }",
        wanted: Answer::Text(CorrTextFault::Bad { at: 46 }),
    },
    Row {
        text: "SGC 1 { { { { 1 1 } { 1 1 } { 0 9671406556917033397649409 } { 0 0 } } } }",
        wanted: Answer::Text(CorrTextFault::Limit {
            what: What::Weight,
            number: 9671406556917033397649409,
            at: 32,
        }),
    },
    Row {
        text: "SGC 1 { { { { 1 1 } { 1 1 } { 0 9671406556917033397649408 } { 0 0 } } } }",
        wanted: Answer::Holds,
    },
    Row {
        text: "SGC 1 { { { { 1 1 } { 1 1 } { 0 1 } { 0 0000000000000000000000000000000000000 } } } }",
        wanted: Answer::Text(CorrTextFault::Limit {
            what: What::Digits,
            number: 37,
            at: 40,
        }),
    },
    Row {
        text: "SGC 1 { { { { 1 9999999999999999999999999999999999999 } { 1 1 } { 0 1 } { 0 0 } } } }",
        wanted: Answer::Text(CorrTextFault::Limit {
            what: What::Digits,
            number: 37,
            at: 16,
        }),
    },
    Row {
        text: "SGC 1 { { { { 1 1 } { 1 4294967296 } { 0 1 } { 0 0 } } } }",
        wanted: Answer::Text(CorrTextFault::Limit {
            what: What::Whole,
            number: 4294967296,
            at: 24,
        }),
    },
    Row {
        text: "SGC 1 { { { { 1 1 } { 1 1 } { 4294967296 1 } { 0 0 } } } }",
        wanted: Answer::Text(CorrTextFault::Limit {
            what: What::Whole,
            number: 4294967296,
            at: 30,
        }),
    },
    Row {
        text: "SGC 1 { { { { 1 1 } { 1 1 } { 0 1 } { 0 4294967296 } } } }",
        wanted: Answer::Text(CorrTextFault::Limit {
            what: What::Whole,
            number: 4294967296,
            at: 40,
        }),
    },
    Row {
        text: "SGC 1 { { { { 1/17592186044417 0 } { 1 1 } { 0 1 } { 0 0 } } } }",
        wanted: Answer::Text(CorrTextFault::Wide {
            what: What::Common,
            number: 17592186044417,
        }),
    },
    Row {
        text: "SGC 1 { { { { 1/4194304 1/4194305 } { 1 1 } { 0 1 } { 0 0 } } } }",
        wanted: Answer::Text(CorrTextFault::Wide {
            what: What::Common,
            number: 17592190238720,
        }),
    },
    Row {
        text: "SGC 1 { { { { 1/17592186044416 0 } { 1 1 } { 0 1 } { 0 0 } } } }",
        wanted: Answer::Text(CorrTextFault::Wide {
            what: What::Point,
            number: 35184372088832,
        }),
    },
    Row {
        text: "SGC 1 { { { { 1073741825 0 } { 1 1 } { 0 1 } { 0 0 } } } }",
        wanted: Answer::Text(CorrTextFault::Wide {
            what: What::Point,
            number: 1073741825,
        }),
    },
    Row {
        text: "SGC 1 { { { { 0 -1073741825 } { 1 1 } { 0 1 } { 0 0 } } } }",
        wanted: Answer::Text(CorrTextFault::Wide {
            what: What::Point,
            number: 1073741825,
        }),
    },
    Row {
        text: "SGC 1 { { { { 999999999999999999999999999999999 1/1000000 } { 1 1 } { 0 1 } { 0 0 } } } }",
        wanted: Answer::Text(CorrTextFault::Wide {
            what: What::Point,
            number: 170141183460469231731687303715884105727,
        }),
    },
    Row {
        text: "SGC 1 { { { { 1/999999999999999999 999999999999999999999999999999 } { 1 1 } { 0 1 } { 0 0 } } } }",
        wanted: Answer::Text(CorrTextFault::Wide {
            what: What::Common,
            number: 999999999999999999,
        }),
    },
];

/// The prisoner's dilemma at discount factor p/q.
fn dilemma(alloc: Global, p: u32, q: u32) -> Result<GameParts, AllocError>
    ensures { IfOk result (λ g. shape_of g ≡ dilemma p q) }
{
    let sizes = vec![in alloc; 2, 2]?;
    let payoffs = vec![in alloc; 2, 2, 3, 0, 0, 3, 1, 1]?;
    let next = vec![in alloc; 0, 0, 0, 0]?;
    Ok(GameParts {
        players: 2,
        strategies: vec![in alloc; sizes]?,
        payoffs: vec![in alloc; payoffs]?,
        next: vec![in alloc; next]?,
        denominator: 1,
        discounts: vec![in alloc; p, p]?,
        q,
    })
}

/// Three players who give or don't, at discount factor 1/2.
fn givers(alloc: Global) -> Result<GameParts, AllocError>
    ensures { IfOk result (λ g. shape_of g ≡ givers) }
{
    let sizes = vec![in alloc; 2, 2, 2]?;
    let payoffs = vec![in alloc;
        4, 4, 4, 5, 2, 2, 2, 5, 2, 3, 3, 0, 2, 2, 5, 3, 0, 3, 0, 3, 3, 1, 1, 1,
    ]?;
    let next = vec![in alloc; 0, 0, 0, 0, 0, 0, 0, 0]?;
    Ok(GameParts {
        players: 3,
        strategies: vec![in alloc; sizes]?,
        payoffs: vec![in alloc; payoffs]?,
        next: vec![in alloc; next]?,
        denominator: 1,
        discounts: vec![in alloc; 1, 1, 1]?,
        q: 2,
    })
}

fn said_of(alloc: Global, game: &Game, text: &str) -> Answer {
    match read_corr(alloc, game, text.as_bytes()) {
        Ok(corr) => match check(game, corr) {
            Ok(_) => Answer::Holds,
            Err(refused) => Answer::Fails(refused.fault),
        },
        Err(fault) => Answer::Text(fault),
    }
}

#[test]
fn texts_are_read_and_checked(rt: HostRuntime) -> Result<(), Fail> {
    let game = Game::build(dilemma(rt.alloc(), 1, 2)?)
        .ok()
        .ok_or("the parts fit")?;
    for row in ROWS {
        assert_eq!(rt;
            said_of(rt.alloc(), &game, row.text),
            row.wanted,
            "{}",
            row.text
        );
    }
    Ok(())
}

/// Less patient players gain.
#[test]
fn impatient_players_defect(rt: HostRuntime) -> Result<(), Fail> {
    let game = Game::build(dilemma(rt.alloc(), 499, 1000)?)
        .ok()
        .ok_or("the parts fit")?;
    let wanted = Answer::Fails(CorrFault {
        state: 0,
        entry: 1,
        why: Why::Gain {
            player: 0,
            strategy: 1,
        },
    });
    assert_eq!(rt; said_of(rt.alloc(), &game, SET), wanted);
    Ok(())
}

/// Three players give until one doesn't; where the last player's own punishment is to go on, it doesn't give.
#[test]
fn three_players_give(rt: HostRuntime) -> Result<(), Fail> {
    let game = Game::build(givers(rt.alloc())?)
        .ok()
        .ok_or("the parts fit")?;
    let holds =
        "SGC 1 { { { { 1 1 1 } { 1 1 1 } { 0 1 } { 0 0 0 } } { { 4 4 4 } { 0 0 0 } { 1 1 } { 0 0 0 } } } }";
    let gains =
        "SGC 1 { { { { 1 1 1 } { 1 1 1 } { 0 1 } { 0 0 0 } } { { 4 4 4 } { 0 0 0 } { 1 1 } { 0 0 1 } } } }";
    assert_eq!(rt; said_of(rt.alloc(), &game, holds), Answer::Holds);
    let wanted = Answer::Fails(CorrFault {
        state: 0,
        entry: 1,
        why: Why::Gain {
            player: 2,
            strategy: 1,
        },
    });
    assert_eq!(rt; said_of(rt.alloc(), &game, gains), wanted);
    Ok(())
}

fn is_text(text: &Text, wanted: &[u8]) -> bool {
    for i in 0..text.len() {
        if wanted.get(i as usize) != Some(text.get(i)) {
            return false;
        }
    }
    text.len() as usize == wanted.len()
}

fn is_written(alloc: Global, game: &Game, text: &[u8], wanted: &[u8]) -> bool {
    match read_corr(alloc, game, text) {
        Ok(corr) => match write_corr(alloc, game, &corr) {
            Ok(text) => is_text(&text, wanted),
            Err(_) => false,
        },
        Err(_) => false,
    }
}

/// Texts, and their correspondences in canonical form.
const WRITTEN: [(&[u8], &[u8]); 3] = [
    (
        b"SGC 1 { { { { 1 1 } { 1 1 } { 0 1 } { 0 0 } } { { 2 2 } { 0 0 } { 1 1 } { 0 0 } } } }",
        b"SGC 1 {\n{\n{ { 1 1 } { 1 1 } { 0 1 } { 0 0 } }\n{ { 2 2 } { 0 0 } { 1 1 } { 0 0 } }\n}\n}\n",
    ),
    (b"SGC 1{{}}", b"SGC 1 {\n{\n}\n}\n"),
    (
        b"SGC 1{{{{-.50 20/3}{00 1}{}{}}{{1/6 0}{7 7}{1 2 3 4 5 6 7 08}{9}}}}",
        b"SGC 1 {\n{\n{ { -1/2 20/3 } { 0 1 } { } { } }\n{ { 1/6 0 } { 7 7 } { 1 2 3 4 5 6 7 8 } { 9 } }\n}\n}\n",
    ),
];

#[test]
fn canonical_texts(rt: HostRuntime) -> Result<(), Fail> {
    let game = Game::build(dilemma(rt.alloc(), 1, 2)?)
        .ok()
        .ok_or("the parts fit")?;
    for (i, (file, text)) in WRITTEN.iter().enumerate() {
        assert!(rt; is_written(rt.alloc(), &game, file, text), "text {i}");
        assert!(rt;
            is_written(rt.alloc(), &game, text, text),
            "canonical text {i}"
        );
    }
    Ok(())
}
