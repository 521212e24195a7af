use crate::writing::write_nfg;
use crate::{NfgFault, What, read_nfg};
use game_model::List;
use pay_frac::Frac;
use std::alloc::Global;

enum Wanted {
    /// Numerators and denominators.
    Payoffs(&'static [(i128, i128)]),
    Fault(NfgFault),
}

struct Row {
    file: &'static [u8],
    wanted: Wanted,
}

const ROWS: [Row; 49] = [
    Row {
        file: b"NFG 1 R \"PD\" { \"1\" \"2\" } { 2 2 } 2 2 3 0 0 3 1 1",
        wanted: Wanted::Payoffs(&[
            (2, 1),
            (2, 1),
            (3, 1),
            (0, 1),
            (0, 1),
            (3, 1),
            (1, 1),
            (1, 1),
        ]),
    },
    Row {
        file: b"NFG 1 R \"PD\" { \"1\" \"2\" } { { \"C\" \"D\" } { \"C\" \"D\" } } \"a comment\" { { \"both\" 2, 2 } { \"a\" 3, 0 } { \"b\" 0, 3 } { \"none\" 1, 1 } } 1 2 3 4",
        wanted: Wanted::Payoffs(&[
            (2, 1),
            (2, 1),
            (3, 1),
            (0, 1),
            (0, 1),
            (3, 1),
            (1, 1),
            (1, 1),
        ]),
    },
    Row {
        file: b"NFG 1 D \"Selten (IJGT, 75), Figure 2, normal form\" { \"Player 1\" \"Player 2\" } { 3 2 } 1 1 0 2 0 2 1 1 0 3 2 0\n",
        wanted: Wanted::Payoffs(&[
            (1, 1),
            (1, 1),
            (0, 1),
            (2, 1),
            (0, 1),
            (2, 1),
            (1, 1),
            (1, 1),
            (0, 1),
            (3, 1),
            (2, 1),
            (0, 1),
        ]),
    },
    Row {
        file: b"NFG 1 R \"z\" { \"1\" \"2\" } { 1 1 } { { \"x\" 5, 5 } } 0",
        wanted: Wanted::Payoffs(&[(0, 1), (0, 1)]),
    },
    Row {
        file: b"NFG 1 R \"z\" { \"1\" \"2\" } { 1 1 } { { \"x\" 5, 5 } } 2",
        wanted: Wanted::Fault(NfgFault::Bad { at: 49 }),
    },
    Row {
        file: b"NFG 1 R \"\" { \"1\" \"2\" } { 1 1 } -.5 0.10",
        wanted: Wanted::Payoffs(&[(-1, 2), (1, 10)]),
    },
    Row {
        file: b"NFG 1 R\"a\\\"b\"{\"\"\"2\"}{1,01},6/4,-1.",
        wanted: Wanted::Payoffs(&[(3, 2), (-1, 1)]),
    },
    Row {
        file: b"NFG 1 R \"\" { \"1\" \"2\" } { 1 1 } { } 0",
        wanted: Wanted::Payoffs(&[(0, 1), (0, 1)]),
    },
    Row {
        file: b"NFG 1 R \"PD\" { \"1\" \"2\" } { 2 2 } 2 2 3 0 0 3 1",
        wanted: Wanted::Fault(NfgFault::Bad { at: 46 }),
    },
    Row {
        file: b"NFG 1 R \"PD\" { \"1\" \"2\" } { 2 2 } 2 2 3 0 0 3 1 1 1",
        wanted: Wanted::Fault(NfgFault::Bad { at: 49 }),
    },
    Row {
        file: b"NFG 1 R \"PD\" { \"1\" \"2\" } { 2 2 } 1/0 2 3 0 0 3 1 1",
        wanted: Wanted::Fault(NfgFault::Bad { at: 33 }),
    },
    Row {
        file: b"NFG 1 R \"PD\" { \"1\" \"2\" } { 2 2 } 1111111111111111111111111111111111111 2 3 0 0 3 1 1",
        wanted: Wanted::Fault(NfgFault::Limit {
            what: What::Digits,
            number: 37,
            at: 33,
        }),
    },
    Row {
        file: b"",
        wanted: Wanted::Fault(NfgFault::Bad { at: 0 }),
    },
    Row {
        file: b" ,\t\r\n",
        wanted: Wanted::Fault(NfgFault::Bad { at: 5 }),
    },
    Row {
        file: b"nfg 1 R",
        wanted: Wanted::Fault(NfgFault::Bad { at: 0 }),
    },
    Row {
        file: b"NFG 01 R",
        wanted: Wanted::Fault(NfgFault::Bad { at: 4 }),
    },
    Row {
        file: b"NFG 1 r",
        wanted: Wanted::Fault(NfgFault::Bad { at: 6 }),
    },
    Row {
        file: b"NFG 1 R PD",
        wanted: Wanted::Fault(NfgFault::Bad { at: 8 }),
    },
    Row {
        file: b"NFG 1 R \"PD { 1 2 }",
        wanted: Wanted::Fault(NfgFault::Bad { at: 8 }),
    },
    Row {
        file: b"NFG 1 R \"\" { \"1\" \"2\" \"3\" } { 1 1 } 0 0",
        wanted: Wanted::Fault(NfgFault::Limit {
            what: What::Players,
            number: 3,
            at: 21,
        }),
    },
    Row {
        file: b"NFG 1 R \"\" { \"1\" } { 1 1 } 0 0",
        wanted: Wanted::Fault(NfgFault::Limit {
            what: What::Players,
            number: 1,
            at: 17,
        }),
    },
    Row {
        file: b"NFG 1 R \"\" { } { 1 1 } 0 0",
        wanted: Wanted::Fault(NfgFault::Limit {
            what: What::Players,
            number: 0,
            at: 13,
        }),
    },
    Row {
        file: b"NFG 1 R \"\" { \"1\" x } { 1 1 } 0 0",
        wanted: Wanted::Fault(NfgFault::Bad { at: 17 }),
    },
    Row {
        file: b"NFG 1 R \"\" { \"1\" \"2\" } { 0 1 }",
        wanted: Wanted::Fault(NfgFault::Bad { at: 25 }),
    },
    Row {
        file: b"NFG 1 R \"\" { \"1\" \"2\" } { 0000000000000000000000000000000000000 1 }",
        wanted: Wanted::Fault(NfgFault::Bad { at: 25 }),
    },
    Row {
        file: b"NFG 1 R \"\" { \"1\" \"2\" } { 1 }",
        wanted: Wanted::Fault(NfgFault::Bad { at: 27 }),
    },
    Row {
        file: b"NFG 1 R \"\" { \"1\" \"2\" } { 1 1 1 } 0 0 0 0",
        wanted: Wanted::Fault(NfgFault::Bad { at: 29 }),
    },
    Row {
        file: b"NFG 1 R \"\" { \"1\" \"2\" } { -1 1 }",
        wanted: Wanted::Fault(NfgFault::Bad { at: 25 }),
    },
    Row {
        file: b"NFG 1 R \"\" { \"1\" \"2\" } { 1 17 }",
        wanted: Wanted::Fault(NfgFault::Limit {
            what: What::Strategies,
            number: 17,
            at: 27,
        }),
    },
    Row {
        file: b"NFG 1 R \"\" { \"1\" \"2\" } { 999999999999999999999999999999999999 1 }",
        wanted: Wanted::Fault(NfgFault::Limit {
            what: What::Strategies,
            number: 999999999999999999999999999999999999,
            at: 25,
        }),
    },
    Row {
        file: b"NFG 1 R \"\" { \"1\" \"2\" } { 0000000000000000000000000000000000001 1 }",
        wanted: Wanted::Fault(NfgFault::Limit {
            what: What::Digits,
            number: 37,
            at: 25,
        }),
    },
    Row {
        file: b"NFG 1 R \"\" { \"1\" \"2\" } { { } { \"a\" } }",
        wanted: Wanted::Fault(NfgFault::Bad { at: 27 }),
    },
    Row {
        file: b"NFG 1 R \"\" { \"1\" \"2\" } { { \"a\" } \"b\" }",
        wanted: Wanted::Fault(NfgFault::Bad { at: 33 }),
    },
    Row {
        file: b"NFG 1 R \"\" { \"1\" \"2\" } { { \"a\" 1 } }",
        wanted: Wanted::Fault(NfgFault::Bad { at: 31 }),
    },
    Row {
        file: b"NFG 1 R \"\" { \"1\" \"2\" } { { \"s\" \"s\" \"s\" \"s\" \"s\" \"s\" \"s\" \"s\" \"s\" \"s\" \"s\" \"s\" \"s\" \"s\" \"s\" \"s\" \"s\" } { \"a\" } }",
        wanted: Wanted::Fault(NfgFault::Limit {
            what: What::Strategies,
            number: 17,
            at: 91,
        }),
    },
    Row {
        file: b"NFG 1 R \"\" { \"1\" \"2\" } { { \"s\" \"s\" \"s\" \"s\" \"s\" \"s\" \"s\" \"s\" \"s\" \"s\" \"s\" \"s\" \"s\" \"s\" \"s\" \"s\" } { \"a\" } } 1 1 1 1 1 1 1 1 1 1 1 1 1 1 1 1 1 1 1 1 1 1 1 1 1 1 1 1 1 1 1 1",
        wanted: Wanted::Payoffs(&[
            (1, 1),
            (1, 1),
            (1, 1),
            (1, 1),
            (1, 1),
            (1, 1),
            (1, 1),
            (1, 1),
            (1, 1),
            (1, 1),
            (1, 1),
            (1, 1),
            (1, 1),
            (1, 1),
            (1, 1),
            (1, 1),
            (1, 1),
            (1, 1),
            (1, 1),
            (1, 1),
            (1, 1),
            (1, 1),
            (1, 1),
            (1, 1),
            (1, 1),
            (1, 1),
            (1, 1),
            (1, 1),
            (1, 1),
            (1, 1),
            (1, 1),
            (1, 1),
        ]),
    },
    Row {
        file: b"NFG 1 R \"\" { \"1\" \"2\" } { 1 1 } \"a\" \"b\" 0 0",
        wanted: Wanted::Fault(NfgFault::Bad { at: 35 }),
    },
    Row {
        file: b"NFG 1 R \"\" { \"1\" \"2\" } { 1 1 } 0 +1",
        wanted: Wanted::Fault(NfgFault::Bad { at: 33 }),
    },
    Row {
        file: b"NFG 1 R \"\" { \"1\" \"2\" } { 1 1 } 1e3 1",
        wanted: Wanted::Fault(NfgFault::Bad { at: 31 }),
    },
    Row {
        file: b"NFG 1 R \"\" { \"1\" \"2\" } { 1 1 } 1.5/2 1",
        wanted: Wanted::Fault(NfgFault::Bad { at: 31 }),
    },
    Row {
        file: b"NFG 1 R \"\" { \"1\" \"2\" } { 1 1 } . 1",
        wanted: Wanted::Fault(NfgFault::Bad { at: 31 }),
    },
    Row {
        file: b"NFG 1 R \"\" { \"1\" \"2\" } { 1 1 } 0 \"1\"",
        wanted: Wanted::Fault(NfgFault::Bad { at: 33 }),
    },
    Row {
        file: b"NFG 1 R \"\" { \"1\" \"2\" } { 1 1 } { { \"x\" 5 } } 0",
        wanted: Wanted::Fault(NfgFault::Bad { at: 41 }),
    },
    Row {
        file: b"NFG 1 R \"\" { \"1\" \"2\" } { 1 1 } { { \"x\" 5 5 5 } } 0",
        wanted: Wanted::Fault(NfgFault::Bad { at: 43 }),
    },
    Row {
        file: b"NFG 1 R \"\" { \"1\" \"2\" } { 1 1 } { { \"x\" 5 5 } 1 } 0",
        wanted: Wanted::Fault(NfgFault::Bad { at: 45 }),
    },
    Row {
        file: b"NFG 1 R \"\" { \"1\" \"2\" } { 1 1 } { { \"x\" 5 5 }",
        wanted: Wanted::Fault(NfgFault::Bad { at: 44 }),
    },
    Row {
        file: b"NFG 1 R \"\" { \"1\" \"2\" } { 1 1 } { } 1111111111111111111111111111111111111",
        wanted: Wanted::Fault(NfgFault::Bad { at: 35 }),
    },
    Row {
        file: b"NFG 1 R \"\" { \"1\" \"2\" } { 1 1 } { } 0000000000000000000000000000000000000",
        wanted: Wanted::Fault(NfgFault::Limit {
            what: What::Digits,
            number: 37,
            at: 35,
        }),
    },
    Row {
        file: b"NFG 1 R \"\" { \"1\" \"2\" } { 1 1 } { } -0",
        wanted: Wanted::Fault(NfgFault::Bad { at: 35 }),
    },
];

fn are_payoffs(payoffs: &List<Frac>, wanted: &[(i128, i128)]) -> bool {
    for i in 0..payoffs.len() {
        let payoff = payoffs.get(i);
        if wanted.get(i as usize) != Some(&(payoff.num(), payoff.den())) {
            return false;
        }
    }
    payoffs.len() as usize == wanted.len()
}

fn is_read(alloc: Global, row: &Row) -> bool {
    match (read_nfg(alloc, row.file), &row.wanted) {
        (Ok(game), Wanted::Payoffs(payoffs)) => are_payoffs(&game.payoffs, payoffs),
        (Err(fault), Wanted::Fault(wanted)) => fault == *wanted,
        _ => false,
    }
}

#[test]
fn files_and_faults(rt: HostRuntime) {
    for (i, row) in ROWS.iter().enumerate() {
        assert!(rt; is_read(rt.alloc(), row), "row {i}");
    }
}

/// Texts, and their games in canonical form.
const WRITTEN: [(&[u8], &[u8]); 3] = [
    (
        b"NFG 1 R \"PD\" { \"1\" \"2\" } { 2 2 } 2 2 3 0 0 3 1 1",
        b"NFG 1 R \"PD\" { \"1\" \"2\" } { 2 2 }\n2 2 3 0 0 3 1 1\n",
    ),
    (
        b"NFG,1 D\"a\\\"b\"{\"\" \"2\"}{{\"C\"}{\"\\\"\" \"D\"}}\"note\"{{\"x\"-.5 02/4}}1 0",
        b"NFG 1 R \"a\\\"b\" { \"\" \"2\" } { { \"C\" } { \"\\\"\" \"D\" } }\n\"note\"\n-1/2 1/2 0 0\n",
    ),
    (
        b"NFG 1 R \"\" { \"1\" \"2\" } { 01 1 } 0.10 -7",
        b"NFG 1 R \"\" { \"1\" \"2\" } { 1 1 }\n1/10 -7\n",
    ),
];

fn is_text(text: &List<u8>, bytes: &[u8]) -> bool {
    for i in 0..text.len() {
        if bytes.get(i as usize) != Some(text.get(i)) {
            return false;
        }
    }
    text.len() as usize == bytes.len()
}

fn is_written(alloc: Global, file: &[u8], wanted: &[u8]) -> bool {
    match read_nfg(alloc, file) {
        Ok(game) => match write_nfg(alloc, &game) {
            Ok(text) => is_text(&text, wanted),
            Err(_) => false,
        },
        Err(_) => false,
    }
}

#[test]
fn canonical_texts(rt: HostRuntime) {
    for (i, (file, text)) in WRITTEN.iter().enumerate() {
        assert!(rt; is_written(rt.alloc(), file, text), "text {i}");
        assert!(rt; is_written(rt.alloc(), text, text), "canonical text {i}");
    }
}
