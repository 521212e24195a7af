use crate::{Dyn, read_dyn, single, write_dyn};
use nfg_text::{NfgFault, What, read_nfg};
use std::alloc::Global;

enum Wanted {
    /// The file and the successors of each state.
    States(&'static [(&'static str, &'static [u32])]),
    Fault(NfgFault),
}

struct Row {
    file: &'static [u8],
    wanted: Wanted,
}

const ROWS: [Row; 25] = [
    Row {
        file: b"DYN 1 \"two\" { { \"good\" \"pd.nfg\" { 0 1 1 1 } } { \"bad\" \"nil.nfg\" { 1 } } }",
        wanted: Wanted::States(&[("pd.nfg", &[0, 1, 1, 1]), ("nil.nfg", &[1])]),
    },
    Row {
        file: b"DYN 1\"s\"{{\"first\"\"one.nfg\"{1}},{\"last\"\"m\xc3\xbc.nfg\"{01,1 1 4294967295}}}\n",
        wanted: Wanted::States(&[("one.nfg", &[1]), ("mü.nfg", &[1, 1, 1, 4294967295])]),
    },
    Row {
        file: b"DYN 1 \"\" { { \"\" \"\" { } } }",
        wanted: Wanted::States(&[("", &[])]),
    },
    Row {
        file: b"DYN 1 \"\" { { \"a\" \"b\" { 0 } } { \"a\" \"b\" { 0 } } { \"a\" \"b\" { 0 } } { \"a\" \"b\" { 0 } } { \"a\" \"b\" { 0 } } { \"a\" \"b\" { 0 } } { \"a\" \"b\" { 0 } } { \"a\" \"b\" { 0 } } { \"a\" \"b\" { 0 } } { \"a\" \"b\" { 0 } } { \"a\" \"b\" { 0 } } { \"a\" \"b\" { 0 } } { \"a\" \"b\" { 0 } } { \"a\" \"b\" { 0 } } { \"a\" \"b\" { 0 } } { \"a\" \"b\" { 0 } } { \"a\" \"b\" { 0 } } { \"a\" \"b\" { 0 } } { \"a\" \"b\" { 0 } } { \"a\" \"b\" { 0 } } { \"a\" \"b\" { 0 } } { \"a\" \"b\" { 0 } } { \"a\" \"b\" { 0 } } { \"a\" \"b\" { 0 } } { \"a\" \"b\" { 0 } } { \"a\" \"b\" { 0 } } { \"a\" \"b\" { 0 } } { \"a\" \"b\" { 0 } } { \"a\" \"b\" { 0 } } { \"a\" \"b\" { 0 } } { \"a\" \"b\" { 0 } } { \"a\" \"b\" { 0 } } { \"a\" \"b\" { 0 } } { \"a\" \"b\" { 0 } } { \"a\" \"b\" { 0 } } { \"a\" \"b\" { 0 } } { \"a\" \"b\" { 0 } } { \"a\" \"b\" { 0 } } { \"a\" \"b\" { 0 } } { \"a\" \"b\" { 0 } } { \"a\" \"b\" { 0 } } { \"a\" \"b\" { 0 } } { \"a\" \"b\" { 0 } } { \"a\" \"b\" { 0 } } { \"a\" \"b\" { 0 } } { \"a\" \"b\" { 0 } } { \"a\" \"b\" { 0 } } { \"a\" \"b\" { 0 } } { \"a\" \"b\" { 0 } } { \"a\" \"b\" { 0 } } { \"a\" \"b\" { 0 } } { \"a\" \"b\" { 0 } } { \"a\" \"b\" { 0 } } { \"a\" \"b\" { 0 } } { \"a\" \"b\" { 0 } } { \"a\" \"b\" { 0 } } { \"a\" \"b\" { 0 } } { \"a\" \"b\" { 0 } } { \"a\" \"b\" { 0 } } { \"a\" \"b\" { 0 } } { \"a\" \"b\" { 0 } } { \"a\" \"b\" { 0 } } { \"a\" \"b\" { 0 } } { \"a\" \"b\" { 0 } } }",
        wanted: Wanted::States(&[
            ("b", &[0]),
            ("b", &[0]),
            ("b", &[0]),
            ("b", &[0]),
            ("b", &[0]),
            ("b", &[0]),
            ("b", &[0]),
            ("b", &[0]),
            ("b", &[0]),
            ("b", &[0]),
            ("b", &[0]),
            ("b", &[0]),
            ("b", &[0]),
            ("b", &[0]),
            ("b", &[0]),
            ("b", &[0]),
            ("b", &[0]),
            ("b", &[0]),
            ("b", &[0]),
            ("b", &[0]),
            ("b", &[0]),
            ("b", &[0]),
            ("b", &[0]),
            ("b", &[0]),
            ("b", &[0]),
            ("b", &[0]),
            ("b", &[0]),
            ("b", &[0]),
            ("b", &[0]),
            ("b", &[0]),
            ("b", &[0]),
            ("b", &[0]),
            ("b", &[0]),
            ("b", &[0]),
            ("b", &[0]),
            ("b", &[0]),
            ("b", &[0]),
            ("b", &[0]),
            ("b", &[0]),
            ("b", &[0]),
            ("b", &[0]),
            ("b", &[0]),
            ("b", &[0]),
            ("b", &[0]),
            ("b", &[0]),
            ("b", &[0]),
            ("b", &[0]),
            ("b", &[0]),
            ("b", &[0]),
            ("b", &[0]),
            ("b", &[0]),
            ("b", &[0]),
            ("b", &[0]),
            ("b", &[0]),
            ("b", &[0]),
            ("b", &[0]),
            ("b", &[0]),
            ("b", &[0]),
            ("b", &[0]),
            ("b", &[0]),
            ("b", &[0]),
            ("b", &[0]),
            ("b", &[0]),
            ("b", &[0]),
        ]),
    },
    Row {
        file: b"DYN 1 \"\" { { \"a\" \"b\" { 0 } } { \"a\" \"b\" { 0 } } { \"a\" \"b\" { 0 } } { \"a\" \"b\" { 0 } } { \"a\" \"b\" { 0 } } { \"a\" \"b\" { 0 } } { \"a\" \"b\" { 0 } } { \"a\" \"b\" { 0 } } { \"a\" \"b\" { 0 } } { \"a\" \"b\" { 0 } } { \"a\" \"b\" { 0 } } { \"a\" \"b\" { 0 } } { \"a\" \"b\" { 0 } } { \"a\" \"b\" { 0 } } { \"a\" \"b\" { 0 } } { \"a\" \"b\" { 0 } } { \"a\" \"b\" { 0 } } { \"a\" \"b\" { 0 } } { \"a\" \"b\" { 0 } } { \"a\" \"b\" { 0 } } { \"a\" \"b\" { 0 } } { \"a\" \"b\" { 0 } } { \"a\" \"b\" { 0 } } { \"a\" \"b\" { 0 } } { \"a\" \"b\" { 0 } } { \"a\" \"b\" { 0 } } { \"a\" \"b\" { 0 } } { \"a\" \"b\" { 0 } } { \"a\" \"b\" { 0 } } { \"a\" \"b\" { 0 } } { \"a\" \"b\" { 0 } } { \"a\" \"b\" { 0 } } { \"a\" \"b\" { 0 } } { \"a\" \"b\" { 0 } } { \"a\" \"b\" { 0 } } { \"a\" \"b\" { 0 } } { \"a\" \"b\" { 0 } } { \"a\" \"b\" { 0 } } { \"a\" \"b\" { 0 } } { \"a\" \"b\" { 0 } } { \"a\" \"b\" { 0 } } { \"a\" \"b\" { 0 } } { \"a\" \"b\" { 0 } } { \"a\" \"b\" { 0 } } { \"a\" \"b\" { 0 } } { \"a\" \"b\" { 0 } } { \"a\" \"b\" { 0 } } { \"a\" \"b\" { 0 } } { \"a\" \"b\" { 0 } } { \"a\" \"b\" { 0 } } { \"a\" \"b\" { 0 } } { \"a\" \"b\" { 0 } } { \"a\" \"b\" { 0 } } { \"a\" \"b\" { 0 } } { \"a\" \"b\" { 0 } } { \"a\" \"b\" { 0 } } { \"a\" \"b\" { 0 } } { \"a\" \"b\" { 0 } } { \"a\" \"b\" { 0 } } { \"a\" \"b\" { 0 } } { \"a\" \"b\" { 0 } } { \"a\" \"b\" { 0 } } { \"a\" \"b\" { 0 } } { \"a\" \"b\" { 0 } } { \"a\" \"b\" { 0 } } }",
        wanted: Wanted::Fault(NfgFault::Limit {
            what: What::States,
            number: 65,
            at: 1163,
        }),
    },
    Row {
        file: b"DYN 1 \"\" { { \"a\" \"b\" { 0 } } { \"a\" \"b\" { 0 } } { \"a\" \"b\" { 0 } } { \"a\" \"b\" { 0 } } { \"a\" \"b\" { 0 } } { \"a\" \"b\" { 0 } } { \"a\" \"b\" { 0 } } { \"a\" \"b\" { 0 } } { \"a\" \"b\" { 0 } } { \"a\" \"b\" { 0 } } { \"a\" \"b\" { 0 } } { \"a\" \"b\" { 0 } } { \"a\" \"b\" { 0 } } { \"a\" \"b\" { 0 } } { \"a\" \"b\" { 0 } } { \"a\" \"b\" { 0 } } { \"a\" \"b\" { 0 } } { \"a\" \"b\" { 0 } } { \"a\" \"b\" { 0 } } { \"a\" \"b\" { 0 } } { \"a\" \"b\" { 0 } } { \"a\" \"b\" { 0 } } { \"a\" \"b\" { 0 } } { \"a\" \"b\" { 0 } } { \"a\" \"b\" { 0 } } { \"a\" \"b\" { 0 } } { \"a\" \"b\" { 0 } } { \"a\" \"b\" { 0 } } { \"a\" \"b\" { 0 } } { \"a\" \"b\" { 0 } } { \"a\" \"b\" { 0 } } { \"a\" \"b\" { 0 } } { \"a\" \"b\" { 0 } } { \"a\" \"b\" { 0 } } { \"a\" \"b\" { 0 } } { \"a\" \"b\" { 0 } } { \"a\" \"b\" { 0 } } { \"a\" \"b\" { 0 } } { \"a\" \"b\" { 0 } } { \"a\" \"b\" { 0 } } { \"a\" \"b\" { 0 } } { \"a\" \"b\" { 0 } } { \"a\" \"b\" { 0 } } { \"a\" \"b\" { 0 } } { \"a\" \"b\" { 0 } } { \"a\" \"b\" { 0 } } { \"a\" \"b\" { 0 } } { \"a\" \"b\" { 0 } } { \"a\" \"b\" { 0 } } { \"a\" \"b\" { 0 } } { \"a\" \"b\" { 0 } } { \"a\" \"b\" { 0 } } { \"a\" \"b\" { 0 } } { \"a\" \"b\" { 0 } } { \"a\" \"b\" { 0 } } { \"a\" \"b\" { 0 } } { \"a\" \"b\" { 0 } } { \"a\" \"b\" { 0 } } { \"a\" \"b\" { 0 } } { \"a\" \"b\" { 0 } } { \"a\" \"b\" { 0 } } { \"a\" \"b\" { 0 } } { \"a\" \"b\" { 0 } } { \"a\" \"b\" { 0 } } x }",
        wanted: Wanted::Fault(NfgFault::Bad { at: 1163 }),
    },
    Row {
        file: b"DYN 1 \"x\" { }",
        wanted: Wanted::Fault(NfgFault::Bad { at: 12 }),
    },
    Row {
        file: b"",
        wanted: Wanted::Fault(NfgFault::Bad { at: 0 }),
    },
    Row {
        file: b"NFG 1 R",
        wanted: Wanted::Fault(NfgFault::Bad { at: 0 }),
    },
    Row {
        file: b"DYN 2 \"x\"",
        wanted: Wanted::Fault(NfgFault::Bad { at: 4 }),
    },
    Row {
        file: b"DYN 1 x",
        wanted: Wanted::Fault(NfgFault::Bad { at: 6 }),
    },
    Row {
        file: b"DYN 1 \"x\" \"y\"",
        wanted: Wanted::Fault(NfgFault::Bad { at: 10 }),
    },
    Row {
        file: b"DYN 1 \"x\" { { \"a\" \"\xff\xfe\" { 0 } } }",
        wanted: Wanted::Fault(NfgFault::Bad { at: 18 }),
    },
    Row {
        file: b"DYN 1 \"x\" { { \"a\" { 0 } } }",
        wanted: Wanted::Fault(NfgFault::Bad { at: 18 }),
    },
    Row {
        file: b"DYN 1 \"x\" { { \"a\" \"b\" 0 } }",
        wanted: Wanted::Fault(NfgFault::Bad { at: 22 }),
    },
    Row {
        file: b"DYN 1 \"x\" { { \"a\" \"b\" { 0 -1 } } }",
        wanted: Wanted::Fault(NfgFault::Bad { at: 26 }),
    },
    Row {
        file: b"DYN 1 \"x\" { { \"a\" \"b\" { 1/1 } } }",
        wanted: Wanted::Fault(NfgFault::Bad { at: 24 }),
    },
    Row {
        file: b"DYN 1 \"x\" { { \"a\" \"b\" { 0 } } } }",
        wanted: Wanted::Fault(NfgFault::Bad { at: 32 }),
    },
    Row {
        file: b"DYN 1 \"x\" { { \"a\" \"b\" { 0 } }",
        wanted: Wanted::Fault(NfgFault::Bad { at: 29 }),
    },
    Row {
        file: b"DYN 1 \"x\" { { \"a\" \"b\" { 0 } 0 } }",
        wanted: Wanted::Fault(NfgFault::Bad { at: 28 }),
    },
    Row {
        file: b"DYN 1 \"x\" { { \"a\" \"b\" { 0 } } \"c\" }",
        wanted: Wanted::Fault(NfgFault::Bad { at: 30 }),
    },
    Row {
        file: b"DYN 1 \"x\" { { \"a\" \"b { 0 } } }",
        wanted: Wanted::Fault(NfgFault::Bad { at: 18 }),
    },
    Row {
        file: b"DYN 1 \"x\" { { \"a\" \"b\" { 1 4294967296 } } }",
        wanted: Wanted::Fault(NfgFault::Limit {
            what: What::Whole,
            number: 4294967296,
            at: 26,
        }),
    },
    Row {
        file: b"DYN 1 \"x\" { { \"a\" \"b\" { 999999999999999999999999999999999999 } } }",
        wanted: Wanted::Fault(NfgFault::Limit {
            what: What::Whole,
            number: 999999999999999999999999999999999999,
            at: 24,
        }),
    },
    Row {
        file: b"DYN 1 \"x\" { { \"a\" \"b\" { 0000000000000000000000000000000000000 } } }",
        wanted: Wanted::Fault(NfgFault::Limit {
            what: What::Digits,
            number: 37,
            at: 24,
        }),
    },
];

fn are_states(dynamic: &Dyn, wanted: &[(&str, &[u32])]) -> bool {
    for i in 0..dynamic.states.len() {
        let state = dynamic.states.get(i);
        match wanted.get(i as usize) {
            Some((file, next)) => {
                if state.file.as_str() != *file || state.next.len() as usize != next.len() {
                    return false;
                }
                for k in 0..state.next.len() {
                    if next.get(k as usize) != Some(state.next.get(k)) {
                        return false;
                    }
                }
            }
            None => return false,
        }
    }
    dynamic.states.len() as usize == wanted.len()
}

fn is_read(alloc: Global, row: &Row) -> bool {
    match (read_dyn(alloc, row.file), &row.wanted) {
        (Ok(dynamic), Wanted::States(states)) => are_states(&dynamic, states),
        (Err(fault), Wanted::Fault(wanted)) => fault == *wanted,
        _ => false,
    }
}

#[test]
fn files_and_faults(rt: HostRuntime) {
    for (i, row) in ROWS.iter().enumerate() {
        assert!(rt; is_read(rt.alloc(), row), "row {i}");
    }
}

/// Texts, and their transitions in canonical form.
const WRITTEN: [(&[u8], &[u8]); 2] = [
    (
        b"DYN 1 \"two\" { { \"good\" \"pd.nfg\" { 0 1 1 1 } } { \"bad\" \"nil.nfg\" { 1 } } }",
        b"DYN 1 \"two\" {\n{ \"good\" \"pd.nfg\" { 0 1 1 1 } }\n{ \"bad\" \"nil.nfg\" { 1 } }\n}\n",
    ),
    (
        b"DYN,1\"\"{{\"a\\\"\" \"b\\\"c\"{}}}",
        b"DYN 1 \"\" {\n{ \"a\\\"\" \"b\\\"c\" { } }\n}\n",
    ),
];

fn is_written(alloc: Global, file: &[u8], wanted: &[u8]) -> bool {
    match read_dyn(alloc, file) {
        Ok(dynamic) => match write_dyn(alloc, &dynamic) {
            Ok(text) => {
                for i in 0..text.len() {
                    if wanted.get(i as usize) != Some(text.get(i)) {
                        return false;
                    }
                }
                text.len() as usize == wanted.len()
            }
            Err(_) => false,
        },
        Err(_) => false,
    }
}

/// Whether a game has one state that four profiles lead to.
fn is_single(alloc: Global, file: &[u8]) -> bool {
    match read_nfg(alloc, file) {
        Ok(game) => match single(alloc, &game) {
            Ok(dynamic) => are_states(&dynamic, &[("", &[0, 0, 0, 0])]),
            Err(_) => false,
        },
        Err(_) => false,
    }
}

#[test]
fn canonical_texts(rt: HostRuntime) {
    for (i, (file, text)) in WRITTEN.iter().enumerate() {
        assert!(rt; is_written(rt.alloc(), file, text), "text {i}");
        assert!(rt; is_written(rt.alloc(), text, text), "canonical text {i}");
    }
    let game = b"NFG 1 R \"\" { \"1\" \"2\" } { 2 2 } 2 2 3 0 0 3 1 1";
    assert!(rt; is_single(rt.alloc(), game));
}
