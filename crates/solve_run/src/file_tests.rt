// Runs over several files: transitions, the forms of stage games, and each fault with its place.
use super::*;
use game_model::{ShapeFault, ShapeWhat};
use nfg_text::What;
use pay_outside::{Gate, MemShelf, MemSink, OpenGate};
use std::alloc::Global;
use std::process::Abort;
use std::sync::atomic::AtomicU64;
use std::sync::atomic::Ordering::SeqCst;
use std::test::Fail;
use std::thread::Threads;

type File = (&'static str, &'static [u8]);

const DILEMMA: File = (
    "pd.nfg",
    b"NFG 1 R \"PD\" { \"1\" \"2\" } { 2 2 } 2 2 3 0 0 3 1 1",
);

const NOTHING: File = ("nil.nfg", b"NFG 1 R \"nil\" { \"1\" \"2\" } { 1 1 } 0 0");

const TWOS: File = ("a.nfg", b"NFG 1 R \"a\" { \"1\" \"2\" } { 1 1 } 2 2");

const ONES: File = ("one.nfg", b"NFG 1 R \"1\" { \"1\" \"2\" } { 1 1 } 1 1");

const PENNIES: File = (
    "mp.nfg",
    b"NFG 1 R \"MP\" { \"1\" \"2\" } { 2 2 } 1 -1 -1 1 -1 1 1 -1",
);

const TWO: File = (
    "first",
    b"DYN 1 \"two\" { { \"good\" \"pd.nfg\" { 0 1 1 1 } } { \"bad\" \"nil.nfg\" { 1 } } }",
);

const SINK: File = (
    "first",
    b"DYN 1 \"s\" { { \"first\" \"one.nfg\" { 1 } } { \"last\" \"mp.nfg\" { 1 1 1 1 } } }",
);

const FALL: File = (
    "first",
    b"DYN 1 \"f\" { { \"a\" \"a.nfg\" { 1 } } { \"b\" \"nil.nfg\" { 1 } } }",
);

const AT_HALF: [&str; 7] = [
    "solve",
    "first",
    "discount=1/2",
    "directions=4",
    "grid=4",
    "workers=1",
    "inner=0",
];

const AT_A_THIRD: [&str; 7] = [
    "solve",
    "first",
    "discount=1/3",
    "directions=4",
    "grid=4",
    "workers=1",
    "inner=0",
];

/// A call with these words over a shelf with these files, some of whose loads fail, and what its sink took.
fn run<R: Threads + Sync + Abort, G: Gate + Sync>(
    rt: &R,
    alloc: Global,
    texts: &[&str],
    contents: &[File],
    fail: &[u64],
    gate: &G,
    sink: &mut MemSink,
) -> Result<Status, Fail> {
    let mut words = Vec::new(alloc);
    for text in texts {
        words.push(String::from_str(alloc, text)?)?;
    }
    let mut files = Vec::new(alloc);
    for (name, content) in contents {
        files.push((String::from_str(alloc, name)?, content.to_vec(alloc)?))?;
    }
    let mut shelf = MemShelf::new(files, fail.to_vec(alloc)?);
    assert!(rt; words.len() < 100);
    let outcome = payoff_run(rt, alloc, &words, &mut shelf, sink, gate);
    Ok(outcome.status)
}

#[test]
fn dynamic_games_are_solved(rt: HostRuntime) -> Result<(), Fail> {
    let alloc = rt.alloc();
    let spent = [
        "solve",
        "first",
        "discount=1/2",
        "directions=4",
        "grid=4",
        "workers=1",
        "inner=0",
        "budget=8",
    ];
    let inner = [
        "solve",
        "first",
        "discount=1/2",
        "directions=4",
        "grid=4",
        "inner=2",
    ];
    for (words, files, status, text) in [
        (
            &AT_A_THIRD[..],
            &[TWO, DILEMMA, NOTHING][..],
            Status::Settled,
            &b"payoff 1\nstatus settled\nplayers 2\nstates 2\ndirections 4\ndiscount 1/3\nunit 16\nslack 1\nsweeps 4\nsolves 32\nrow 0 0 33\nrow 0 1 -10\nrow 0 2 33\nrow 0 3 -10\nrow 1 0 1\nrow 1 1 0\nrow 1 2 1\nrow 1 3 0\npoint 0 0 0 33 33\npoint 0 1 3 0 1\npoint 0 2 0 33 33\npoint 0 3 3 1 0\npoint 1 0 0 1 1\npoint 1 1 0 0 1\npoint 1 2 0 1 1\npoint 1 3 0 1 0\nend\n"[..],
        ),
        (
            &AT_HALF[..],
            &[SINK, ONES, PENNIES][..],
            Status::Settled,
            &b"payoff 1\nstatus settled\nplayers 2\nstates 2\ndirections 4\ndiscount 1/2\nunit 16\nslack 1\nsweeps 2\nsolves 16\nrow 0 0 empty\nrow 0 1 empty\nrow 0 2 empty\nrow 0 3 empty\nrow 1 0 empty\nrow 1 1 empty\nrow 1 2 empty\nrow 1 3 empty\nempty 1\nwhy 1 0 farkas level 2 0 1 gain 1 1 16 1\nwhy 1 1 farkas level 0 16 1 gain 0 0 0 1\nwhy 1 2 farkas level 0 16 1 gain 0 1 0 1\nwhy 1 3 farkas level 2 0 1 gain 1 0 16 1\nempty 0\nwhy 0 0 successor 1\nend\n"[..],
        ),
        (
            &spent[..],
            &[SINK, ONES, PENNIES][..],
            Status::Spent { sweeps: 1, row: 0 },
            &b"payoff 1\nstatus spent\nplayers 2\nstates 2\ndirections 4\ndiscount 1/2\nunit 16\nslack 1\nsweeps 1\nsolves 8\nrow 0 0 16\nrow 0 1 0\nrow 0 2 16\nrow 0 3 0\nrow 1 0 empty\nrow 1 1 empty\nrow 1 2 empty\nrow 1 3 empty\nstop 0 0 16 none\nempty 1\nwhy 1 0 farkas level 2 0 1 gain 1 1 16 1\nwhy 1 1 farkas level 0 16 1 gain 0 0 0 1\nwhy 1 2 farkas level 0 16 1 gain 0 1 0 1\nwhy 1 3 farkas level 2 0 1 gain 1 0 16 1\nend\n"[..],
        ),
        (
            &inner[..],
            &[SINK, ONES, PENNIES][..],
            Status::Settled,
            &b"payoff 1\nstatus settled\nplayers 2\nstates 2\ndirections 4\ndiscount 1/2\nunit 16\nslack 1\nsweeps 2\nsolves 16\nrow 0 0 empty\nrow 0 1 empty\nrow 0 2 empty\nrow 0 3 empty\nrow 1 0 empty\nrow 1 1 empty\nrow 1 2 empty\nrow 1 3 empty\nempty 1\nwhy 1 0 farkas level 2 0 1 gain 1 1 16 1\nwhy 1 1 farkas level 0 16 1 gain 0 0 0 1\nwhy 1 2 farkas level 0 16 1 gain 0 1 0 1\nwhy 1 3 farkas level 2 0 1 gain 1 0 16 1\nempty 0\nwhy 0 0 successor 1\nset 0 0\nset 1 0\nend\n"[..],
        ),
    ] {
        let mut sink = MemSink::new(alloc, 1000, Vec::new(alloc))?;
        let found = run(&rt, alloc, words, files, &[], &OpenGate, &mut sink)?;
        assert_eq!(rt; found, status);
        assert_eq!(rt; sink.taken(), text);
    }
    Ok(())
}

/// Whether a text stands in another.
fn has(text: &[u8], part: &[u8]) -> bool {
    for at in 0..text.len() {
        if text[at..].starts_with(part) {
            return true;
        }
    }
    false
}

#[test]
fn forms_of_stage_games_are_read(rt: HostRuntime) -> Result<(), Fail> {
    let alloc = rt.alloc();
    let coarse = [
        "solve",
        "first",
        "inner=0",
        "grid=0",
        "directions=4",
        "discount=1/2",
    ];
    for (words, file, part) in [
        (
            &AT_HALF[..],
            &b"NFG 1 R \"PD\" { \"1\" \"2\" } { { \"C\" \"D\" } { \"C\" \"D\" } } \"a comment\" { { \"both\" 2, 2 } { \"a\" 3, 0 } { \"b\" 0, 3 } { \"none\" 1, 1 } } 1 2 3 4"[..],
            &b"sweeps 4\nsolves 16\nrow 0 0 48\nrow 0 1 -15\nrow 0 2 48\nrow 0 3 -15\n"[..],
        ),
        (
            &coarse[..],
            &b"NFG 1 R \"\" { \"1\" \"2\" } { 1 1 } -.5 0.10"[..],
            &b"unit 10\nslack 1\nsweeps 0\nsolves 0\nrow 0 0 -5\nrow 0 1 5\nrow 0 2 1\nrow 0 3 -1\n"[..],
        ),
    ] {
        let mut sink = MemSink::new(alloc, 1000, Vec::new(alloc))?;
        let status = run(
            &rt,
            alloc,
            words,
            &[("first", file)],
            &[],
            &OpenGate,
            &mut sink,
        )?;
        assert_eq!(rt; status, Status::Settled);
        assert!(rt; has(sink.taken(), part));
    }
    Ok(())
}

#[test]
fn faults_of_texts_have_places(rt: HostRuntime) -> Result<(), Fail> {
    let alloc = rt.alloc();
    let file = FileId::First;
    let many =
        b"NFG 1 R \"PD\" { \"1\" \"2\" } { 2 2 } 1111111111111111111111111111111111111 2 3 0 0 3 1 1";
    for (text, wanted) in [
        (
            &b"NFG 1 R \"PD\" { \"1\" \"2\" } { 2 2 } 2 2 3 0 0 3 1"[..],
            Status::BadInput { file, at: 46 },
        ),
        (
            &b"NFG 1 R \"PD\" { \"1\" \"2\" } { 2 2 } 2 2 3 0 0 3 1 1 1"[..],
            Status::BadInput { file, at: 49 },
        ),
        (
            &b"NFG 1 R \"PD\" { \"1\" \"2\" } { 2 2 } 1/0 2 3 0 0 3 1 1"[..],
            Status::BadInput { file, at: 33 },
        ),
        (
            &many[..],
            Status::Beyond {
                what: What::Digits,
                number: 37,
            },
        ),
        (
            &b"NFG 1 R \"l\" { \"1\" \"2\" \"3\" } { 1 1 1 } 0 0 0"[..],
            Status::Beyond {
                what: What::Players,
                number: 3,
            },
        ),
        (
            &b"NFG 1 R \"l\" { \"1\" \"2\" } { 17 1 } 0 0"[..],
            Status::Beyond {
                what: What::Strategies,
                number: 17,
            },
        ),
        (
            &b"NFG 1 R \"l\" { \"1\" \"2\" } { 1 1 } 1/3 1/549755813888"[..],
            Status::Beyond {
                what: What::Denominator,
                number: 1_649_267_441_664,
            },
        ),
        (
            &b"NFG 1 R \"l\" { \"1\" \"2\" } { 1 1 } 0 -67108865"[..],
            Status::Beyond {
                what: What::Payoff,
                number: 67_108_865,
            },
        ),
        (&b"DYN 1 \"x\" { }"[..], Status::BadInput { file, at: 12 }),
        (
            &b"DYN 1 \"x\" { { \"a\" \"b\" { 4294967296 } } }"[..],
            Status::Beyond {
                what: What::Whole,
                number: 4_294_967_296,
            },
        ),
        (&b"  game"[..], Status::BadInput { file, at: 2 }),
        (&b""[..], Status::BadInput { file, at: 0 }),
    ] {
        let mut sink = MemSink::new(alloc, 1000, Vec::new(alloc))?;
        let status = run(
            &rt,
            alloc,
            &AT_HALF,
            &[("first", text)],
            &[],
            &OpenGate,
            &mut sink,
        )?;
        assert_eq!(rt; status, wanted);
        assert!(rt; sink.taken().is_empty());
    }
    Ok(())
}

#[test]
fn faults_of_states_are_told(rt: HostRuntime) -> Result<(), Fail> {
    let alloc = rt.alloc();
    let short: File = (
        "first",
        b"DYN 1 \"two\" { { \"good\" \"pd.nfg\" { 0 1 1 } } { \"bad\" \"nil.nfg\" { 1 } } }",
    );
    let unknown: File = (
        "first",
        b"DYN 1 \"two\" { { \"good\" \"pd.nfg\" { 0 1 1 2 } } { \"bad\" \"nil.nfg\" { 1 } } }",
    );
    let cut: File = ("nil.nfg", b"NFG 1 R \"nil\" { \"1\" \"2\" } { 1 1 } 0");
    let state = FileId::State(1);
    for (files, fail, wanted) in [
        (
            &[TWO, DILEMMA, NOTHING][..],
            &[2][..],
            Status::ReadFault { file: state },
        ),
        (
            &[TWO, DILEMMA][..],
            &[][..],
            Status::ReadFault { file: state },
        ),
        (
            &[DILEMMA, NOTHING][..],
            &[][..],
            Status::ReadFault {
                file: FileId::First,
            },
        ),
        (
            &[TWO, DILEMMA, cut][..],
            &[][..],
            Status::BadInput {
                file: state,
                at: 35,
            },
        ),
        (
            &[short, DILEMMA, NOTHING][..],
            &[][..],
            shape(ShapeWhat::Successors, 3, 4),
        ),
        (
            &[unknown, DILEMMA, NOTHING][..],
            &[][..],
            shape(ShapeWhat::Successor, 2, 2),
        ),
    ] {
        let mut sink = MemSink::new(alloc, 1000, Vec::new(alloc))?;
        let status = run(&rt, alloc, &AT_HALF, files, fail, &OpenGate, &mut sink)?;
        assert_eq!(rt; status, wanted);
        assert!(rt; sink.taken().is_empty());
    }
    Ok(())
}

/// A fault of state 0.
fn shape(what: ShapeWhat, found: u64, wanted: u64) -> Status {
    Status::Shape {
        fault: ShapeFault {
            what,
            state: 0,
            found,
            wanted,
        },
    }
}

/// How often a held worker looks whether it may go on.
const MOST_TURNS: u64 = 10_000_000;

/// A gate that holds who is before row 0 until a worker has come back from row 4.
#[derive(Drop)]
struct RowGate {
    back: AtomicU64,
    turns: AtomicU64,
}

impl Gate for RowGate {
    fn before(&self, _worker: u32, row: u32) {
        if row == 0 {
            for _ in 0..MOST_TURNS {
                if self.back.load(SeqCst) > 0 {
                    return;
                }
                self.turns.fetch_add(1, SeqCst);
            }
        }
    }

    fn after(&self, _worker: u32, row: u32) {
        if row == 4 {
            self.back.fetch_add(1, SeqCst);
        }
    }
}

#[test]
fn a_worker_sees_what_another_lowered(rt: HostRuntime) -> Result<(), Fail> {
    let alloc = rt.alloc();
    let words = [
        "solve",
        "first",
        "discount=1/2",
        "directions=4",
        "grid=4",
        "workers=2",
        "inner=0",
        "budget=8",
    ];
    let gate = RowGate {
        back: AtomicU64::new(0),
        turns: AtomicU64::new(0),
    };
    let mut sink = MemSink::new(alloc, 1000, Vec::new(alloc))?;
    let files = [FALL, TWOS, NOTHING];
    let status = run(&rt, alloc, &words, &files, &[], &gate, &mut sink)?;
    assert!(rt; matches!(status, Status::Spent { sweeps: 1, .. }));
    assert!(rt; gate.turns.load(SeqCst) < MOST_TURNS);
    assert!(rt; has(sink.taken(), b"\nrow 0 0 24\n"));
    Ok(())
}
