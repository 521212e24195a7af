// Runs over files and a sink in memory: the words, the file, and what comes of them.
use super::*;
use nfg_text::What;
use pay_outside::{Gate, HoldGate, MemShelf, MemSink, OpenGate};
use std::alloc::Global;
use std::process::Abort;
use std::sync::atomic::AtomicU64;
use std::sync::atomic::Ordering::SeqCst;
use std::test::Fail;
use std::thread::Threads;

const PD: &[u8] = b"NFG 1 R \"PD\" { \"1\" \"2\" } { 2 2 } 2 2 3 0 0 3 1 1";

const SELTEN: &[u8] =
    b"NFG 1 R \"Selten (IJGT, 75), Figure 2, normal form\" { \"Player 1\" \"Player 2\" } { 3 2 } 1 1 0 2 0 2 1 1 0 3 2 0";

const MP: &[u8] = b"NFG 1 R \"MP\" { \"1\" \"2\" } { 2 2 } 1 -1 -1 1 -1 1 1 -1";

const ONE: &[u8] = b"NFG 1 R \"one\" { \"A\" \"B\" } { 1 1 } 1 2";

const BIG: &[u8] = b"NFG 1 R \"big\" { \"1\" \"2\" } { 1 1 } 1048577 0";

const LARGE: &[u8] = b"NFG 1 R \"big\" { \"1\" \"2\" } { 1 1 } 1048576 0";

const AT_HALF: [&str; 7] = [
    "solve",
    "pd.nfg",
    "discount=1/2",
    "directions=4",
    "grid=4",
    "workers=1",
    "inner=0",
];

const OUT_OF_ORDER: [&str; 7] = [
    "solve",
    "pd.nfg",
    "inner=0",
    "workers=1",
    "grid=4",
    "directions=4",
    "discount=.5",
];

const SLACK_2: [&str; 8] = [
    "solve",
    "pd.nfg",
    "discount=1/2",
    "directions=4",
    "grid=4",
    "workers=1",
    "inner=0",
    "slack=2",
];

const EIGHT_DIRECTIONS: [&str; 6] = [
    "solve",
    "pd.nfg",
    "discount=1/2",
    "directions=8",
    "grid=0",
    "inner=0",
];

const GRID_16: [&str; 6] = [
    "solve",
    "pd.nfg",
    "discount=1/2",
    "directions=4",
    "grid=16",
    "inner=0",
];

const GRID_30: [&str; 6] = [
    "solve",
    "pd.nfg",
    "discount=1/2",
    "directions=4",
    "grid=30",
    "inner=0",
];

const AT_NINE_TENTHS: [&str; 7] = [
    "solve",
    "pd.nfg",
    "discount=9/10",
    "directions=4",
    "grid=4",
    "workers=1",
    "inner=0",
];

/// The words of the first example with one more word.
fn with_word(word: &str) -> [&str; 8] {
    [
        "solve",
        "pd.nfg",
        "discount=1/2",
        "directions=4",
        "grid=4",
        "workers=1",
        "inner=0",
        word,
    ]
}

/// A call with these words over a shelf with this content of `pd.nfg`, and what its sink took.
fn run<R: Threads + Sync + Abort>(
    rt: &R,
    alloc: Global,
    texts: &[&str],
    content: Option<Vec<u8>>,
    sink: &mut MemSink,
) -> Result<Status, Fail> {
    run_at(rt, alloc, texts, content, sink, &OpenGate)
}

/// The same at a gate.
fn run_at<R: Threads + Sync + Abort, G: Gate + Sync>(
    rt: &R,
    alloc: Global,
    texts: &[&str],
    content: Option<Vec<u8>>,
    sink: &mut MemSink,
    gate: &G,
) -> Result<Status, Fail> {
    let mut words = Vec::new(alloc);
    for text in texts {
        words.push(String::from_str(alloc, text)?)?;
    }
    let mut files = Vec::new(alloc);
    if let Some(bytes) = content {
        files.push((String::from_str(alloc, "pd.nfg")?, bytes))?;
    }
    let mut shelf = MemShelf::new(files, Vec::new(alloc));
    assert!(rt; words.len() < 100);
    let outcome = payoff_run(rt, alloc, &words, &mut shelf, sink, gate);
    Ok(outcome.status)
}

#[test]
fn games_are_settled(rt: HostRuntime) -> Result<(), Fail> {
    let alloc = rt.alloc();
    for (content, words, start) in [
        (
            PD,
            &AT_HALF[..],
            &b"payoff 1\nstatus settled\nplayers 2\nstates 1\ndirections 4\ndiscount 1/2\nunit 16\nslack 1\nsweeps 4\nsolves 16\nrow 0 0 48\nrow 0 1 -15\nrow 0 2 48\nrow 0 3 -15\npoint 0 0 "[..],
        ),
        (
            PD,
            &with_word("budget=16")[..],
            &b"payoff 1\nstatus settled\nplayers 2\nstates 1\ndirections 4\ndiscount 1/2\nunit 16\nslack 1\nsweeps 4\nsolves 16\nrow 0 0 48\nrow 0 1 -15\nrow 0 2 48\nrow 0 3 -15\npoint 0 0 "[..],
        ),
        (
            PD,
            &OUT_OF_ORDER[..],
            &b"payoff 1\nstatus settled\nplayers 2\nstates 1\ndirections 4\ndiscount 1/2\nunit 16\nslack 1\nsweeps 4\nsolves 16\nrow 0 0 48\nrow 0 1 -15\nrow 0 2 48\nrow 0 3 -15\npoint 0 0 "[..],
        ),
        (
            PD,
            &SLACK_2[..],
            &b"payoff 1\nstatus settled\nplayers 2\nstates 1\ndirections 4\ndiscount 1/2\nunit 16\nslack 2\nsweeps 3\nsolves 12\nrow 0 0 48\nrow 0 1 -14\nrow 0 2 48\nrow 0 3 -14\npoint 0 0 "[..],
        ),
        (
            ONE,
            &EIGHT_DIRECTIONS[..],
            &b"payoff 1\nstatus settled\nplayers 2\nstates 1\ndirections 8\ndiscount 1/2\nunit 1\nslack 1\nsweeps 0\nsolves 0\nrow 0 0 1\nrow 0 1 -1\nrow 0 2 2\nrow 0 3 -2\nrow 0 4 3\nrow 0 5 -3\nrow 0 6 -1\nrow 0 7 1\npoint 0 0 0 1 2\npoint 0 1 0 1 2\npoint 0 2 0 1 2\npoint 0 3 0 1 2\npoint 0 4 0 1 2\npoint 0 5 0 1 2\npoint 0 6 0 1 2\npoint 0 7 0 1 2\nend\n"[..],
        ),
        (BIG, &GRID_16[..], &b"payoff 1\nstatus settled\n"[..]),
        (
            LARGE,
            &GRID_30[..],
            &b"payoff 1\nstatus settled\nplayers 2\nstates 1\ndirections 4\ndiscount 1/2\nunit 1073741824\n"[..],
        ),
        (
            MP,
            &AT_HALF[..],
            &b"payoff 1\nstatus settled\nplayers 2\nstates 1\ndirections 4\ndiscount 1/2\nunit 16\nslack 1\nsweeps 1\nsolves 4\nrow 0 0 empty\nrow 0 1 empty\nrow 0 2 empty\nrow 0 3 empty\nempty 0\nwhy 0 0 farkas level 2 0 1 gain 1 1 16 1\nwhy 0 1 farkas level 0 16 1 gain 0 0 0 1\nwhy 0 2 farkas level 0 16 1 gain 0 1 0 1\nwhy 0 3 farkas level 2 0 1 gain 1 0 16 1\nend\n"[..],
        ),
        (
            SELTEN,
            &AT_NINE_TENTHS[..],
            &b"payoff 1\nstatus settled\nplayers 2\nstates 1\ndirections 4\ndiscount 9/10\nunit 144\nslack 1\nsweeps 31\nsolves 124\nrow 0 0 288\nrow 0 1 -135\nrow 0 2 432\nrow 0 3 -135\npoint 0 0 "[..],
        ),
    ] {
        let mut sink = MemSink::new(alloc, 7, Vec::new(alloc))?;
        let status = run(&rt, alloc, words, Some(content.to_vec(alloc)?), &mut sink)?;
        assert_eq!(rt; status, Status::Settled);
        assert!(rt; sink.taken().starts_with(start));
        assert!(rt; sink.taken().ends_with(b"\nend\n"));
    }
    Ok(())
}

#[test]
fn budgets_are_spent(rt: HostRuntime) -> Result<(), Fail> {
    let alloc = rt.alloc();
    let opening =
        b"sweeps 0\nsolves 0\nrow 0 0 48\nrow 0 1 0\nrow 0 2 48\nrow 0 3 0\nstop 0 1 0 -8\nend\n";
    let third =
        b"sweeps 3\nsolves 12\nrow 0 0 48\nrow 0 1 -14\nrow 0 2 48\nrow 0 3 -14\nstop 0 1 -14 -15\nend\n";
    for (word, sweeps, end) in [
        ("budget=0", 0, &opening[..]),
        ("budget=3", 0, &opening[..]),
        (
            "budget=4",
            1,
            &b"sweeps 1\nsolves 4\nrow 0 0 48\nrow 0 1 -8\nrow 0 2 48\nrow 0 3 -8\nstop 0 1 -8 -12\nend\n"[..],
        ),
        (
            "budget=8",
            2,
            &b"sweeps 2\nsolves 8\nrow 0 0 48\nrow 0 1 -12\nrow 0 2 48\nrow 0 3 -12\nstop 0 1 -12 -14\nend\n"[..],
        ),
        ("budget=12", 3, &third[..]),
        ("budget=15", 3, &third[..]),
    ] {
        let mut sink = MemSink::new(alloc, 7, Vec::new(alloc))?;
        let status = run(
            &rt,
            alloc,
            &with_word(word),
            Some(PD.to_vec(alloc)?),
            &mut sink,
        )?;
        assert_eq!(rt; status, Status::Spent { sweeps, row: 1 });
        let mut text = Vec::new(alloc);
        text.extend_from_slice(
            b"payoff 1\nstatus spent\nplayers 2\nstates 1\ndirections 4\ndiscount 1/2\nunit 16\nslack 1\n",
        )?;
        text.extend_from_slice(end)?;
        assert_eq!(rt; sink.taken(), text.as_slice());
    }
    Ok(())
}

#[test]
fn more_directions_are_spent(rt: HostRuntime) -> Result<(), Fail> {
    let alloc = rt.alloc();
    let mut sink = MemSink::new(alloc, 7, Vec::new(alloc))?;
    let words = [
        "solve",
        "pd.nfg",
        "discount=1/2",
        "directions=8",
        "grid=4",
        "inner=0",
        "budget=0",
    ];
    let status = run(&rt, alloc, &words, Some(PD.to_vec(alloc)?), &mut sink)?;
    assert_eq!(rt; status, Status::Spent { sweeps: 0, row: 1 });
    assert!(rt;
        sink.taken().ends_with(
            b"row 0 0 48\nrow 0 1 0\nrow 0 2 48\nrow 0 3 0\nrow 0 4 96\nrow 0 5 0\nrow 0 6 48\nrow 0 7 48\nstop 0 1 0 -8\nend\n"
        )
    );
    Ok(())
}

#[test]
fn limits_are_told(rt: HostRuntime) -> Result<(), Fail> {
    let alloc = rt.alloc();
    for (content, words, what, number) in [
        (
            BIG,
            &["solve", "pd.nfg", "discount=1/2", "directions=4", "grid=30"][..],
            What::Opening,
            1_125_900_980_584_448,
        ),
        (
            PD,
            &["solve", "pd.nfg", "discount=1/2000"][..],
            What::Discount,
            2000,
        ),
    ] {
        let mut sink = MemSink::new(alloc, 7, Vec::new(alloc))?;
        let status = run(&rt, alloc, words, Some(content.to_vec(alloc)?), &mut sink)?;
        assert_eq!(rt; status, Status::Beyond { what, number });
        assert!(rt; sink.taken().is_empty());
    }
    Ok(())
}

#[test]
fn words_that_do_not_fit_are_named(rt: HostRuntime) -> Result<(), Fail> {
    let alloc = rt.alloc();
    for (words, index) in [
        (&[][..], 0),
        (&["solve"][..], 1),
        (&["solve", "pd.nfg", "discount=1"][..], 2),
        (&["solve", "pd.nfg", "discount=0"][..], 2),
        (&["solve", "pd.nfg", "workers=0"][..], 2),
        (&["solve", "pd.nfg", "workers=17"][..], 2),
        (&with_word("slack=0")[..], 7),
        (&with_word("grid=4")[..], 7),
    ] {
        let mut sink = MemSink::new(alloc, 7, Vec::new(alloc))?;
        let status = run(&rt, alloc, words, Some(PD.to_vec(alloc)?), &mut sink)?;
        assert_eq!(rt; status, Status::Usage { index });
        assert!(rt; sink.taken().is_empty());
    }
    Ok(())
}

#[test]
fn files_that_give_no_game_are_refused(rt: HostRuntime) -> Result<(), Fail> {
    let alloc = rt.alloc();
    let file = FileId::First;
    for (content, wanted) in [
        (None, Status::ReadFault { file }),
        (Some(Vec::new(alloc)), Status::BadInput { file, at: 0 }),
        (
            Some(vec![in alloc; b' '; 1_048_577]?),
            Status::TooLong { file },
        ),
    ] {
        let mut sink = MemSink::new(alloc, 7, Vec::new(alloc))?;
        let status = run(&rt, alloc, &AT_HALF, content, &mut sink)?;
        assert_eq!(rt; status, wanted);
        assert!(rt; sink.taken().is_empty());
    }
    Ok(())
}

#[test]
fn output_that_fails_is_told(rt: HostRuntime) -> Result<(), Fail> {
    let alloc = rt.alloc();
    for (words, most_per_put, written, bytes) in [
        (&AT_HALF[..], 7, 7, &b"payoff "[..]),
        (&with_word("budget=15")[..], 10, 10, &b"payoff 1\ns"[..]),
    ] {
        let mut sink = MemSink::new(alloc, most_per_put, vec![in alloc; 1u64]?)?;
        let status = run(&rt, alloc, words, Some(PD.to_vec(alloc)?), &mut sink)?;
        assert_eq!(rt; status, Status::WriteFault { written });
        assert_eq!(rt; sink.taken(), bytes);
    }
    // The first put is offered the whole text.
    let mut sink = MemSink::new(alloc, 1_000_000, vec![in alloc; 1u64]?)?;
    let status = run(&rt, alloc, &AT_HALF, Some(PD.to_vec(alloc)?), &mut sink)?;
    assert_eq!(rt; status, Status::Settled);
    Ok(())
}

/// The words of the first example, with inner sets.
const INNER_AT_HALF: [&str; 7] = [
    "solve",
    "pd.nfg",
    "discount=1/2",
    "directions=4",
    "grid=4",
    "workers=1",
    "inner=1",
];

const INNER_BELOW_HALF: [&str; 7] = [
    "solve",
    "pd.nfg",
    "discount=49/100",
    "directions=4",
    "grid=4",
    "workers=1",
    "inner=1",
];

const FINE_INNER: [&str; 7] = [
    "solve",
    "pd.nfg",
    "discount=1/2",
    "directions=4",
    "grid=4",
    "workers=1",
    "inner=16",
];

#[test]
fn inner_sets_are_printed(rt: HostRuntime) -> Result<(), Fail> {
    let alloc = rt.alloc();
    for (content, words, end) in [
        // Cooperation, whose incentive binds exactly, and defection.
        (
            PD,
            &INNER_AT_HALF,
            &b"\nset 0 2\nentry 0 0 1 1 profile 3 lottery 0:1 punish 0 0\nentry 0 1 2 2 profile 0 lottery 1:1 punish 0 0\nend\n"[..],
        ),
        // Cooperation is gone.
        (
            PD,
            &INNER_BELOW_HALF,
            &b"\nset 0 1\nentry 0 0 1 1 profile 3 lottery 0:1 punish 0 0\nend\n"[..],
        ),
        (MP, &INNER_AT_HALF, &b"\nset 0 0\nend\n"[..]),
        (
            ONE,
            &FINE_INNER,
            &b"\npoint 0 3 0 16 32\nset 0 1\nentry 0 0 1 2 profile 0 lottery 0:1 punish\nend\n"[..],
        ),
    ] {
        let mut sink = MemSink::new(alloc, 1000, Vec::new(alloc))?;
        let status = run(&rt, alloc, words, Some(content.to_vec(alloc)?), &mut sink)?;
        assert_eq!(rt; status, Status::Settled);
        assert!(rt; sink.taken().ends_with(end));
    }
    Ok(())
}

#[test]
fn inner_sets_are_fine_by_default(rt: HostRuntime) -> Result<(), Fail> {
    let alloc = rt.alloc();
    let words = ["solve", "pd.nfg", "discount=9/10"];
    let mut sink = MemSink::new(alloc, 100_000, Vec::new(alloc))?;
    let content = SELTEN.to_vec(alloc)?;
    run(&rt, alloc, &words, Some(content), &mut sink)?;
    assert!(rt;
        !split_at_first(sink.taken(), b"\ndirections 16\n")
            .1
            .is_empty()
    );
    // Parts in eighths are those of a lattice of 16 steps from 0 to 2, in sixteenths those from 0 to 3.
    let sets = split_at_first(sink.taken(), b"\nset 0 ").1;
    assert!(rt;
        !split_at_first(sets, b" 1 1 profile 0 lottery ")
            .1
            .is_empty()
    );
    assert!(rt; !split_at_first(sets, b"/16 profile ").1.is_empty());
    Ok(())
}

/// What stands in a text before the first place of another, and from there on.
fn split_at_first<'t>(text: &'t [u8], mark: &[u8]) -> (&'t [u8], &'t [u8]) {
    for at in 0..text.len() {
        if text[at..].starts_with(mark) {
            return (&text[..at], &text[at..]);
        }
    }
    (text, &text[..0])
}

/// The lines of rows.
fn rows_in(text: &[u8]) -> &[u8] {
    let rows = split_at_first(text, b"\nrow ").1;
    split_at_first(split_at_first(rows, b"\npoint ").0, b"\nempty ").0
}

/// Runs a game to its end by one worker and by several, whose rows are the same.
fn compare<R: Threads + Sync + Abort>(
    rt: &R,
    alloc: Global,
    content: &[u8],
    discount: &str,
    directions: &str,
    workers: &str,
) -> Result<(), Fail> {
    let words = [
        "solve", "pd.nfg", discount, directions, "grid=4", "inner=0", workers,
    ];
    let alone = [
        "solve",
        "pd.nfg",
        discount,
        directions,
        "grid=4",
        "inner=0",
        "workers=1",
    ];
    let mut one = MemSink::new(alloc, 100, Vec::new(alloc))?;
    let mut many = MemSink::new(alloc, 100, Vec::new(alloc))?;
    let first = run(rt, alloc, &alone, Some(content.to_vec(alloc)?), &mut one)?;
    let second = run(rt, alloc, &words, Some(content.to_vec(alloc)?), &mut many)?;
    assert_eq!(rt; first, Status::Settled);
    assert_eq!(rt; second, Status::Settled);
    assert!(rt; !rows_in(one.taken()).is_empty());
    assert_eq!(rt; rows_in(one.taken()), rows_in(many.taken()));
    Ok(())
}

#[test]
fn workers_find_the_same(rt: HostRuntime) -> Result<(), Fail> {
    let alloc = rt.alloc();
    for workers in ["workers=2", "workers=4", "workers=16"] {
        for content in [PD, MP, SELTEN, ONE, BIG] {
            compare(&rt, alloc, content, "discount=1/2", "directions=4", workers)?;
        }
        compare(&rt, alloc, PD, "discount=9/10", "directions=8", workers)?;
        compare(
            &rt,
            alloc,
            SELTEN,
            "discount=9/10",
            "directions=16",
            workers,
        )?;
    }
    Ok(())
}

/// The next number of a fixed sequence.
fn next(seed: u64) -> u64 {
    seed.wrapping_mul(6_364_136_223_846_793_005)
        .wrapping_add(1_442_695_040_888_963_407)
}

/// A game of two or three strategies each with payoffs from 0 to 9.
fn generated(alloc: Global, seed: u64) -> Result<Vec<u8>, Fail> {
    let mut state = next(seed);
    let rows = 2 + (state >> 40) % 2;
    let columns = 2 + (state >> 50) % 2;
    let mut text = b"NFG 1 R \"g\" { \"1\" \"2\" } { ".to_vec(alloc)?;
    text.push(b'0' + rows as u8)?;
    text.push(b' ')?;
    text.push(b'0' + columns as u8)?;
    text.extend_from_slice(b" }")?;
    for _ in 0..2 * rows * columns {
        state = next(state);
        text.push(b' ')?;
        text.push(b'0' + ((state >> 33) % 10) as u8)?;
    }
    Ok(text)
}

#[test]
fn generated_games_settle_alike(rt: HostRuntime) -> Result<(), Fail> {
    let alloc = rt.alloc();
    for seed in 0..200 {
        let content = generated(alloc, seed)?;
        compare(
            &rt,
            alloc,
            &content,
            "discount=1/2",
            "directions=4",
            "workers=4",
        )?;
    }
    Ok(())
}

#[test]
fn a_worker_that_is_held_is_not_waited_for(rt: HostRuntime) -> Result<(), Fail> {
    let alloc = rt.alloc();
    let words = [
        "solve",
        "pd.nfg",
        "discount=1/2",
        "directions=4",
        "grid=4",
        "workers=2",
    ];
    for (held, rows) in [(0, 1), (1, 1), (0, 3), (1, 3)] {
        let gate = HoldGate::new(held, rows);
        let mut sink = MemSink::new(alloc, 100, Vec::new(alloc))?;
        let content = PD.to_vec(alloc)?;
        let status = run_at(&rt, alloc, &words, Some(content), &mut sink, &gate)?;
        assert_eq!(rt; status, Status::Settled);
        assert!(rt; !gate.gave_up());
        assert!(rt; gate.back() >= rows);
    }
    Ok(())
}

/// A gate that counts for each of four rows, in 16 bits, how often a worker went in and came back.
#[derive(Drop)]
struct CountGate {
    before: AtomicU64,
    after: AtomicU64,
}

impl Gate for CountGate {
    fn before(&self, _worker: u32, row: u32) {
        self.before.fetch_add(1 << (16 * (row % 4)), SeqCst);
    }

    fn after(&self, _worker: u32, row: u32) {
        self.after.fetch_add(1 << (16 * (row % 4)), SeqCst);
    }
}

#[test]
fn each_row_is_drawn_once(rt: HostRuntime) -> Result<(), Fail> {
    let alloc = rt.alloc();
    let words = [
        "solve",
        "pd.nfg",
        "discount=1/2",
        "directions=4",
        "grid=4",
        "workers=4",
        "budget=4",
    ];
    let gate = CountGate {
        before: AtomicU64::new(0),
        after: AtomicU64::new(0),
    };
    let mut sink = MemSink::new(alloc, 100, Vec::new(alloc))?;
    let content = PD.to_vec(alloc)?;
    run_at(&rt, alloc, &words, Some(content), &mut sink, &gate)?;
    assert_eq!(rt; gate.before.load(SeqCst), 0x0001_0001_0001_0001);
    assert_eq!(rt; gate.after.load(SeqCst), 0x0001_0001_0001_0001);
    Ok(())
}
