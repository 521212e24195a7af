// Runs of `replay`: what stale and fresh levels lower, what is cleared, and each refusal with its place.
use super::*;
use nfg_text::What;
use pay_outside::{MemShelf, MemSink, OpenGate};
use std::alloc::Global;
use std::process::Abort;
use std::test::Fail;
use std::thread::Threads;

type File = (&'static str, &'static [u8]);

const DILEMMA: File = (
    "pd.nfg",
    b"NFG 1 R \"PD\" { \"1\" \"2\" } { 2 2 } 2 2 3 0 0 3 1 1",
);

const NOTHING: File = ("nil.nfg", b"NFG 1 R \"nil\" { \"1\" \"2\" } { 1 1 } 0 0");

const TWOS: File = ("a.nfg", b"NFG 1 R \"a\" { \"1\" \"2\" } { 1 1 } 2 2");

const ONES: File = ("one.nfg", b"NFG 1 R \"1\" { \"1\" \"2\" } { 1 1 } 1 1");

const PENNIES: File = (
    "mp.nfg",
    b"NFG 1 R \"MP\" { \"1\" \"2\" } { 2 2 } 1 -1 -1 1 -1 1 1 -1",
);

const FALL: File = (
    "fall.dyn",
    b"DYN 1 \"f\" { { \"a\" \"a.nfg\" { 1 } } { \"b\" \"nil.nfg\" { 1 } } }",
);

const SINK: File = (
    "sink.dyn",
    b"DYN 1 \"s\" { { \"first\" \"one.nfg\" { 1 } } { \"last\" \"mp.nfg\" { 1 1 1 1 } } }",
);

const LARGE: File = (
    "large.nfg",
    b"NFG 1 R \"large\" { \"1\" \"2\" } { 1 1 } 67108864 0",
);

const FILES: [File; 8] = [DILEMMA, NOTHING, TWOS, ONES, PENNIES, FALL, SINK, LARGE];

const SETTINGS: [&str; 3] = ["discount=1/2", "directions=4", "grid=4"];

/// A replay of this schedule on the game of this name, and what its sink took.
fn replay_by<R: Threads + Sync + Abort>(
    rt: &R,
    alloc: Global,
    game: &str,
    settings: &[&str],
    schedule: Option<&[u8]>,
    sink: &mut MemSink,
) -> Result<Status, Fail> {
    let mut words = Vec::new(alloc);
    for text in ["replay", game, "moves.sch"] {
        words.push(String::from_str(alloc, text)?)?;
    }
    for text in settings {
        words.push(String::from_str(alloc, text)?)?;
    }
    let mut files = Vec::new(alloc);
    for (name, content) in FILES {
        files.push((String::from_str(alloc, name)?, content.to_vec(alloc)?))?;
    }
    if let Some(bytes) = schedule {
        files.push((String::from_str(alloc, "moves.sch")?, bytes.to_vec(alloc)?))?;
    }
    let mut shelf = MemShelf::new(files, Vec::new(alloc));
    assert!(rt; words.len() < 100);
    let outcome = payoff_run(rt, alloc, &words, &mut shelf, sink, &OpenGate);
    assert!(rt; outcome.report.is_none());
    let made = matches!(outcome.status, Status::Replayed | Status::WriteFault { .. });
    assert_eq!(rt; outcome.replay.is_some(), made);
    Ok(outcome.status)
}

#[test]
fn moves_are_made_in_order(rt: HostRuntime) -> Result<(), Fail> {
    let alloc = rt.alloc();
    for (game, schedule, text) in [
        (
            "fall.dyn",
            &b"SCH 1 2 { lower 0 4 load 1 4 lower 0 4 lower 1 0 }"[..],
            &b"payoff replay 1\nmoves 4\nrow 0 0 24\nrow 0 1 0\nrow 0 2 32\nrow 0 3 0\nrow 1 0 8\nrow 1 1 0\nrow 1 2 32\nrow 1 3 0\nend\n"[..],
        ),
        (
            "fall.dyn",
            &b"SCH 1 2 { lower 0 4 lower 0 4 lower 1 0 }"[..],
            &b"payoff replay 1\nmoves 3\nrow 0 0 32\nrow 0 1 0\nrow 0 2 32\nrow 0 3 0\nrow 1 0 8\nrow 1 1 0\nrow 1 2 32\nrow 1 3 0\nend\n"[..],
        ),
        (
            "pd.nfg",
            &b"SCH 1 16 { }"[..],
            &b"payoff replay 1\nmoves 0\nrow 0 0 48\nrow 0 1 0\nrow 0 2 48\nrow 0 3 0\nend\n"[..],
        ),
        (
            "pd.nfg",
            &b"SCH,1,2{lower 0 1 load 1 1 clear 0 1 lower 0 1 lower 1 1}"[..],
            &b"payoff replay 1\nmoves 5\nrow 0 0 48\nrow 0 1 -12\nrow 0 2 48\nrow 0 3 0\nend\n"[..],
        ),
    ] {
        let mut sink = MemSink::new(alloc, 1000, Vec::new(alloc))?;
        let status = replay_by(&rt, alloc, game, &SETTINGS, Some(schedule), &mut sink)?;
        assert_eq!(rt; status, Status::Replayed);
        assert_eq!(rt; sink.taken(), text);
    }
    Ok(())
}

#[test]
fn one_empty_level_closes_a_state(rt: HostRuntime) -> Result<(), Fail> {
    let alloc = rt.alloc();
    // State 1 admits nothing once rows 5 and 6 are lowered, and state 0 something until row 4 is cleared. Worker 1
    // lowers row 1 by the opening, and row 2 no more, since it has then seen row 4 Empty.
    let schedule =
        &b"SCH 1 2 { clear 0 0 lower 0 5 lower 0 6 clear 0 4 clear 0 0 lower 1 1 lower 0 0 load 1 4 lower 1 2 }"[..];
    let rows =
        &b"payoff replay 1\nmoves 9\nrow 0 0 empty\nrow 0 1 0\nrow 0 2 16\nrow 0 3 16\nrow 1 0 empty\nrow 1 1 0\nrow 1 2 0\nrow 1 3 16\nempty 1\nwhy 1 0 farkas "[..];
    let mut sink = MemSink::new(alloc, 1000, Vec::new(alloc))?;
    let status = replay_by(&rt, alloc, "sink.dyn", &SETTINGS, Some(schedule), &mut sink)?;
    assert_eq!(rt; status, Status::Replayed);
    assert!(rt; sink.taken().starts_with(rows));
    assert!(rt;
        sink.taken()
            .ends_with(b"\nempty 0\nwhy 0 0 successor 1\nend\n")
    );
    // A state that has a note is cleared without another.
    let schedule =
        &b"SCH 1 1 { clear 0 0 lower 0 1 lower 0 2 clear 0 0 clear 0 3 lower 0 1 clear 0 0 }"[..];
    let rows =
        &b"payoff replay 1\nmoves 7\nrow 0 0 empty\nrow 0 1 0\nrow 0 2 0\nrow 0 3 empty\nempty 0\nwhy 0 0 farkas "[..];
    let mut sink = MemSink::new(alloc, 1000, Vec::new(alloc))?;
    let status = replay_by(&rt, alloc, "mp.nfg", &SETTINGS, Some(schedule), &mut sink)?;
    assert_eq!(rt; status, Status::Replayed);
    assert!(rt; sink.taken().starts_with(rows));
    Ok(())
}

#[test]
fn schedules_that_are_not_read_are_refused(rt: HostRuntime) -> Result<(), Fail> {
    let alloc = rt.alloc();
    let file = FileId::Second;
    let long = vec![in alloc; b' '; 16_777_217]?;
    let bad = |at: u64| Status::BadInput { file, at };
    for (schedule, wanted) in [
        (None, Status::ReadFault { file }),
        (Some(&long[..]), Status::TooLong { file }),
        (Some(&b""[..]), bad(0)),
        (Some(&b"SCH 2 1 { }"[..]), bad(4)),
        (Some(&b"SCH 1 0 { }"[..]), bad(6)),
        (Some(&b"SCH 1 17 { }"[..]), bad(6)),
        (Some(&b"SCH 1 -1 { }"[..]), bad(6)),
        (Some(&b"SCH 1 1 { clear 0 4 }"[..]), bad(18)),
        (Some(&b"SCH 1 1 { load 0 3 lower 1 0 }"[..]), bad(25)),
        (Some(&b"SCH 1 2 { clear 1 0 }"[..]), bad(16)),
        (Some(&b"SCH 1 2 { load 0 4294967296 }"[..]), bad(17)),
        (Some(&b"SCH 1 2 { load 4294967296 0 }"[..]), bad(15)),
        (Some(&b"SCH 1 2 { raise 0 0 }"[..]), bad(10)),
        (Some(&b"SCH 1 2 { load 0 }"[..]), bad(17)),
        (Some(&b"SCH 1 2 { load 0 0"[..]), bad(18)),
        (Some(&b"SCH 1 2 { load 0 \"0"[..]), bad(17)),
        (Some(&b"SCH 1 2 { } }"[..]), bad(12)),
        (
            Some(&b"SCH 1 2 { load 0 0000000000000000000000000000000000001 }"[..]),
            Status::Beyond {
                what: What::Digits,
                number: 37,
            },
        ),
    ] {
        let mut sink = MemSink::new(alloc, 1000, Vec::new(alloc))?;
        let status = replay_by(&rt, alloc, "pd.nfg", &SETTINGS, schedule, &mut sink)?;
        assert_eq!(rt; status, wanted);
        assert!(rt; sink.taken().is_empty());
    }
    Ok(())
}

#[test]
fn refusals_of_replays_come_in_order(rt: HostRuntime) -> Result<(), Fail> {
    let alloc = rt.alloc();
    // The words, then the game, its limits, the schedule, and the output.
    for (game, settings, wanted) in [
        (
            "none.nfg",
            &["discount=1/2", "workers=2"][..],
            Status::Usage { index: 4 },
        ),
        (
            "none.nfg",
            &SETTINGS[..],
            Status::ReadFault {
                file: FileId::First,
            },
        ),
        (
            "pd.nfg",
            &["discount=1/2000"][..],
            Status::Beyond {
                what: What::Discount,
                number: 2000,
            },
        ),
        (
            "large.nfg",
            &["discount=1/2", "directions=4", "grid=30"][..],
            Status::Beyond {
                what: What::Opening,
                number: 72_057_594_037_927_936,
            },
        ),
        (
            "pd.nfg",
            &SETTINGS[..],
            Status::BadInput {
                file: FileId::Second,
                at: 0,
            },
        ),
    ] {
        let mut sink = MemSink::new(alloc, 1000, Vec::new(alloc))?;
        let status = replay_by(&rt, alloc, game, settings, Some(&b"NFG"[..]), &mut sink)?;
        assert_eq!(rt; status, wanted);
        assert!(rt; sink.taken().is_empty());
    }
    let mut sink = MemSink::new(alloc, 10, vec![in alloc; 1u64]?)?;
    let schedule = &b"SCH 1 1 { }"[..];
    let status = replay_by(&rt, alloc, "pd.nfg", &SETTINGS, Some(schedule), &mut sink)?;
    assert_eq!(rt; status, Status::WriteFault { written: 10 });
    assert_eq!(rt; sink.taken(), &b"payoff rep"[..]);
    Ok(())
}
