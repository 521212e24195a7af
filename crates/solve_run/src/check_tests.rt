// Runs of `check`: sets that hold, each way to fail, and each refusal with its place.
use super::*;
use nfg_text::What;
use pay_outside::{MemShelf, MemSink, OpenGate};
use selfgen_check::{CorrFault, Why};
use std::alloc::Global;
use std::process::Abort;
use std::test::Fail;
use std::thread::Threads;

const PD: &[u8] = b"NFG 1 R \"PD\" { \"1\" \"2\" } { 2 2 } 2 2 3 0 0 3 1 1";

const NOTHING: &[u8] = b"NFG 1 R \"nil\" { \"1\" \"2\" } { 1 1 } 0 0";

const SET: &[u8] =
    b"SGC 1 { { { { 1 1 } { 1 1 } { 0 1 } { 0 0 } } { { 2 2 } { 0 0 } { 1 1 } { 0 0 } } } }";

const AT_HALF: [&str; 4] = ["check", "game.nfg", "set.sgc", "discount=1/2"];

/// A call with these words over a shelf with these two files, and what its sink took.
fn run<R: Threads + Sync + Abort>(
    rt: &R,
    alloc: Global,
    texts: &[&str],
    game: &[u8],
    set: Option<&[u8]>,
    sink: &mut MemSink,
) -> Result<Status, Fail> {
    let mut words = Vec::new(alloc);
    for text in texts {
        words.push(String::from_str(alloc, text)?)?;
    }
    let mut files = Vec::new(alloc);
    files.push((String::from_str(alloc, "game.nfg")?, game.to_vec(alloc)?))?;
    if let Some(bytes) = set {
        files.push((String::from_str(alloc, "set.sgc")?, bytes.to_vec(alloc)?))?;
    }
    let mut shelf = MemShelf::new(files, Vec::new(alloc));
    assert!(rt; words.len() < 100);
    let outcome = payoff_run(rt, alloc, &words, &mut shelf, sink, &OpenGate);
    assert!(rt; outcome.report.is_none());
    Ok(outcome.status)
}

#[test]
fn sets_hold(rt: HostRuntime) -> Result<(), Fail> {
    let alloc = rt.alloc();
    for (game, set) in [
        (PD, SET),
        (
            PD,
            &b"SGC 1 { { { { 1 1 } { 1 1 } { 0 1 } { 0 0 } } { { 2. 4/2 } { 0 0 } { 1 1 0 0 } { 0 0 } } } }"[..],
        ),
        (PD, &b"SGC 1{{}}"[..]),
        (
            NOTHING,
            &b"SGC 1 { { { { 0 0 } { 0 0 } { 0 9671406556917033397649408 } { } } } }"[..],
        ),
    ] {
        let mut sink = MemSink::new(alloc, 1000, Vec::new(alloc))?;
        let status = run(&rt, alloc, &AT_HALF, game, Some(set), &mut sink)?;
        assert_eq!(rt; status, Status::Holds);
        assert_eq!(rt; sink.taken(), &b"holds\n"[..]);
    }
    Ok(())
}

#[test]
fn each_way_to_fail_is_told(rt: HostRuntime) -> Result<(), Fail> {
    let alloc = rt.alloc();
    let impatient = ["check", "game.nfg", "set.sgc", "discount=499/1000"];
    let gain = Why::Gain {
        player: 0,
        strategy: 1,
    };
    for (words, set, why, line) in [
        (&impatient[..], SET, gain, &b"fails 0 1 gain 0 1\n"[..]),
        (
            &AT_HALF[..],
            &b"SGC 1 { { { { 1 1 } { 1 1 } { 0 1 } { 0 0 } } { { 2 2 } { 0 0 } { 1 1 } { 1 0 } } } }"[..],
            gain,
            &b"fails 0 1 gain 0 1\n"[..],
        ),
        (
            &AT_HALF[..],
            &b"SGC 1 { { { { 1 1 } { 1 1 } { 0 1 } { 0 0 } } { { 2001/1000 2 } { 0 0 } { 1 1 } { 0 0 } } } }"[..],
            Why::Point { player: 0 },
            &b"fails 0 1 point 0\n"[..],
        ),
        (
            &AT_HALF[..],
            &b"SGC 1 { { { { 1 1 } { 1 1 } { 0 1 } { 0 0 } } { { 2 2 } { 0 0 } { 1 0 } { 0 0 } } } }"[..],
            Why::Weights,
            &b"fails 0 1 weights\n"[..],
        ),
        (
            &AT_HALF[..],
            &b"SGC 1 { { { { 1 1 } { 1 1 } { 0 1 } { 0 0 } } { { 2 2 } { 0 0 } { 2 1 } { 0 0 } } } }"[..],
            Why::Lottery,
            &b"fails 0 1 lottery\n"[..],
        ),
        (
            &AT_HALF[..],
            &b"SGC 1 { { { { 1 1 } { 1 1 } { 0 1 } { 0 0 } } { { 2 2 } { 0 0 } { 1 1 } { 0 } } } }"[..],
            Why::Punish,
            &b"fails 0 1 punish\n"[..],
        ),
        (
            &AT_HALF[..],
            &b"SGC 1 { { { { 1 1 } { 1 1 } { 0 1 } { 0 0 } } { { 2 2 } { 0 2 } { 1 1 } { 0 0 } } } }"[..],
            Why::Profile,
            &b"fails 0 1 profile\n"[..],
        ),
    ] {
        let mut sink = MemSink::new(alloc, 1000, Vec::new(alloc))?;
        let status = run(&rt, alloc, words, PD, Some(set), &mut sink)?;
        let fault = CorrFault {
            state: 0,
            entry: 1,
            why,
        };
        assert_eq!(rt; status, Status::Fails { fault });
        assert_eq!(rt; sink.taken(), line);
    }
    Ok(())
}

#[test]
fn sets_that_are_not_read_are_refused(rt: HostRuntime) -> Result<(), Fail> {
    let alloc = rt.alloc();
    let file = FileId::Second;
    let long = vec![in alloc; b' '; 16_777_217]?;
    for (set, wanted) in [
        (None, Status::ReadFault { file }),
        (Some(&b""[..]), Status::BadInput { file, at: 0 }),
        (Some(&long[..]), Status::TooLong { file }),
        (Some(&b"SGC 1 { }"[..]), Status::BadInput { file, at: 8 }),
        (
            Some(&b"SGC 1 { { { { 1 1 } { 1 1 } { 0 1 0 1 0 1 0 1 0 1 } { 0 0 } } } }"[..]),
            Status::Beyond {
                what: What::Outcomes,
                number: 5,
            },
        ),
        (
            Some(&b"SGC 1 { { { { 1 1 } { 1 1 } { 0 9671406556917033397649409 } { 0 0 } } } }"[..]),
            Status::Beyond {
                what: What::Weight,
                number: 9_671_406_556_917_033_397_649_409,
            },
        ),
        (
            Some(&b"SGC 1 { { { { 1/17592186044417 1 } { 1 1 } { 0 1 } { 0 0 } } } }"[..]),
            Status::Beyond {
                what: What::Common,
                number: 17_592_186_044_417,
            },
        ),
        (
            Some(&b"SGC 1 { { { { -1073741825 1 } { 1 1 } { 0 1 } { 0 0 } } } }"[..]),
            Status::Beyond {
                what: What::Point,
                number: 1_073_741_825,
            },
        ),
    ] {
        let mut sink = MemSink::new(alloc, 1000, Vec::new(alloc))?;
        let status = run(&rt, alloc, &AT_HALF, PD, set, &mut sink)?;
        assert_eq!(rt; status, wanted);
        assert!(rt; sink.taken().is_empty());
    }
    Ok(())
}

#[test]
fn refusals_come_in_order(rt: HostRuntime) -> Result<(), Fail> {
    let alloc = rt.alloc();
    // The words, then the game, its limits, the set, and the output.
    let beyond = ["check", "game.nfg", "set.sgc", "discount=1/2000"];
    let first = FileId::First;
    for (words, game, wanted) in [
        (
            &["check", "game.nfg"][..],
            &b""[..],
            Status::Usage { index: 2 },
        ),
        (
            &["check", "game.nfg", "set.sgc", "grid=4"][..],
            &b""[..],
            Status::Usage { index: 3 },
        ),
        (
            &AT_HALF[..],
            &b""[..],
            Status::BadInput { file: first, at: 0 },
        ),
        (
            &beyond[..],
            PD,
            Status::Beyond {
                what: What::Discount,
                number: 2000,
            },
        ),
        (
            &AT_HALF[..],
            PD,
            Status::BadInput {
                file: FileId::Second,
                at: 0,
            },
        ),
    ] {
        let mut sink = MemSink::new(alloc, 1000, Vec::new(alloc))?;
        let status = run(&rt, alloc, words, game, Some(&b"NFG"[..]), &mut sink)?;
        assert_eq!(rt; status, wanted);
        assert!(rt; sink.taken().is_empty());
    }
    let mut sink = MemSink::new(alloc, 4, vec![in alloc; 1u64]?)?;
    let status = run(&rt, alloc, &AT_HALF, PD, Some(SET), &mut sink)?;
    assert_eq!(rt; status, Status::WriteFault { written: 4 });
    assert_eq!(rt; sink.taken(), &b"hold"[..]);
    Ok(())
}
