// Runs of `make`: what is told of a game, whatever the workers, and each refusal.
use super::*;
use pay_outside::{MemShelf, MemSink, OpenGate};
use std::alloc::Global;
use std::process::Abort;
use std::test::Fail;
use std::thread::Threads;

const ONE: &[u8] = b"payoff make 1\nseed 1\nstates 8\nempty 0\nrows 64\ntotal 1640\nend\n";

/// How these words end over a shelf without files.
fn make_by<R: Threads + Sync + Abort>(
    rt: &R,
    alloc: Global,
    texts: &[&str],
    sink: &mut MemSink,
) -> Result<Status, Fail> {
    let mut words = Vec::new(alloc);
    for text in texts {
        words.push(String::from_str(alloc, text)?)?;
    }
    let mut shelf = MemShelf::new(Vec::new(alloc), Vec::new(alloc));
    assert!(rt; words.len() < 100);
    let outcome = payoff_run(rt, alloc, &words, &mut shelf, sink, &OpenGate);
    assert!(rt; outcome.report.is_none());
    assert!(rt; outcome.replay.is_none());
    let told = matches!(outcome.status, Status::Made | Status::WriteFault { .. });
    assert_eq!(rt; outcome.made.is_some(), told);
    Ok(outcome.status)
}

// The numbers are those of plain iterates in exact fractions, by a program that isn't this one.
#[test]
fn workers_tell_the_same_of_a_game(rt: HostRuntime) -> Result<(), Fail> {
    let alloc = rt.alloc();
    for (words, text) in [
        (&["make", "seed=1", "workers=1"][..], ONE),
        (&["make", "workers=4", "seed=1"][..], ONE),
        (
            &["make", "seed=0000000001", "states=8", "workers=2"][..],
            ONE,
        ),
        (
            &["make", "states=2", "seed=8"][..],
            &b"payoff make 1\nseed 8\nstates 2\nempty 2\nrows 0\ntotal 0\nend\n"[..],
        ),
        (
            &["make", "states=4", "seed=12345"][..],
            &b"payoff make 1\nseed 12345\nstates 4\nempty 0\nrows 32\ntotal 71\nend\n"[..],
        ),
    ] {
        let mut sink = MemSink::new(alloc, 1000, Vec::new(alloc))?;
        let status = make_by(&rt, alloc, words, &mut sink)?;
        assert_eq!(rt; status, Status::Made);
        assert!(rt; sink.taken() == text);
    }
    Ok(())
}

#[test]
fn refusals_of_games_that_are_made(rt: HostRuntime) -> Result<(), Fail> {
    let alloc = rt.alloc();
    for (words, index) in [
        (&["make"][..], 1),
        (&["make", "states=8", "workers=1"][..], 3),
        (&["make", "states=65", "seed=1"][..], 1),
        (&["make", "seed=2147483648"][..], 1),
        (&["make", "seed=1", "workers=17"][..], 2),
        (&["make", "seed=1", "budget=10"][..], 2),
        (&["make", "pd.nfg", "seed=1"][..], 1),
    ] {
        let mut sink = MemSink::new(alloc, 1000, Vec::new(alloc))?;
        let status = make_by(&rt, alloc, words, &mut sink)?;
        assert_eq!(rt; status, Status::Usage { index });
        assert!(rt; sink.taken().is_empty());
    }
    let mut sink = MemSink::new(alloc, 10, vec![in alloc; 1u64]?)?;
    let status = make_by(&rt, alloc, &["make", "seed=1"], &mut sink)?;
    assert_eq!(rt; status, Status::WriteFault { written: 10 });
    assert!(rt; sink.taken() == &b"payoff mak"[..]);
    Ok(())
}
