use super::*;
use pay_outside::OpenGate;
use std::test::Fail;

// The numbers are those of plain iterates in exact fractions, by a program that isn't this one.
#[test]
fn workers_tell_the_same(rt: HostRuntime) -> Result<(), Fail> {
    for (seed, states, text) in [
        (
            1,
            8,
            "payoff make 1\nseed 1\nstates 8\nempty 0\nrows 64\ntotal 1640\nend\n",
        ),
        (
            2,
            3,
            "payoff make 1\nseed 2\nstates 3\nempty 0\nrows 24\ntotal 1759\nend\n",
        ),
        (
            8,
            2,
            "payoff make 1\nseed 8\nstates 2\nempty 2\nrows 0\ntotal 0\nend\n",
        ),
    ] {
        for workers in [1, 4] {
            let made = make(&rt, rt.alloc(), seed, states, workers, &OpenGate)?;
            let told = text_of_made(rt.alloc(), &made)?;
            assert_eq!(rt; told.as_str(), text, "{workers} workers");
        }
    }
    Ok(())
}
