//! The program: real files, standard output, and one line on standard error where something is wrong.
#![tactic(auto)]

ghost use Rattle.std.specs.Prelude.{◌≡◌, ◌≢◌, ◌<◌, ◌^◌, length, IfOk};

use pay_outside::{FileShelf, OpenGate, StdSink};
use solve_run::{Status, exit_of, line_of, payoff_run};
use std::alloc::Global;
use std::env::Env;
use std::io::ErrorKind;
use std::process::ExitCode;
use std::{env, io};

/// How many words the call takes, far more than any command has.
const MOST_WORDS: usize = u32::MAX as usize;

fn main(rt: HostRuntime) -> ExitCode {
    let alloc = rt.alloc();
    let status = match words_of(&rt, alloc) {
        Ok(words) => {
            let mut shelf = FileShelf::new(&rt);
            let mut sink = StdSink::new(&rt);
            payoff_run(&rt, alloc, &words, &mut shelf, &mut sink, &OpenGate).status
        }
        Err(error) => refusal(error.kind()),
    };
    tell(&rt, alloc, status);
    ExitCode::from(exit_of(status))
}

/// The words after the program's name.
fn words_of<R: Env + Alloc<A = Global>>(rt: &R, alloc: Global) -> io::Result<Vec<String>>
    ensures { IfOk result (λ words. length words.items < 2 ^ 32) }
{
    let mut words = Vec::new(alloc);
    for word in env::args(rt)?.skip(1) {
        words.push(word)?;
    }
    words.truncate(MOST_WORDS);
    Ok(words)
}

/// How the program ends where its words can't be had. All of them are text, or none is given: then the first
/// is named.
fn refusal(kind: ErrorKind) -> Status
    ensures memory { kind ≡ ErrorKind.OutOfMemory → result ≡ Status.NoMemory }
    ensures no_text { kind ≢ ErrorKind.OutOfMemory → result ≡ Status.Usage 0 }
{
    if kind == ErrorKind::OutOfMemory {
        Status::NoMemory
    } else {
        Status::Usage { index: 0 }
    }
}

/// Prints the line of the status, where it has one. A standard error that fails changes nothing.
fn tell(rt: &impl Eprint, alloc: Global, status: Status) {
    let _ = match line_of(alloc, status) {
        Ok(Some(line)) => eprintln!(rt; "{line}"),
        Ok(None) => Ok(()),
        Err(_) => eprintln!(rt; "payoff: out of memory"),
    };
}
