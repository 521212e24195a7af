//! The top call.

ghost use Rattle.std.specs.Prelude.{◌≡◌, ℕ, ◌<◌, ◌^◌, length};
ghost use Rattle.pay_words.specs.Command.{IsMisfit, words_in};
ghost use Rattle.report_text.specs.ReportText.{IsPrintable};
ghost use Rattle.game_files.specs.Loads.{counts_of};
ghost use Rattle.solve_run.specs.Answers.{CanBeTold};
ghost use Rattle.solve_run.specs.Run.{Causes, IsComplete, IsPrinted, IsShown, IsStatusOf, IsTold, IsTelling, IsWritten, MayAsk, alone, answered_as, refused_as, with_made, with_replay, with_report};
ghost use Rattle.solve_run.specs.Writing.{taking_of};

use crate::answer::{Answer, answer_of};
use crate::checking::answer_text;
use crate::outcome::{Outcome, Status};
use crate::task::task_of;
use crate::write::put_all;
use game_files::{GameFault, game_laws};
use make_run::{Made, text_of_made};
use pay_outside::{Gate, Shelf, Sink};
use pay_words::command_laws;
use report_text::{Replay, Report, text_of, text_of_replay};
use selfgen_check::CorrFault;
use set_operator::Verdict;
use std::alloc::Global;
use std::thread::Threads;

/// Runs one command: reads the words and the files that they name, and writes the report of a run that bounds the payoff
/// sets of a game, the answer whether a correspondence is self-generating, what the moves of a schedule make of the
/// opening, or what is told of a game that is made from a number.
pub fn payoff_run<R: Threads + Sync, S: Shelf, K: Sink, G: Gate + Sync>(
    rt: &R,
    alloc: Global,
    words: &[String],
    shelf: &mut S,
    sink: &mut K,
    gate: &G,
) -> Outcome
    requires few_words { length words.now < 2 ^ 32 }
    requires may_ask { MayAsk (words_in words.now) (S.bytes shelf.old) (S.may_ask shelf.old) }
    ensures causes { Causes
        (words_in words.now)
        (S.bytes shelf.old)
        (counts_of S.faults S.overlong S.loads shelf.old)
        (counts_of S.faults S.overlong S.loads shelf.new)
        (taking_of K.taken K.faults sink.old sink.new)
        result }
    ensures complete { IsComplete
        (words_in words.now)
        (S.bytes shelf.old)
        (counts_of S.faults S.overlong S.loads shelf.old)
        (counts_of S.faults S.overlong S.loads shelf.new)
        (taking_of K.taken K.faults sink.old sink.new)
        result.status }
    ensures misfit { (index : ℕ) → IsMisfit (words_in words.now) index → result.status ≡ Status.Usage index }
{
    command_laws();
    game_laws();
    match task_of(words) {
        Err(fault) => alone(Status::Usage { index: fault.index }),
        Ok(task) => match answer_of(rt, alloc, words, &task, shelf, gate) {
            Err(fault) => alone(status_of_fault(fault)),
            Ok(answer) => finish(alloc, sink, answer),
        },
    }
}

/// An end with nothing made.
fn alone(status: Status) -> Outcome
    ensures { result ≡ alone status }
{
    Outcome {
        status,
        report: None,
        replay: None,
        made: None,
    }
}

/// An end with the report whose text was offered.
fn with_report(status: Status, report: Report) -> Outcome
    ensures { result ≡ with_report status report }
{
    Outcome {
        report: Some(report),
        ..alone(status)
    }
}

/// An end with the replay whose text was offered.
fn with_replay(status: Status, replay: Replay) -> Outcome
    ensures { result ≡ with_replay status replay }
{
    Outcome {
        replay: Some(replay),
        ..alone(status)
    }
}

/// An end with the numbers whose text was offered.
fn with_made(status: Status, made: Made) -> Outcome
    ensures { result ≡ with_made status made }
{
    Outcome {
        made: Some(made),
        ..alone(status)
    }
}

/// The status of a refusal.
fn status_of_fault(fault: GameFault) -> Status
    ensures { result ≡ refused_as fault }
{
    match fault {
        GameFault::BadInput { file, at } => Status::BadInput { file, at },
        GameFault::TooLong { file } => Status::TooLong { file },
        GameFault::ReadFault { file } => Status::ReadFault { file },
        GameFault::Shape { fault } => Status::Shape { fault },
        GameFault::Beyond { what, number } => Status::Beyond { what, number },
        GameFault::NoMemory => Status::NoMemory,
    }
}

/// Writes the text of an answer.
fn finish<K: Sink>(alloc: Global, sink: &mut K, answer: Answer) -> Outcome
    requires printable { CanBeTold answer }
    ensures { IsTelling answer (taking_of K.taken K.faults sink.old sink.new) result }
{
    match answer {
        Answer::Solved(report) => write_report(alloc, sink, report),
        Answer::Checked(fault) => tell(alloc, sink, fault),
        Answer::Ran(replay) => show(alloc, sink, replay),
        Answer::Drawn(made) => print_made(alloc, sink, made),
    }
}

/// Writes the text of a report.
fn write_report<K: Sink>(alloc: Global, sink: &mut K, report: Report) -> Outcome
    requires printable { IsPrintable report }
    ensures wrote { IsWritten report (taking_of K.taken K.faults sink.old sink.new) result }
{
    let text = match text_of(alloc, &report) {
        Ok(text) => text,
        Err(_) => return alone(Status::NoMemory),
    };
    match put_all(sink, &text) {
        Err(written) => with_report(Status::WriteFault { written }, report),
        Ok(()) => with_report(status_of(&report), report),
    }
}

/// Writes the text of a replay.
fn show<K: Sink>(alloc: Global, sink: &mut K, replay: Replay) -> Outcome
    ensures shown { IsShown replay (taking_of K.taken K.faults sink.old sink.new) result }
{
    let text = match text_of_replay(alloc, &replay) {
        Ok(text) => text,
        Err(_) => return alone(Status::NoMemory),
    };
    match put_all(sink, &text) {
        Err(written) => with_replay(Status::WriteFault { written }, replay),
        Ok(()) => with_replay(Status::Replayed, replay),
    }
}

/// Writes the text of a game that was made.
fn print_made<K: Sink>(alloc: Global, sink: &mut K, made: Made) -> Outcome
    ensures printed { IsPrinted made (taking_of K.taken K.faults sink.old sink.new) result }
{
    let text = match text_of_made(alloc, &made) {
        Ok(text) => text,
        Err(_) => return alone(Status::NoMemory),
    };
    match put_all(sink, text.as_bytes()) {
        Err(written) => with_made(Status::WriteFault { written }, made),
        Ok(()) => with_made(Status::Made, made),
    }
}

/// Writes the line of an answer.
fn tell<K: Sink>(alloc: Global, sink: &mut K, answer: Option<CorrFault>) -> Outcome
    ensures told { IsTold answer (taking_of K.taken K.faults sink.old sink.new) result }
{
    let text = match answer_text(alloc, answer) {
        Ok(text) => text,
        Err(_) => return alone(Status::NoMemory),
    };
    match put_all(sink, text.as_bytes()) {
        Err(written) => alone(Status::WriteFault { written }),
        Ok(()) => alone(status_of_answer(answer)),
    }
}

/// The status of an answer whose line was taken.
fn status_of_answer(answer: Option<CorrFault>) -> Status
    ensures { result ≡ answered_as answer }
{
    match answer {
        None => Status::Holds,
        Some(fault) => Status::Fails { fault },
    }
}

/// The status of a report whose whole text was taken.
fn status_of(report: &Report) -> Status
    ensures { IsStatusOf report.now.verdict report.now.sweeps result }
{
    match report.verdict {
        Verdict::Supported(_) => Status::Settled,
        Verdict::Unsupported { row, .. } => Status::Spent {
            sweeps: report.sweeps,
            row,
        },
    }
}
