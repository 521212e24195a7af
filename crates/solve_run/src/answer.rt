//! What a command answers.

ghost use Rattle.std.specs.Prelude.{◌<◌, length, IfOk, IfErr};
ghost use Rattle.pay_words.specs.Command.{words_in};
ghost use Rattle.pay_words.specs.Options.{AreWithinLimits};
ghost use Rattle.report_text.specs.ReportText.{IsPrintable};
ghost use Rattle.game_files.specs.Loads.{counts_of};
ghost use Rattle.game_files.specs.Files.{MayAskStates};
ghost use Rattle.solve_run.specs.Refusals.{IsSolveFault, MayAskFor};
ghost use Rattle.solve_run.specs.Answers.{IsAnswerTo, IsFaultOf, IsUnasked, CanBeTold};
ghost use Rattle.solve_run.specs.Solved.{IsAnswer};
ghost use Rattle.solve_run.specs.Tasks.{HasLimits, last_name, request_in};

use crate::checking::checked;
use crate::replaying::replayed;
use crate::solve::report_on;
use crate::task::{Task, name_in};
use game_files::{GameFault, read_game};
use make_run::{Made, make};
use pay_outside::{Gate, Shelf};
use pay_words::Settings;
use report_text::{Replay, Report};
use selfgen_check::CorrFault;
use std::alloc::Global;
use std::thread::Threads;

/// What a command answers.
#[derive(Drop)]
pub enum Answer {
    /// The report on a game.
    Solved(Report),
    /// The first fault of a correspondence: none where it is self-generating.
    Checked(Option<CorrFault>),
    /// What the moves of a schedule made of the opening.
    Ran(Replay),
    /// The numbers of a game that was made.
    Drawn(Made),
}

/// The answer to what the words ask for, or why there is none.
pub(crate) fn answer_of<R: Threads + Sync, S: Shelf, G: Gate + Sync>(
    rt: &R,
    alloc: Global,
    words: &[String],
    task: &Task,
    shelf: &mut S,
    gate: &G,
) -> Result<Answer, GameFault>
    requires names { last_name task.now < length words.now }
    requires limits { HasLimits task.now }
    requires may_ask { MayAskFor (S.bytes shelf.old) (S.may_ask shelf.old) (request_in (words_in words.now) task.now) }
    ensures found { IfOk result (IsAnswerTo (S.bytes shelf.old) (request_in (words_in words.now) task.now)) }
    ensures printable { IfOk result CanBeTold }
    ensures why { IfErr result (IsFaultOf (S.bytes shelf.old)
        (counts_of S.faults S.overlong S.loads shelf.old)
        (counts_of S.faults S.overlong S.loads shelf.new)
        (request_in (words_in words.now) task.now)) }
    ensures unasked { IsUnasked
        (counts_of S.faults S.overlong S.loads shelf.old)
        (counts_of S.faults S.overlong S.loads shelf.new)
        (request_in (words_in words.now) task.now) }
{
    match task {
        Task::Solve(set) => match solve(rt, alloc, name_in(words, 1), set, shelf, gate) {
            Ok(report) => Ok(Answer::Solved(report)),
            Err(fault) => Err(fault),
        },
        Task::Check(discount) => {
            match checked(alloc, shelf, name_in(words, 1), name_in(words, 2), discount) {
                Ok(answer) => Ok(Answer::Checked(answer)),
                Err(fault) => Err(fault),
            }
        }
        Task::Replay(set) => {
            match replayed(alloc, shelf, name_in(words, 1), name_in(words, 2), set) {
                Ok(replay) => Ok(Answer::Ran(replay)),
                Err(fault) => Err(fault),
            }
        }
        Task::Make {
            seed,
            states,
            workers,
        } => match make(rt, alloc, *seed, *states, *workers, gate) {
            Ok(made) => Ok(Answer::Drawn(made)),
            Err(_) => Err(GameFault::NoMemory),
        },
    }
}

/// The report on the game in the file of this name, or why there is none.
fn solve<R: Threads + Sync, S: Shelf, G: Gate + Sync>(
    rt: &R,
    alloc: Global,
    file: &str,
    set: &Settings,
    shelf: &mut S,
    gate: &G,
) -> Result<Report, GameFault>
    requires may_ask { S.may_ask shelf.old file.now }
    requires may_ask_states { MayAskStates (S.bytes shelf.old) (S.may_ask shelf.old) file.now }
    requires limits { AreWithinLimits set.now }
    ensures found { IfOk result (IsAnswer (S.bytes shelf.old) file.now set.now) }
    ensures printable { IfOk result IsPrintable }
    ensures why { IfErr result (IsSolveFault (S.bytes shelf.old) file.now set.now
        (counts_of S.faults S.overlong S.loads shelf.old)
        (counts_of S.faults S.overlong S.loads shelf.new)) }
{
    let game = read_game(alloc, shelf, file, &set.discount)?;
    report_on(rt, alloc, &game, set, gate)
}
