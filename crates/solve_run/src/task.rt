//! What the words ask for.

ghost use Rattle.std.specs.Prelude.{◌≡◌, ◌<◌, ◌^◌, length, IfOk, IfErr};
ghost use Rattle.pay_words.specs.Command.{IsCommand, IsMisfit, words_in};
ghost use Rattle.solve_run.specs.Tasks.{HasLimits, last_name, request_in, task_in, word_at};

use pay_frac::Frac;
use pay_words::{Command, Settings, UsageFault, command_of};

/// A command without the names of its files.
#[derive(Clone, Copy, Debug, PartialEq, Eq)]
pub enum Task {
    Solve(Settings),
    Check(Frac),
    Replay(Settings),
    Make {
        seed: u32,
        states: u32,
        workers: u32,
    },
}

/// The command of the words.
pub(crate) fn task_of(words: &[String]) -> Result<Task, UsageFault>
    requires { length words.now < 2 ^ 32 }
    ensures asks { IfOk result (λ t. IsCommand (words_in words.now) (request_in (words_in words.now) t)) }
    ensures files { IfOk result (λ t. last_name t < length words.now) }
    ensures limits { IfOk result HasLimits }
    ensures misfit { IfErr result (λ f. IsMisfit (words_in words.now) f.index) }
{
    match command_of(words) {
        Ok(command) => Ok(task_in(&command)),
        Err(fault) => Err(fault),
    }
}

/// A command without the names of its files.
fn task_in(command: &Command) -> Task
    ensures { result ≡ task_in command.now }
{
    match command {
        Command::Solve { set, .. } => Task::Solve(*set),
        Command::Check { discount, .. } => Task::Check(*discount),
        Command::Replay { set, .. } => Task::Replay(*set),
        Command::Make {
            seed,
            states,
            workers,
        } => Task::Make {
            seed: *seed,
            states: *states,
            workers: *workers,
        },
    }
}

/// The name of a file among the words.
pub(crate) fn name_in(words: &[String], place: usize) -> &str
    requires { place < length words.now }
    ensures { result.now ≡ word_at (words_in words.now) place }
{
    words[place].as_str()
}
