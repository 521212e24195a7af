//! The command that the words are.

ghost use Rattle.pay_words.specs.Command.{HasLimits, IsCall, IsCommand, IsMisfit, Request, file_count, files_in, request_of, word_of, words_in};
ghost use Rattle.pay_words.specs.Options.{AreLimited, IsDiscount, usual_settings};
ghost use Rattle.pay_words.specs.declared.options.Settings.{Settings};
ghost use Rattle.pay_words.specs.declared.options.Verb.{Verb};
ghost use Rattle.std.specs.Prelude.{◌+◌, ◌<◌, ◌^◌, ◌≡◌, ◌↔◌, ◌∷◌, ◌++◌, ℕ, Contains, IfErr, IfNone, IfOk, IfSome, IsErrAnd, IsOkAnd, IsPermutation, List, [], codes, drop, length, take};

use crate::options::{Given, Settings, Verb, settings_of};
use pay_frac::Frac;

/// What the words ask for.
#[derive(Clone, Copy, Debug, PartialEq, Eq)]
pub enum Command<'w> {
    /// The table of a game, `solve FILE [name=value ..]`.
    Solve {
        file: &'w str,
        set: Settings,
    },
    /// Whether a correspondence of a game is self-generating, `check FILE CORR [discount=value]`.
    Check {
        file: &'w str,
        corr: &'w str,
        discount: Frac,
    },
    /// The run of a game by a schedule, `replay FILE SCHEDULE [name=value ..]`.
    Replay {
        file: &'w str,
        schedule: &'w str,
        set: Settings,
    },
    /// The run of a game that is made from a number, `make seed=N [states=N] [workers=N]`.
    Make {
        seed: u32,
        states: u32,
        workers: u32,
    },
}

/// The words are no command.
#[derive(Clone, Copy, Debug, PartialEq, Eq)]
pub struct UsageFault {
    /// The first word that fits none, or the number of words where one is missing.
    pub index: u32,
}

/// The command that the words are, or the first word that doesn't fit.
pub fn command_of<'w>(words: &'w [String]) -> Result<Command<'w>, UsageFault>
    requires { length words.now < 2 ^ 32 }
    ensures command { (r : Request) → IsCommand (words_in words.now) r ↔ IsOkAnd result (λ c. request_of c ≡ r) }
    ensures limits { IfOk result HasLimits }
    ensures misfit { (i : ℕ) → IsMisfit (words_in words.now) i ↔ IsErrAnd result (λ f. f.index ≡ i) }
{
    if words.is_empty() {
        return Err(UsageFault { index: 0 });
    }
    match verb_of(&words[0]) {
        Some(verb) => call_of(verb, words),
        None => Err(UsageFault { index: 0 }),
    }
}

/// The command of this name.
fn verb_of(name: &str) -> Option<Verb>
    ensures some { IfSome result (λ v. word_of v ≡ name.now) }
    ensures none { IfNone result ((v : Verb) → word_of v ≡ name.now → ⊥) }
{
    match name {
        "solve" => Some(Verb::Solve),
        "check" => Some(Verb::Check),
        "replay" => Some(Verb::Replay),
        "make" => Some(Verb::Make),
        _ => None,
    }
}

/// The command of words of which the first names it, or the first word that doesn't fit.
fn call_of<'w>(verb: Verb, words: &'w [String]) -> Result<Command<'w>, UsageFault>
    requires few { length words.now < 2 ^ 32 }
    requires named { take 1 (words_in words.now) ≡ word_of verb ∷ [] }
    ensures command { IfOk result (λ c. IsCommand (words_in words.now) (request_of c)) }
    ensures limits { IfOk result HasLimits }
    ensures misfit { IfErr result (λ f. IsMisfit (words_in words.now) f.index) }
{
    let head = 1 + count_files(verb);
    if words.len() < head {
        return Err(UsageFault {
            index: words.len() as u32,
        });
    }
    match settings_of(verb, &words[head..]) {
        Ok(given) => match made(verb, words, given) {
            Some(command) => Ok(command),
            None => Err(UsageFault {
                index: words.len() as u32,
            }),
        },
        Err(place) => Err(UsageFault {
            index: (head + place) as u32,
        }),
    }
}

/// How many files a command names.
fn count_files(verb: Verb) -> usize
    ensures { result ≡ file_count verb }
{
    match verb {
        Verb::Solve => 1,
        Verb::Check => 2,
        Verb::Replay => 2,
        Verb::Make => 0,
    }
}

/// The command of these words, which give this, or nothing where a game is to be made from no number.
fn made<'w>(verb: Verb, words: &'w [String], given: Given) -> Option<Command<'w>>
    requires call { (call : IsCall verb (words_in words.now) (files_in verb (words_in words.now)) given.set) ×
        (call.seed ≡ given.seed) × (call.states ≡ given.states) }
    requires files { file_count verb < length words.now }
    requires limits { AreLimited given }
    ensures command { IfSome result (λ c. IsCommand (words_in words.now) (request_of c)) }
    ensures limits { IfSome result HasLimits }
    ensures misfit { IfNone result (IsMisfit (words_in words.now) (length words.now)) }
{
    match verb {
        Verb::Solve => Some(Command::Solve {
            file: &words[1],
            set: given.set,
        }),
        Verb::Check => Some(Command::Check {
            file: &words[1],
            corr: &words[2],
            discount: given.set.discount,
        }),
        Verb::Replay => Some(Command::Replay {
            file: &words[1],
            schedule: &words[2],
            set: given.set,
        }),
        Verb::Make => Some(Command::Make {
            seed: given.seed?,
            states: given.states,
            workers: given.set.workers,
        }),
    }
}

/// Words are one command or have one misfit, and never both; settings may stand in any order. The discount factor
/// is the number that its word spells, and files alone have the usual settings.
pub fn command_laws()
    ensures one_command { (words : List (List ℕ)) (a b : Request) →
        IsCommand words a → IsCommand words b → a ≡ b }
    ensures one_misfit { (words : List (List ℕ)) (i j : ℕ) → IsMisfit words i → IsMisfit words j → i ≡ j }
    ensures not_both { (words : List (List ℕ)) (r : Request) (i : ℕ) →
        IsCommand words r → IsMisfit words i → ⊥ }
    ensures any_order { (verb : Verb) (files : List (List ℕ)) (set : Settings) (xs ys : List (List ℕ)) →
        IsPermutation xs ys → IsCall verb (word_of verb ∷ files ++ xs) files set →
        IsCall verb (word_of verb ∷ files ++ ys) files set }
    ensures discount { (verb : Verb) (words files : List (List ℕ)) (set : Settings) (text : List ℕ) →
        IsCall verb words files set → Contains (drop (1 + length files) words) (codes "discount=" ++ text) →
        IsDiscount text set.discount }
    ensures no_words { IsMisfit [] 0 }
    ensures command_alone { (verb : Verb) → IsMisfit (word_of verb ∷ []) 1 }
    ensures check_one_file { (file : List ℕ) → IsMisfit (codes "check" ∷ file ∷ []) 2 }
    ensures replay_one_file { (file : List ℕ) → IsMisfit (codes "replay" ∷ file ∷ []) 2 }
    ensures files_alone { (verb : Verb) (files : List (List ℕ)) →
        IsCall verb (word_of verb ∷ files) files usual_settings }
{}
