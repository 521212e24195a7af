//! Whether the correspondence in a file is self-generating.

ghost use Rattle.std.specs.Prelude.{◌≡◌, IfOk, IfErr, Some, string_bytes};
ghost use Rattle.pay_words.specs.Options.{IsProper};
ghost use Rattle.selfgen_check.specs.Limits.{KeepsLimits};
ghost use Rattle.game_files.specs.Loads.{AreLoads, counts_of};
ghost use Rattle.game_files.specs.Files.{MayAskStates};
ghost use Rattle.solve_run.specs.Checks.{IsCheckFault, IsChecked, IsCorrFault, IsCorrOf, IsVerdictOn, check_text, corr_refused, why_text};

use game_files::{FileId, GameFault, load, read_game};
use game_model::Game;
use pay_frac::Frac;
use pay_outside::Shelf;
use selfgen_check::{Corr, CorrFault, CorrTextFault, Why, check, read_corr};
use std::alloc::{AllocError, Global};

/// How many bytes a file other than a game's may have.
const LONGEST_SECOND: usize = 16_777_216;

/// The first entry that isn't generated of the correspondence in one file, at the game of another: none where it is
/// self-generating.
pub(crate) fn checked<S: Shelf>(
    alloc: Global,
    shelf: &mut S,
    file: &str,
    corr: &str,
    discount: &Frac,
) -> Result<Option<CorrFault>, GameFault>
    requires may_ask { S.may_ask shelf.old file.now }
    requires may_ask_states { MayAskStates (S.bytes shelf.old) (S.may_ask shelf.old) file.now }
    requires may_ask_corr { S.may_ask shelf.old corr.now }
    requires discount { IsProper discount.now }
    ensures found { IfOk result (IsChecked (S.bytes shelf.old) file.now corr.now discount.now) }
    ensures why { IfErr result (IsCheckFault (S.bytes shelf.old) file.now corr.now discount.now
        (counts_of S.faults S.overlong S.loads shelf.old)
        (counts_of S.faults S.overlong S.loads shelf.new)) }
{
    let game = read_game(alloc, shelf, file, discount)?;
    match read_set(alloc, shelf, &game, corr) {
        Ok(set) => Ok(fault_of(&game, set)),
        Err(fault) => Err(fault),
    }
}

/// The first entry that isn't generated: none where the correspondence is self-generating.
fn fault_of(game: &Game, set: Corr) -> Option<CorrFault>
    requires { KeepsLimits game.now set }
    ensures { IsVerdictOn game.now set result }
{
    match check(game, set) {
        Ok(_) => None,
        Err(refused) => Some(refused.fault),
    }
}

/// The correspondence in the file of this name.
fn read_set<S: Shelf>(
    alloc: Global,
    shelf: &mut S,
    game: &Game,
    name: &str,
) -> Result<Corr, GameFault>
    requires may_ask { S.may_ask shelf.old name.now }
    ensures read { IfOk result (IsCorrOf (S.bytes shelf.old) name.now game.now) }
    ensures limits { IfOk result (KeepsLimits game.now) }
    ensures why { IfErr result (IsCorrFault (S.bytes shelf.old) name.now game.now
        (counts_of S.faults S.overlong S.loads shelf.old)
        (counts_of S.faults S.overlong S.loads shelf.new)) }
    ensures loads { AreLoads 1
        (counts_of S.faults S.overlong S.loads shelf.old)
        (counts_of S.faults S.overlong S.loads shelf.new) }
{
    let bytes = load(alloc, shelf, FileId::Second, name, LONGEST_SECOND)?;
    match read_corr(alloc, game, &bytes) {
        Ok(set) => Ok(set),
        Err(fault) => Err(text_fault(fault)),
    }
}

/// The first fault of the text of a correspondence.
fn text_fault(fault: CorrTextFault) -> GameFault
    ensures { result ≡ corr_refused fault }
{
    let file = FileId::Second;
    match fault {
        CorrTextFault::Bad { at } => GameFault::BadInput { file, at },
        CorrTextFault::Limit { what, number, .. } => GameFault::Beyond { what, number },
        CorrTextFault::Wide { what, number } => GameFault::Beyond { what, number },
        CorrTextFault::NoMemory => GameFault::NoMemory,
    }
}

/// The line of an answer, with its line feed.
pub(crate) fn answer_text(alloc: Global, answer: Option<CorrFault>) -> Result<String, AllocError>
    ensures { IfOk result (λ s. string_bytes s ≡ check_text answer) }
{
    match answer {
        None => String::from_str(alloc, "holds\n"),
        Some(fault) => fault_text(alloc, fault),
    }
}

/// The line of an entry that isn't generated.
fn fault_text(alloc: Global, fault: CorrFault) -> Result<String, AllocError>
    ensures { IfOk result (λ s. string_bytes s ≡ check_text (Some fault)) }
{
    let why = reason_text(alloc, fault.why)?;
    let (state, entry) = (fault.state, fault.entry);
    format!(in alloc; "fails {state} {entry} {why}\n")
}

/// The words of a broken part.
fn reason_text(alloc: Global, why: Why) -> Result<String, AllocError>
    ensures { IfOk result (λ s. string_bytes s ≡ why_text why) }
{
    match why {
        Why::Profile => String::from_str(alloc, "profile"),
        Why::Lottery => String::from_str(alloc, "lottery"),
        Why::Weights => String::from_str(alloc, "weights"),
        Why::Punish => String::from_str(alloc, "punish"),
        Why::Point { player } => format!(in alloc; "point {player}"),
        Why::Gain { player, strategy } => format!(in alloc; "gain {player} {strategy}"),
    }
}
