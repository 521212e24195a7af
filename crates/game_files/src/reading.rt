//! From the name of a first file to its game.

ghost use Rattle.std.specs.Prelude.{◌≡◌, ◌↔◌, ◌<◌, ◌∷◌, ◌++◌, [], ℕ, List, length, IfOk, IfErr, OnOk};
ghost use Rattle.game_files.specs.declared.first.First.TheVariants.{Transitions};
ghost use Rattle.game_files.specs.declared.fault.FileId.TheVariants.{First as FirstFile, State as StateFile};
ghost use Rattle.game_files.specs.Loads.{AreLoads, Stands, counts_of};
ghost use Rattle.game_files.specs.Files.{IsFirst, IsStage, AreStages, AreFiles, file_of, first_of, is_transitions};
ghost use Rattle.game_files.specs.Causes.{HasFault, IsOneFault, IsFileFault, IsStagesFault, IsFilesFault, text_refused};
ghost use Rattle.game_files.specs.Files.{AreLoadsOf, MayAskStates};
ghost use Rattle.dyn_text.specs.Single.{single_of};
ghost use Rattle.dyn_text.specs.Assembled.{IsDiscount};
ghost use Rattle.game_files.specs.Causes.{IsGameOf, IsNoGame, build_refused};
ghost use Rattle.nfg_text.specs.Wanted.{Gives};

use crate::fault::{FileId, GameFault};
use crate::first::First;
use crate::loading::{LONGEST_FILE, load};
use dyn_text::{BuildFault, Dyn, assemble, files_have_states, read_dyn, single, single_fits};
use game_model::Game;
use nfg_text::{Nfg, NfgFault, read_games_keep_their_form, read_nfg};
use pay_frac::Frac;
use pay_outside::Shelf;
use std::alloc::{AllocError, Global};
use token_text::{LexemeKind, Lexer};

/// The transitions and the stage games of a first file and of the files that it names.
#[derive(Drop)]
struct Files {
    dynamic: Dyn,
    games: Vec<Nfg>,
}

/// Whether the first token of a text is the word `DYN`.
fn is_transitions(bytes: &[u8]) -> bool
    ensures { result ≡ is_transitions bytes.now }
{
    match Lexer::of(bytes).peek().kind {
        LexemeKind::Word(word) => word == b"DYN".as_slice(),
        _ => false,
    }
}

/// What the text of a first file says.
#[tactic(auto, unfolding(crate::specs::Files::first_of))]
fn parsed(alloc: Global, bytes: &[u8]) -> Result<First, NfgFault>
    ensures { Gives result (first_of bytes.now) }
{
    if is_transitions(bytes) {
        Ok(First::Transitions(read_dyn(alloc, bytes)?))
    } else {
        Ok(First::Stage(read_nfg(alloc, bytes)?))
    }
}

/// A fault of a file's text.
fn text_fault(file: FileId, fault: NfgFault) -> GameFault
    ensures { result ≡ text_refused file fault }
{
    match fault {
        NfgFault::Bad { at } => GameFault::BadInput { file, at },
        NfgFault::Limit { what, number, .. } => GameFault::Beyond { what, number },
        NfgFault::NoMemory => GameFault::NoMemory,
    }
}

/// What the first file says.
fn read_first<S: Shelf>(alloc: Global, shelf: &mut S, name: &str) -> Result<First, GameFault>
    requires may_ask { S.may_ask shelf.old name.now }
    ensures read { IfOk result (IsFirst (S.bytes shelf.old) name.now) }
    ensures why { IfErr result (IsOneFault (S.bytes shelf.old) FirstFile name.now
        (counts_of S.faults S.overlong S.loads shelf.old)
        (counts_of S.faults S.overlong S.loads shelf.new)) }
    ensures loads { AreLoads 1
        (counts_of S.faults S.overlong S.loads shelf.old)
        (counts_of S.faults S.overlong S.loads shelf.new) }
    ensures same_bytes { (n : List ℕ) → S.bytes shelf.new n ≡ S.bytes shelf.old n }
    ensures same_names { (n : List ℕ) → (S.may_ask shelf.new n ↔ S.may_ask shelf.old n) }
{
    let bytes = load(alloc, shelf, FileId::First, name, LONGEST_FILE)?;
    match parsed(alloc, &bytes) {
        Ok(first) => Ok(first),
        Err(fault) => Err(text_fault(FileId::First, fault)),
    }
}

/// The stage game of state `s`, in the file of this name.
fn read_stage<S: Shelf>(alloc: Global, shelf: &mut S, s: u32, name: &str) -> Result<Nfg, GameFault>
    requires may_ask { S.may_ask shelf.old name.now }
    ensures read { IfOk result (IsStage (S.bytes shelf.old) name.now) }
    ensures why { IfErr result (IsOneFault (S.bytes shelf.old) (StateFile s) name.now
        (counts_of S.faults S.overlong S.loads shelf.old)
        (counts_of S.faults S.overlong S.loads shelf.new)) }
    ensures loads { AreLoads 1
        (counts_of S.faults S.overlong S.loads shelf.old)
        (counts_of S.faults S.overlong S.loads shelf.new) }
    ensures same_bytes { (n : List ℕ) → S.bytes shelf.new n ≡ S.bytes shelf.old n }
    ensures same_names { (n : List ℕ) → (S.may_ask shelf.new n ↔ S.may_ask shelf.old n) }
{
    let file = FileId::State(s);
    let bytes = load(alloc, shelf, file, name, LONGEST_FILE)?;
    match read_nfg(alloc, &bytes) {
        Ok(game) => Ok(game),
        Err(fault) => Err(text_fault(file, fault)),
    }
}

/// The stage games of all states, in the order of the states.
fn read_stages<S: Shelf>(alloc: Global, shelf: &mut S, dynamic: &Dyn) -> Result<Vec<Nfg>, GameFault>
    requires may_ask { (s : ℕ) → s < length dynamic.now.states → S.may_ask shelf.old (file_of dynamic.now s) }
    ensures count { IfOk result (λ v. length v.items ≡ length dynamic.now.states) }
    ensures read { IfOk result (λ v. AreStages (S.bytes shelf.old) dynamic.now v.items) }
    ensures why { IfErr result (IsStagesFault (S.bytes shelf.old) dynamic.now
        (counts_of S.faults S.overlong S.loads shelf.old)
        (counts_of S.faults S.overlong S.loads shelf.new)) }
    ensures loads { OnOk result (AreLoads (length dynamic.now.states)
        (counts_of S.faults S.overlong S.loads shelf.old)
        (counts_of S.faults S.overlong S.loads shelf.new)) }
    ensures same_bytes { (n : List ℕ) → S.bytes shelf.new n ≡ S.bytes shelf.old n }
    ensures same_names { (n : List ℕ) → (S.may_ask shelf.new n ↔ S.may_ask shelf.old n) }
{
    let mut games = Vec::new(alloc);
    for s in 0..dynamic.states.len() {
        let game = read_stage(alloc, shelf, s, dynamic.states.get(s).file.as_str())?;
        put(&mut games, game)?;
    }
    Ok(games)
}

/// Adds a game at the end.
fn put(games: &mut Vec<Nfg>, game: Nfg) -> Result<(), AllocError>
    ensures { OnOk result (games.new.items ≡ games.old.items ++ game ∷ []) }
{
    games.push(game)?;
    Ok(())
}

/// A stage game that is repeated.
fn repeated(alloc: Global, game: Nfg) -> Result<Files, AllocError>
    ensures { IfOk result (λ f. (f.dynamic ≡ single_of game) × (f.games.items ≡ game ∷ [])) }
{
    let dynamic = single(alloc, &game)?;
    let mut games = Vec::new(alloc);
    games.push(game)?;
    Ok(Files { dynamic, games })
}

/// The transitions and the stage games of the files.
fn read_files<S: Shelf>(alloc: Global, shelf: &mut S, name: &str) -> Result<Files, GameFault>
    requires may_ask { S.may_ask shelf.old name.now }
    requires may_ask_states { MayAskStates (S.bytes shelf.old) (S.may_ask shelf.old) name.now }
    ensures files { IfOk result (λ f. AreFiles (S.bytes shelf.old) name.now f.dynamic f.games.items) }
    ensures why { IfErr result (IsFilesFault (S.bytes shelf.old) name.now
        (counts_of S.faults S.overlong S.loads shelf.old)
        (counts_of S.faults S.overlong S.loads shelf.new)) }
    ensures loads { OnOk result (AreLoadsOf (S.bytes shelf.old) name.now
        (counts_of S.faults S.overlong S.loads shelf.old)
        (counts_of S.faults S.overlong S.loads shelf.new)) }
    ensures same_bytes { (n : List ℕ) → S.bytes shelf.new n ≡ S.bytes shelf.old n }
    ensures same_names { (n : List ℕ) → (S.may_ask shelf.new n ↔ S.may_ask shelf.old n) }
{
    match read_first(alloc, shelf, name)? {
        First::Stage(game) => Ok(repeated(alloc, game)?),
        First::Transitions(dynamic) => {
            let games = read_stages(alloc, shelf, &dynamic)?;
            Ok(Files { dynamic, games })
        }
    }
}

/// The game that the file under this name makes, with the files that it names, at this discount factor of both
/// players. A file that begins with the word `DYN` is a transition file, and each other one is read as a stage game,
/// which is repeated.
///
/// # Errors
///
/// In this order: the first file and its text, each state's file and its text in the order of the states, the shape of
/// the transitions, the limits of the discount factor, of the common denominator and of the payoffs.
pub fn read_game<S: Shelf>(
    alloc: Global,
    shelf: &mut S,
    name: &str,
    discount: &Frac,
) -> Result<Game, GameFault>
    requires may_ask { S.may_ask shelf.old name.now }
    requires may_ask_states { MayAskStates (S.bytes shelf.old) (S.may_ask shelf.old) name.now }
    requires discount { IsDiscount discount.now }
    ensures game { IfOk result (IsGameOf (S.bytes shelf.old) name.now discount.now) }
    ensures why { IfErr result (IsNoGame (S.bytes shelf.old) name.now discount.now
        (counts_of S.faults S.overlong S.loads shelf.old)
        (counts_of S.faults S.overlong S.loads shelf.new)) }
    ensures loads { OnOk result (AreLoadsOf (S.bytes shelf.old) name.now
        (counts_of S.faults S.overlong S.loads shelf.old)
        (counts_of S.faults S.overlong S.loads shelf.new)) }
    ensures same_bytes { (n : List ℕ) → S.bytes shelf.new n ≡ S.bytes shelf.old n }
    ensures same_names { (n : List ℕ) → (S.may_ask shelf.new n ↔ S.may_ask shelf.old n) }
{
    read_games_keep_their_form();
    files_have_states();
    single_fits();
    let files = read_files(alloc, shelf, name)?;
    match assemble(alloc, &files.dynamic, &files.games, discount) {
        Ok(game) => Ok(game),
        Err(fault) => Err(refused(fault)),
    }
}

/// Why the files make no game.
fn refused(fault: BuildFault) -> GameFault
    ensures { result ≡ build_refused fault }
{
    match fault {
        BuildFault::Shape(fault) => GameFault::Shape { fault },
        BuildFault::Wide { what, number } => GameFault::Beyond { what, number },
        BuildFault::NoMemory => GameFault::NoMemory,
    }
}
