//! Reading the text of a schedule.

ghost use Rattle.std.specs.Prelude.{◌≡◌, ◌<◌, ◌≤◌, ◌++◌, ◌∷◌, [], All, IfErr, IfOk, IfSome, OnOk};
ghost use Rattle.nfg_text.specs.Wanted.{Reads, Gives as Has, whole_in};
ghost use Rattle.nfg_text.specs.declared.fault.NfgFault.TheVariants.{NoMemory};
ghost use Rattle.token_text.specs.Lexer.{token_of};
ghost use Rattle.schedule_core.specs.declared.moves.Move.TheVariants.{Clear};
ghost use Rattle.schedule_core.specs.Schedules.{FitsMove, FitsSchedule, Gives, ranged_as, ranged_at, load_at, lower_at, clear_at, move_at, move_or_close_at, moves_at, file_at, schedule_of, told};

use crate::moves::{Move, Schedule};
use crate::schedule_fault::ScheduleFault;
use game_model::List;
use nfg_text::wants::{end, exact, limited, open, whole};
use nfg_text::{NfgFault, What};
use std::alloc::Global;
use token_text::{Lexeme, LexemeKind, Lexer};

/// The largest whole number of a schedule.
const MOST_WHOLE: u128 = 4294967295;

/// The schedule that the bytes of a text have for a table of so many rows. Each worker and each row in it is one of
/// those that there are.
///
/// # Errors
///
/// The first fault of the text, and `NoMemory`. A worker or a row that there isn't is `Bad` at its place.
#[tactic(auto, unfolding(crate::specs::Schedules::schedule_of))]
pub fn read_schedule(alloc: Global, bytes: &[u8], rows: u32) -> Result<Schedule, ScheduleFault>
    ensures value { Gives result (schedule_of rows bytes.now) }
    ensures fits { IfOk result (FitsSchedule rows) }
{
    let mut tokens = Lexer::of(bytes);
    match file(alloc, &mut tokens, rows) {
        Ok(schedule) => Ok(schedule),
        Err(fault) => Err(told(fault)),
    }
}

/// A fault of the form, or a limit that a token passes.
fn told(fault: NfgFault) -> ScheduleFault
    ensures { result ≡ told fault }
{
    match fault {
        NfgFault::Bad { at } => ScheduleFault::Bad { at },
        NfgFault::Limit { what, number, at } => ScheduleFault::Limit { what, number, at },
        NfgFault::NoMemory => ScheduleFault::NoMemory,
    }
}

#[tactic(auto, unfolding(crate::specs::Schedules::file_at))]
fn file(alloc: Global, tokens: &mut Lexer<'_>, rows: u32) -> Result<Schedule, NfgFault>
    ensures value { Has result (file_at rows tokens.old) }
    ensures fits { IfOk result (FitsSchedule rows) }
{
    exact(tokens, b"SCH")?;
    exact(tokens, b"1")?;
    let workers = ranged(tokens, 1, 17)?;
    open(tokens)?;
    let moves = moves(alloc, tokens, workers, rows)?;
    end(tokens)?;
    Ok(Schedule { workers, moves })
}

/// Moves up to the close brace.
fn moves(
    alloc: Global,
    tokens: &mut Lexer<'_>,
    workers: u32,
    rows: u32,
) -> Result<List<Move>, NfgFault>
    ensures value { Reads (λ ms. ms) result tokens.new (moves_at workers rows tokens.old) }
    ensures fits { IfOk result (All (FitsMove workers rows)) }
{
    let mut moves = List::new(alloc);
    while let Some(next) = move_or_close(tokens, workers, rows)? {
        put(&mut moves, next)?;
    }
    Ok(moves)
}

/// A move, or the close brace.
#[tactic(auto, unfolding(crate::specs::Schedules::move_or_close_at))]
fn move_or_close(tokens: &mut Lexer<'_>, workers: u32, rows: u32) -> Result<Option<Move>, NfgFault>
    ensures value { Reads (λ m. m) result tokens.new (move_or_close_at workers rows tokens.old) }
    ensures fits { IfOk result (λ m. IfSome m (FitsMove workers rows)) }
{
    let token = tokens.next_token();
    match token.kind {
        LexemeKind::Close => Ok(None),
        LexemeKind::Word(name) => Ok(Some(named_move(tokens, &token, name, workers, rows)?)),
        _ => Err(NfgFault::Bad { at: token.at }),
    }
}

/// The move whose first word was read.
fn named_move(
    tokens: &mut Lexer<'_>,
    token: &Lexeme<'_>,
    name: &[u8],
    workers: u32,
    rows: u32,
) -> Result<Move, NfgFault>
    ensures value { Reads (λ m. m) result tokens.new (move_at workers rows (token_of token.now) name.now tokens.old) }
    ensures fits { IfOk result (FitsMove workers rows) }
{
    if name == b"load".as_slice() {
        load(tokens, workers, rows)
    } else if name == b"lower".as_slice() {
        lower(tokens, workers, rows)
    } else if name == b"clear".as_slice() {
        let row = cleared_row(tokens, rows)?;
        Ok(Move::Clear { row })
    } else {
        Err(NfgFault::Bad { at: token.at })
    }
}

/// The worker and the row of a load.
#[tactic(auto, unfolding(crate::specs::Schedules::load_at))]
fn load(tokens: &mut Lexer<'_>, workers: u32, rows: u32) -> Result<Move, NfgFault>
    ensures value { Reads (λ m. m) result tokens.new (load_at workers rows tokens.old) }
    ensures fits { IfOk result (FitsMove workers rows) }
{
    let w = ranged(tokens, 0, workers)?;
    let row = ranged(tokens, 0, rows)?;
    Ok(Move::Load { w, row })
}

/// The worker and the row of a lowering.
#[tactic(auto, unfolding(crate::specs::Schedules::lower_at))]
fn lower(tokens: &mut Lexer<'_>, workers: u32, rows: u32) -> Result<Move, NfgFault>
    ensures value { Reads (λ m. m) result tokens.new (lower_at workers rows tokens.old) }
    ensures fits { IfOk result (FitsMove workers rows) }
{
    let w = ranged(tokens, 0, workers)?;
    let row = ranged(tokens, 0, rows)?;
    Ok(Move::Lower { w, row })
}

/// The owner and the row of a clearing.
#[tactic(auto, unfolding(crate::specs::Schedules::clear_at))]
fn cleared_row(tokens: &mut Lexer<'_>, rows: u32) -> Result<u32, NfgFault>
    ensures value { Reads (λ row. Clear row) result tokens.new (clear_at rows tokens.old) }
    ensures below { IfOk result (λ row. row < rows) }
{
    ranged(tokens, 0, 1)?;
    ranged(tokens, 0, rows)
}

/// A whole number from `least` on and below `bound`.
#[tactic(auto, unfolding(crate::specs::Schedules::ranged_at))]
fn ranged(tokens: &mut Lexer<'_>, least: u32, bound: u32) -> Result<u32, NfgFault>
    ensures value { Reads (λ n. n) result tokens.new (ranged_at least bound tokens.old) }
    ensures from { IfOk result (λ n. least ≤ n) }
    ensures below { IfOk result (λ n. n < bound) }
{
    let token = tokens.next_token();
    let Some(number) = whole(&token) else {
        return Err(NfgFault::Bad { at: token.at });
    };
    if number.0 < u128::from(least) || number.0 >= u128::from(bound) {
        return Err(NfgFault::Bad { at: token.at });
    }
    let value = limited(What::Whole, MOST_WHOLE, token.at, number)?;
    Ok(value as u32)
}

/// Adds a move at the end of the list.
fn put(moves: &mut List<Move>, next: Move) -> Result<(), NfgFault>
    ensures kept { OnOk result (moves.new ≡ moves.old ++ next ∷ []) }
    ensures memory { IfErr result (λ e. e ≡ NoMemory) }
{
    token_text::put(moves, next)?;
    Ok(())
}
