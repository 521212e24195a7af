//! Reading a transition file.

ghost use Rattle.std.specs.Prelude.{◌≡◌, ◌≤◌, ◌++◌, ◌∷◌, [], ℕ, length, IfErr, OnOk};
ghost use Rattle.nfg_text.specs.Wanted.{Reads, Passes, Gives, whole_in, many_at, behind};
ghost use Rattle.nfg_text.specs.declared.fault.NfgFault.TheVariants.{NoMemory};
ghost use Rattle.token_text.specs.Lexer.{token_of};
ghost use Rattle.dyn_text.specs.Grammar.{file_name_at, successor_as, successor_or_close_at, successors_at, state_at, state_or_close_at, full_at, states_past, states_at, file_at, dyn_of};

use crate::file_name::{FileName, file_name};
use crate::transitions::{Dyn, DynState};
use game_model::List;
use nfg_text::wants::{close, end, exact, limited, open, quoted, quoted_text, whole};
use nfg_text::{NfgFault, What};
use std::alloc::Global;
use token_text::{Lexeme, LexemeKind, Lexer};

/// The largest number of a successor.
const MOST_WHOLE: u128 = 4294967295;

/// The transitions that the bytes of a file spell.
///
/// # Errors
///
/// The first fault of the text, and `NoMemory`.
#[tactic(auto, unfolding(crate::specs::Grammar::dyn_of))]
pub fn read_dyn(alloc: Global, bytes: &[u8]) -> Result<Dyn, NfgFault>
    ensures { Gives result (dyn_of bytes.now) }
{
    let mut tokens = Lexer::of(bytes);
    file(alloc, &mut tokens)
}

#[tactic(auto, unfolding(crate::specs::Grammar::file_at))]
fn file(alloc: Global, tokens: &mut Lexer<'_>) -> Result<Dyn, NfgFault>
    ensures { Gives result (file_at tokens.old) }
{
    exact(tokens, b"DYN")?;
    exact(tokens, b"1")?;
    let title = quoted_text(alloc, tokens)?;
    open(tokens)?;
    let states = states(alloc, tokens)?;
    end(tokens)?;
    Ok(Dyn { title, states })
}

/// The name of a file.
#[tactic(auto, unfolding(crate::specs::Grammar::file_name_at))]
fn next_file_name(alloc: Global, tokens: &mut Lexer<'_>) -> Result<FileName, NfgFault>
    ensures { Reads (λ f. f) result tokens.new (file_name_at tokens.old) }
{
    let at = tokens.peek().at;
    let raw = quoted(tokens)?;
    match file_name(alloc, raw)? {
        Some(name) => Ok(name),
        None => Err(NfgFault::Bad { at }),
    }
}

/// The number of a state.
fn successor(token: &Lexeme<'_>) -> Result<u32, NfgFault>
    ensures { Gives result (successor_as (token_of token.now) (whole_in (token_of token.now).kind)) }
{
    let Some(number) = whole(token) else {
        return Err(NfgFault::Bad { at: token.at });
    };
    let value = limited(What::Whole, MOST_WHOLE, token.at, number)?;
    Ok(value as u32)
}

/// A successor, or the close brace.
#[tactic(auto, unfolding(crate::specs::Grammar::successor_or_close_at))]
fn successor_or_close(tokens: &mut Lexer<'_>) -> Result<Option<u32>, NfgFault>
    ensures { Reads (λ n. n) result tokens.new (successor_or_close_at tokens.old) }
{
    let token = tokens.next_token();
    match token.kind {
        LexemeKind::Close => Ok(None),
        LexemeKind::Word(_) => Ok(Some(successor(&token)?)),
        _ => Err(NfgFault::Bad { at: token.at }),
    }
}

/// Successors up to the close brace.
fn successors(alloc: Global, tokens: &mut Lexer<'_>) -> Result<List<u32>, NfgFault>
    ensures { Reads (λ ns. ns) result tokens.new (successors_at tokens.old) }
{
    let mut successors = List::new(alloc);
    while let Some(number) = successor_or_close(tokens)? {
        put(&mut successors, number)?;
    }
    Ok(successors)
}

/// A state in braces.
#[tactic(auto, unfolding(crate::specs::Grammar::state_at))]
fn state(alloc: Global, tokens: &mut Lexer<'_>) -> Result<DynState, NfgFault>
    ensures { Reads (λ x. x) result tokens.new (state_at tokens.old) }
{
    open(tokens)?;
    let name = quoted_text(alloc, tokens)?;
    let file = next_file_name(alloc, tokens)?;
    open(tokens)?;
    let next = successors(alloc, tokens)?;
    close(tokens)?;
    Ok(DynState { name, file, next })
}

/// A state, or the close brace.
#[tactic(auto, unfolding(crate::specs::Grammar::state_or_close_at))]
fn state_or_close(alloc: Global, tokens: &mut Lexer<'_>) -> Result<Option<DynState>, NfgFault>
    ensures { Reads (λ x. x) result tokens.new (state_or_close_at tokens.old) }
{
    let token = tokens.peek();
    match token.kind {
        LexemeKind::Close => {
            tokens.next_token();
            Ok(None)
        }
        LexemeKind::Open => Ok(Some(state(alloc, tokens)?)),
        _ => Err(NfgFault::Bad { at: token.at }),
    }
}

/// The close brace behind 64 states.
#[tactic(auto, unfolding(crate::specs::Grammar::full_at))]
fn full(tokens: &mut Lexer<'_>) -> Result<(), NfgFault>
    ensures { Passes result tokens.new (full_at tokens.old) }
{
    let token = tokens.next_token();
    match token.kind {
        LexemeKind::Close => Ok(()),
        LexemeKind::Open => Err(NfgFault::Limit {
            what: What::States,
            number: 65,
            at: token.at,
        }),
        _ => Err(NfgFault::Bad { at: token.at }),
    }
}

/// States up to the close brace, behind the first.
fn more_states(
    alloc: Global,
    tokens: &mut Lexer<'_>,
    first: DynState,
) -> Result<List<DynState>, NfgFault>
    ensures { Reads (λ xs. xs) result tokens.new (behind (first ∷ []) (many_at state_or_close_at states_past 63 tokens.old)) }
{
    let mut states = List::new(alloc);
    put(&mut states, first)?;
    for _ in 0..63u32 {
        match state_or_close(alloc, tokens)? {
            Some(state) => put(&mut states, state)?,
            None => return Ok(states),
        }
    }
    full(tokens)?;
    Ok(states)
}

/// States up to the close brace.
#[tactic(auto, unfolding(crate::specs::Grammar::states_at))]
fn states(alloc: Global, tokens: &mut Lexer<'_>) -> Result<List<DynState>, NfgFault>
    ensures { Reads (λ xs. xs) result tokens.new (states_at tokens.old) }
{
    let first = state(alloc, tokens)?;
    more_states(alloc, tokens, first)
}

/// Adds an item at the end of the list.
fn put<T: Drop>(list: &mut List<T>, item: T) -> Result<(), NfgFault>
    ensures kept { OnOk result (list.new ≡ list.old ++ item ∷ []) }
    ensures memory { IfErr result (λ e. e ≡ NoMemory) }
{
    token_text::put(list, item)?;
    Ok(())
}
