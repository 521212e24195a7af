//! Reading the text of a correspondence, with its points as fractions.

ghost use Rattle.std.specs.Prelude.{◌≡◌, ◌≤ℤ◌, ◌^◌, ◌++◌, ◌∷◌, [], pos, unsigned_abs, option_map, IfErr, IfOk, IfSome, OnOk};
ghost use Rattle.nfg_text.specs.Wanted.{Reads, Passes, Gives, whole_in, many_at, times_at};
ghost use Rattle.nfg_text.specs.declared.fault.NfgFault.TheVariants.{NoMemory};
ghost use Rattle.token_text.specs.Lexer.{token_of};
ghost use Rattle.game_model.specs.Game.{states};
ghost use Rattle.selfgen_check.specs.Grammar.{whole_as, whole_at, weight_at, point_at, profile_at, pair_or_close_at, pairs_end_at, pairs_past, lottery_at, whole_or_close_at, wholes_at, entry_at, entry_or_close_at, entries_end_at, entries_past, state_at, file_at, written_of};

use crate::lottery::Lottery;
use crate::written::Written;
use game_model::{Game, List};
use nfg_text::wants::{close, end, exact, limited, open, whole};
use nfg_text::{NfgFault, What, numbers};
use pay_frac::Frac;
use std::alloc::Global;
use token_text::{Lexeme, LexemeKind, Lexer};

/// The largest whole number but for weights.
const MOST_WHOLE: u128 = 4294967295;

/// The largest weight.
const MOST_WEIGHT: u128 = 1 << 83;

/// The entries that the bytes of a text have for each state of the game.
#[tactic(auto, unfolding(crate::specs::Grammar::written_of))]
pub(crate) fn written(
    alloc: Global,
    game: &Game,
    bytes: &[u8],
) -> Result<List<List<Written>>, NfgFault>
    ensures { Gives result (written_of game.now bytes.now) }
{
    let mut tokens = Lexer::of(bytes);
    file(alloc, &mut tokens, game.players(), game.states())
}

#[tactic(auto, unfolding(crate::specs::Grammar::file_at))]
fn file(
    alloc: Global,
    tokens: &mut Lexer<'_>,
    players: u32,
    count: u32,
) -> Result<List<List<Written>>, NfgFault>
    ensures { Gives result (file_at players count tokens.old) }
{
    exact(tokens, b"SGC")?;
    exact(tokens, b"1")?;
    open(tokens)?;
    let states = states(alloc, tokens, players, count)?;
    close(tokens)?;
    end(tokens)?;
    Ok(states)
}

/// So many states.
fn states(
    alloc: Global,
    tokens: &mut Lexer<'_>,
    players: u32,
    count: u32,
) -> Result<List<List<Written>>, NfgFault>
    ensures { Reads (λ xs. xs) result tokens.new (times_at (state_at players) count tokens.old) }
{
    let mut states = List::new(alloc);
    for _ in 0..count {
        put(&mut states, state(alloc, tokens, players)?)?;
    }
    Ok(states)
}

/// The entries of a state in braces.
#[tactic(auto, unfolding(crate::specs::Grammar::state_at))]
fn state(alloc: Global, tokens: &mut Lexer<'_>, players: u32) -> Result<List<Written>, NfgFault>
    ensures { Reads (λ xs. xs) result tokens.new (state_at players tokens.old) }
{
    open(tokens)?;
    entries(alloc, tokens, players)
}

/// At most 65535 entries, and the close brace.
fn entries(alloc: Global, tokens: &mut Lexer<'_>, players: u32) -> Result<List<Written>, NfgFault>
    ensures { Reads (λ xs. xs) result tokens.new (many_at (entry_or_close_at players) entries_past 65535 tokens.old) }
{
    let mut entries = List::new(alloc);
    for _ in 0..65535u32 {
        match entry_or_close(alloc, tokens, players)? {
            Some(entry) => put(&mut entries, entry)?,
            None => return Ok(entries),
        }
    }
    entries_end(tokens)?;
    Ok(entries)
}

/// The close brace behind 65535 entries.
#[tactic(auto, unfolding(crate::specs::Grammar::entries_end_at))]
fn entries_end(tokens: &mut Lexer<'_>) -> Result<(), NfgFault>
    ensures { Passes result tokens.new (entries_end_at tokens.old) }
{
    let token = tokens.next_token();
    match token.kind {
        LexemeKind::Close => Ok(()),
        LexemeKind::Open => Err(NfgFault::Limit {
            what: What::Entries,
            number: 65536,
            at: token.at,
        }),
        _ => Err(NfgFault::Bad { at: token.at }),
    }
}

/// An entry, or the close brace.
#[tactic(auto, unfolding(crate::specs::Grammar::entry_or_close_at))]
fn entry_or_close(
    alloc: Global,
    tokens: &mut Lexer<'_>,
    players: u32,
) -> Result<Option<Written>, NfgFault>
    ensures { Reads (λ x. x) result tokens.new (entry_or_close_at players tokens.old) }
{
    let token = tokens.peek();
    match token.kind {
        LexemeKind::Close => {
            tokens.next_token();
            Ok(None)
        }
        LexemeKind::Open => Ok(Some(entry(alloc, tokens, players)?)),
        _ => Err(NfgFault::Bad { at: token.at }),
    }
}

/// An entry in braces.
#[tactic(auto, unfolding(crate::specs::Grammar::entry_at))]
fn entry(alloc: Global, tokens: &mut Lexer<'_>, players: u32) -> Result<Written, NfgFault>
    ensures { Reads (λ x. x) result tokens.new (entry_at players tokens.old) }
{
    open(tokens)?;
    let point = point(alloc, tokens, players)?;
    let profile = profile(alloc, tokens, players)?;
    let lottery = lottery(tokens)?;
    open(tokens)?;
    let punish = wholes(alloc, tokens)?;
    close(tokens)?;
    Ok(Written {
        point,
        profile,
        lottery,
        punish,
    })
}

/// A number for each player, in braces.
#[tactic(auto, unfolding(crate::specs::Grammar::point_at))]
fn point(alloc: Global, tokens: &mut Lexer<'_>, players: u32) -> Result<List<Frac>, NfgFault>
    ensures { Reads (λ ps. ps) result tokens.new (point_at players tokens.old) }
{
    open(tokens)?;
    let parts = numbers(alloc, tokens, players)?;
    close(tokens)?;
    Ok(parts)
}

/// A strategy for each player, in braces.
#[tactic(auto, unfolding(crate::specs::Grammar::profile_at))]
fn profile(alloc: Global, tokens: &mut Lexer<'_>, players: u32) -> Result<List<u32>, NfgFault>
    ensures { Reads (λ ns. ns) result tokens.new (profile_at players tokens.old) }
{
    open(tokens)?;
    let strategies = strategies(alloc, tokens, players)?;
    close(tokens)?;
    Ok(strategies)
}

/// So many strategies.
fn strategies(alloc: Global, tokens: &mut Lexer<'_>, count: u32) -> Result<List<u32>, NfgFault>
    ensures { Reads (λ ns. ns) result tokens.new (times_at whole_at count tokens.old) }
{
    let mut strategies = List::new(alloc);
    for _ in 0..count {
        put(&mut strategies, next_whole(tokens)?)?;
    }
    Ok(strategies)
}

/// A whole number that is no weight.
#[tactic(auto, unfolding(crate::specs::Grammar::whole_at))]
fn next_whole(tokens: &mut Lexer<'_>) -> Result<u32, NfgFault>
    ensures { Reads (λ n. n) result tokens.new (whole_at tokens.old) }
{
    let token = tokens.next_token();
    whole_number(&token)
}

/// The whole number that a token is.
fn whole_number(token: &Lexeme<'_>) -> Result<u32, NfgFault>
    ensures { Gives result (whole_as (token_of token.now) (whole_in (token_of token.now).kind)) }
{
    let Some(number) = whole(token) else {
        return Err(NfgFault::Bad { at: token.at });
    };
    let value = limited(What::Whole, MOST_WHOLE, token.at, number)?;
    Ok(value as u32)
}

/// A weight.
#[tactic(auto, unfolding(crate::specs::Grammar::weight_at))]
fn weight(tokens: &mut Lexer<'_>) -> Result<i128, NfgFault>
    ensures value { Reads (λ n. unsigned_abs n) result tokens.new (weight_at tokens.old) }
    ensures not_negative { IfOk result (λ n. pos 0 ≤ℤ n) }
    ensures small { IfOk result (λ n. n ≤ℤ pos (2 ^ 83)) }
{
    let token = tokens.next_token();
    let Some(number) = whole(&token) else {
        return Err(NfgFault::Bad { at: token.at });
    };
    let value = limited(What::Weight, MOST_WEIGHT, token.at, number)?;
    Ok(value as i128)
}

/// Up to four outcomes in braces.
#[tactic(auto, unfolding(crate::specs::Grammar::lottery_at))]
fn lottery(tokens: &mut Lexer<'_>) -> Result<Lottery, NfgFault>
    ensures { Reads (λ l. l) result tokens.new (lottery_at tokens.old) }
{
    open(tokens)?;
    outcomes(tokens)
}

/// At most four outcomes, and the close brace.
fn outcomes(tokens: &mut Lexer<'_>) -> Result<Lottery, NfgFault>
    ensures { Reads (λ l. l) result tokens.new (many_at pair_or_close_at pairs_past 4 tokens.old) }
{
    let mut lottery = Lottery::new();
    for _ in 0..4u32 {
        match pair_or_close(tokens)? {
            Some(pair) => lottery.push(pair.0, pair.1),
            None => return Ok(lottery),
        }
    }
    pairs_end(tokens)?;
    Ok(lottery)
}

/// The number of an entry and its weight, or the close brace.
#[tactic(auto, unfolding(crate::specs::Grammar::pair_or_close_at))]
fn pair_or_close(tokens: &mut Lexer<'_>) -> Result<Option<(u32, i128)>, NfgFault>
    ensures value { Reads (λ p. option_map (λ o. (o.0, unsigned_abs o.1)) p) result tokens.new (pair_or_close_at tokens.old) }
    ensures not_negative { IfOk result (λ p. IfSome p (λ o. pos 0 ≤ℤ o.1)) }
    ensures small { IfOk result (λ p. IfSome p (λ o. o.1 ≤ℤ pos (2 ^ 83))) }
{
    let token = tokens.next_token();
    match token.kind {
        LexemeKind::Close => Ok(None),
        LexemeKind::Word(_) => {
            let entry = whole_number(&token)?;
            let weight = weight(tokens)?;
            Ok(Some((entry, weight)))
        }
        _ => Err(NfgFault::Bad { at: token.at }),
    }
}

/// The close brace behind four pairs.
#[tactic(auto, unfolding(crate::specs::Grammar::pairs_end_at))]
fn pairs_end(tokens: &mut Lexer<'_>) -> Result<(), NfgFault>
    ensures { Passes result tokens.new (pairs_end_at tokens.old) }
{
    let token = tokens.next_token();
    match token.kind {
        LexemeKind::Close => Ok(()),
        LexemeKind::Word(_) if whole(&token).is_some() => Err(NfgFault::Limit {
            what: What::Outcomes,
            number: 5,
            at: token.at,
        }),
        _ => Err(NfgFault::Bad { at: token.at }),
    }
}

/// Whole numbers up to the close brace.
fn wholes(alloc: Global, tokens: &mut Lexer<'_>) -> Result<List<u32>, NfgFault>
    ensures { Reads (λ ns. ns) result tokens.new (wholes_at tokens.old) }
{
    let mut numbers = List::new(alloc);
    while let Some(number) = whole_or_close(tokens)? {
        put(&mut numbers, number)?;
    }
    Ok(numbers)
}

/// A whole number, or the close brace.
#[tactic(auto, unfolding(crate::specs::Grammar::whole_or_close_at))]
fn whole_or_close(tokens: &mut Lexer<'_>) -> Result<Option<u32>, NfgFault>
    ensures { Reads (λ n. n) result tokens.new (whole_or_close_at tokens.old) }
{
    let token = tokens.next_token();
    match token.kind {
        LexemeKind::Close => Ok(None),
        LexemeKind::Word(_) => Ok(Some(whole_number(&token)?)),
        _ => Err(NfgFault::Bad { at: token.at }),
    }
}

/// Adds an item at the end of the list.
fn put<T: Drop>(list: &mut List<T>, item: T) -> Result<(), NfgFault>
    ensures kept { OnOk result (list.new ≡ list.old ++ item ∷ []) }
    ensures memory { IfErr result (λ e. e ≡ NoMemory) }
{
    token_text::put(list, item)?;
    Ok(())
}
