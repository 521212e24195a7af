//! The whole of Gambit's strategic form, version 1, of two players.

ghost use Rattle.std.specs.Prelude.{◌≡◌, ◌*◌, ◌≤◌, ◌^◌, ◌∷◌, ◌++◌, [], ℕ, length, option_map, IfOk, OnOk};
ghost use Rattle.nfg_text.specs.Wanted.{Reads, Passes, Gives, many_at, times_at, behind, number_at};
ghost use Rattle.nfg_text.specs.Grammar.{tag_at, title_at, player_at, two_at, players_at, count_at, counts_at, full_at, sixteen_past, name_or_close_at, names_at, both_names_at, strategies_at, profiles_of, comment_at, body_at, file_at, nfg_of};
ghost use Rattle.token_text.specs.Tokens.{unescaped};

use crate::fault::NfgFault;
use crate::nfg::{Nfg, Strategies};
use crate::outcomes::chosen;
use crate::wants::{
    close, end, exact, limited, number, open, put, quoted, quoted_text, text, whole,
};
use crate::what::What;
use game_model::List;
use pay_frac::Frac;
use std::alloc::Global;
use token_text::{LexemeKind, Lexer, Text};

/// The most strategies of a player.
const MOST_STRATEGIES: u128 = 16;

/// The game that the bytes of a file spell: names or counts of strategies, a comment or none, payoffs or outcomes.
///
/// # Errors
///
/// The first fault of the text, and `NoMemory`.
#[tactic(auto, unfolding(crate::specs::Grammar::nfg_of))]
pub fn read_nfg(alloc: Global, bytes: &[u8]) -> Result<Nfg, NfgFault>
    ensures { Gives result (nfg_of bytes.now) }
{
    let mut tokens = Lexer::of(bytes);
    file(alloc, &mut tokens)
}

#[tactic(auto, unfolding(crate::specs::Grammar::file_at))]
fn file(alloc: Global, tokens: &mut Lexer<'_>) -> Result<Nfg, NfgFault>
    ensures { Gives result (file_at tokens.old) }
{
    let title = title(alloc, tokens)?;
    let players = players(alloc, tokens)?;
    let (strategies, profiles) = strategies(alloc, tokens)?;
    let comment = comment(alloc, tokens)?;
    let payoffs = body(alloc, tokens, profiles)?;
    end(tokens)?;
    Ok(Nfg {
        title,
        players,
        strategies,
        comment,
        payoffs,
    })
}

/// The tags `R` and `D` mean the same.
#[tactic(auto, unfolding(crate::specs::Grammar::tag_at))]
fn tag(tokens: &mut Lexer<'_>) -> Result<(), NfgFault>
    ensures { Passes result tokens.new (tag_at tokens.old) }
{
    let token = tokens.next_token();
    match token.kind {
        LexemeKind::Word(word) if word == b"R".as_slice() || word == b"D".as_slice() => Ok(()),
        _ => Err(NfgFault::Bad { at: token.at }),
    }
}

/// `NFG 1`, a tag and the title.
#[tactic(auto, unfolding(crate::specs::Grammar::title_at))]
fn title(alloc: Global, tokens: &mut Lexer<'_>) -> Result<Text, NfgFault>
    ensures { Reads (λ t. t) result tokens.new (title_at tokens.old) }
{
    exact(tokens, b"NFG")?;
    exact(tokens, b"1")?;
    tag(tokens)?;
    quoted_text(alloc, tokens)
}

/// A player's name, of which there were `before`.
#[tactic(auto, unfolding(crate::specs::Grammar::player_at))]
fn player<'a>(tokens: &mut Lexer<'a>, before: u32) -> Result<&'a [u8], NfgFault>
    ensures { Reads (λ t. unescaped t.now) result tokens.new (player_at before tokens.old) }
{
    let token = tokens.next_token();
    match token.kind {
        LexemeKind::Quoted(name) => Ok(name),
        LexemeKind::Close => Err(NfgFault::Limit {
            what: What::Players,
            number: i128::from(before),
            at: token.at,
        }),
        _ => Err(NfgFault::Bad { at: token.at }),
    }
}

/// The close brace behind two names.
#[tactic(auto, unfolding(crate::specs::Grammar::two_at))]
fn two(tokens: &mut Lexer<'_>) -> Result<(), NfgFault>
    ensures { Passes result tokens.new (two_at tokens.old) }
{
    let token = tokens.next_token();
    match token.kind {
        LexemeKind::Close => Ok(()),
        LexemeKind::Quoted(_) => Err(NfgFault::Limit {
            what: What::Players,
            number: 3,
            at: token.at,
        }),
        _ => Err(NfgFault::Bad { at: token.at }),
    }
}

/// Two names in braces.
#[tactic(auto, unfolding(crate::specs::Grammar::players_at))]
fn players(alloc: Global, tokens: &mut Lexer<'_>) -> Result<List<Text>, NfgFault>
    ensures { Reads (λ ns. ns) result tokens.new (players_at tokens.old) }
{
    open(tokens)?;
    let first = player(tokens, 0)?;
    let second = player(tokens, 1)?;
    two(tokens)?;
    let mut names = List::new(alloc);
    put(&mut names, text(alloc, first)?)?;
    put(&mut names, text(alloc, second)?)?;
    Ok(names)
}

/// A number of strategies.
#[tactic(auto, unfolding(crate::specs::Grammar::count_at))]
fn count(tokens: &mut Lexer<'_>) -> Result<u32, NfgFault>
    ensures value { Reads (λ n. n) result tokens.new (count_at tokens.old) }
    ensures small { IfOk result (λ n. n ≤ 16) }
{
    let token = tokens.next_token();
    let Some(number) = whole(&token) else {
        return Err(NfgFault::Bad { at: token.at });
    };
    if number.0 == 0 {
        return Err(NfgFault::Bad { at: token.at });
    }
    let value = limited(What::Strategies, MOST_STRATEGIES, token.at, number)?;
    Ok(value as u32)
}

/// Numbers of strategies, and how many profiles there are.
#[tactic(auto, unfolding(crate::specs::Grammar::counts_at))]
fn counts(alloc: Global, tokens: &mut Lexer<'_>) -> Result<(Strategies, u32), NfgFault>
    ensures value { Reads (λ s. s.0) result tokens.new (counts_at tokens.old) }
    ensures profiles { IfOk result (λ s. (s.1 ≡ profiles_of s.0) × (s.1 ≤ 256)) }
{
    let first = count(tokens)?;
    let second = count(tokens)?;
    close(tokens)?;
    let mut counts = List::new(alloc);
    put(&mut counts, first)?;
    put(&mut counts, second)?;
    Ok((Strategies::Counts(counts), first * second))
}

/// The close brace behind 16 names.
#[tactic(auto, unfolding(crate::specs::Grammar::full_at))]
fn full(tokens: &mut Lexer<'_>) -> Result<(), NfgFault>
    ensures { Passes result tokens.new (full_at tokens.old) }
{
    let token = tokens.next_token();
    match token.kind {
        LexemeKind::Close => Ok(()),
        LexemeKind::Quoted(_) => Err(NfgFault::Limit {
            what: What::Strategies,
            number: 17,
            at: token.at,
        }),
        _ => Err(NfgFault::Bad { at: token.at }),
    }
}

/// A name, or the close brace.
#[tactic(auto, unfolding(crate::specs::Grammar::name_or_close_at))]
fn name_or_close<'a>(tokens: &mut Lexer<'a>) -> Result<Option<&'a [u8]>, NfgFault>
    ensures { Reads (λ t. option_map (λ n. unescaped n.now) t) result tokens.new (name_or_close_at tokens.old) }
{
    let token = tokens.next_token();
    match token.kind {
        LexemeKind::Close => Ok(None),
        LexemeKind::Quoted(name) => Ok(Some(name)),
        _ => Err(NfgFault::Bad { at: token.at }),
    }
}

/// Names up to the close brace, behind the first.
fn more_names(alloc: Global, tokens: &mut Lexer<'_>, first: Text) -> Result<List<Text>, NfgFault>
    ensures value { Reads (λ ns. ns) result tokens.new (behind (first ∷ []) (many_at name_or_close_at sixteen_past 15 tokens.old)) }
    ensures small { IfOk result (λ ns. length ns ≤ 16) }
{
    let mut names = List::new(alloc);
    put(&mut names, first)?;
    for _ in 0..15u32 {
        match name_or_close(tokens)? {
            Some(name) => put(&mut names, text(alloc, name)?)?,
            None => return Ok(names),
        }
    }
    full(tokens)?;
    Ok(names)
}

/// Names of strategies in braces.
#[tactic(auto, unfolding(crate::specs::Grammar::names_at))]
fn names(alloc: Global, tokens: &mut Lexer<'_>) -> Result<List<Text>, NfgFault>
    ensures value { Reads (λ ns. ns) result tokens.new (names_at tokens.old) }
    ensures small { IfOk result (λ ns. length ns ≤ 16) }
{
    open(tokens)?;
    let first = quoted_text(alloc, tokens)?;
    more_names(alloc, tokens, first)
}

/// Names of both players' strategies, and how many profiles there are.
#[tactic(auto, unfolding(crate::specs::Grammar::both_names_at))]
fn both_names(alloc: Global, tokens: &mut Lexer<'_>) -> Result<(Strategies, u32), NfgFault>
    ensures value { Reads (λ s. s.0) result tokens.new (both_names_at tokens.old) }
    ensures profiles { IfOk result (λ s. (s.1 ≡ profiles_of s.0) × (s.1 ≤ 256)) }
{
    let first = names(alloc, tokens)?;
    let second = names(alloc, tokens)?;
    close(tokens)?;
    let profiles = first.len() * second.len();
    let mut names = List::new(alloc);
    put(&mut names, first)?;
    put(&mut names, second)?;
    Ok((Strategies::Names(names), profiles))
}

/// Counts or names, by what follows the open brace, and how many profiles there are.
#[tactic(auto, unfolding(crate::specs::Grammar::strategies_at))]
fn strategies(alloc: Global, tokens: &mut Lexer<'_>) -> Result<(Strategies, u32), NfgFault>
    ensures value { Reads (λ s. s.0) result tokens.new (strategies_at tokens.old) }
    ensures profiles { IfOk result (λ s. (s.1 ≡ profiles_of s.0) × (s.1 ≤ 256)) }
{
    open(tokens)?;
    let token = tokens.peek();
    match token.kind {
        LexemeKind::Word(_) => counts(alloc, tokens),
        LexemeKind::Open => both_names(alloc, tokens),
        _ => Err(NfgFault::Bad { at: token.at }),
    }
}

/// A comment where one stands.
#[tactic(auto, unfolding(crate::specs::Grammar::comment_at))]
fn comment(alloc: Global, tokens: &mut Lexer<'_>) -> Result<Option<Text>, NfgFault>
    ensures { Reads (λ t. t) result tokens.new (Ok (comment_at tokens.old)) }
{
    match tokens.peek().kind {
        LexemeKind::Quoted(raw) => {
            let comment = text(alloc, raw)?;
            tokens.next_token();
            Ok(Some(comment))
        }
        _ => Ok(None),
    }
}

/// So many numbers.
pub fn numbers(alloc: Global, tokens: &mut Lexer<'_>, count: u32) -> Result<List<Frac>, NfgFault>
    ensures { Reads (λ ps. ps) result tokens.new (times_at number_at count tokens.old) }
{
    let mut numbers = List::new(alloc);
    for _ in 0..count {
        put(&mut numbers, number(tokens)?)?;
    }
    Ok(numbers)
}

/// The payoffs, by outcomes or one by one.
#[tactic(auto, unfolding(crate::specs::Grammar::body_at))]
fn body(alloc: Global, tokens: &mut Lexer<'_>, profiles: u32) -> Result<List<Frac>, NfgFault>
    requires { profiles ≤ 256 }
    ensures { Reads (λ ps. ps) result tokens.new (body_at profiles tokens.old) }
{
    match tokens.peek().kind {
        LexemeKind::Open => chosen(alloc, tokens, profiles),
        _ => numbers(alloc, tokens, 2 * profiles),
    }
}
