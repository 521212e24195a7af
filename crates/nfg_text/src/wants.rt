//! What the grammars of several formats want of the next token.

ghost use Rattle.std.specs.Prelude.{◌≡◌, ◌≤◌, ◌^◌, ◌∷◌, ◌++◌, [], ℕ, min, MatchOption, IfOk, IfErr, OnOk, Some, None, length};
ghost use Rattle.nfg_text.specs.Wanted.{Reads, Passes, Gives, limited as told, open_at, close_at, end_at, quoted_at, exact_at, number_at, whole_in};
ghost use Rattle.nfg_text.specs.declared.fault.NfgFault.TheVariants.{NoMemory};
ghost use Rattle.token_text.specs.Tokens.{unescaped};
ghost use Rattle.token_text.specs.Lexer.{token_of};

use crate::fault::NfgFault;
use crate::what::What;
use game_model::List;
use pay_frac::{Frac, NumberFault, read_capped, read_number};
use std::alloc::Global;
use token_text::{Lexeme, LexemeKind, Lexer, Text};

/// The most digits of a number.
const MOST_DIGITS: u64 = 36;

/// An open brace.
#[tactic(auto, unfolding(crate::specs::Wanted::open_at))]
pub fn open(tokens: &mut Lexer<'_>) -> Result<(), NfgFault>
    ensures { Passes result tokens.new (open_at tokens.old) }
{
    let token = tokens.next_token();
    match token.kind {
        LexemeKind::Open => Ok(()),
        _ => Err(NfgFault::Bad { at: token.at }),
    }
}

/// A close brace.
#[tactic(auto, unfolding(crate::specs::Wanted::close_at))]
pub fn close(tokens: &mut Lexer<'_>) -> Result<(), NfgFault>
    ensures { Passes result tokens.new (close_at tokens.old) }
{
    let token = tokens.next_token();
    match token.kind {
        LexemeKind::Close => Ok(()),
        _ => Err(NfgFault::Bad { at: token.at }),
    }
}

/// The end of the text.
#[tactic(auto, unfolding(crate::specs::Wanted::end_at))]
pub fn end(tokens: &mut Lexer<'_>) -> Result<(), NfgFault>
    ensures { Passes result tokens.new (end_at tokens.old) }
{
    let token = tokens.next_token();
    match token.kind {
        LexemeKind::End => Ok(()),
        _ => Err(NfgFault::Bad { at: token.at }),
    }
}

/// A quoted text, raw.
#[tactic(auto, unfolding(crate::specs::Wanted::quoted_at))]
pub fn quoted<'a>(tokens: &mut Lexer<'a>) -> Result<&'a [u8], NfgFault>
    ensures { Reads (λ t. unescaped t.now) result tokens.new (quoted_at tokens.old) }
{
    let token = tokens.next_token();
    match token.kind {
        LexemeKind::Quoted(text) => Ok(text),
        _ => Err(NfgFault::Bad { at: token.at }),
    }
}

/// A quoted text, which is kept.
pub fn quoted_text(alloc: Global, tokens: &mut Lexer<'_>) -> Result<Text, NfgFault>
    ensures { Reads (λ t. t) result tokens.new (quoted_at tokens.old) }
{
    let raw = quoted(tokens)?;
    text(alloc, raw)
}

/// Exactly the word that is wanted.
#[tactic(auto, unfolding(crate::specs::Wanted::exact_at))]
pub fn exact(tokens: &mut Lexer<'_>, wanted: &[u8]) -> Result<(), NfgFault>
    ensures { Passes result tokens.new (exact_at wanted.now tokens.old) }
{
    let token = tokens.next_token();
    match token.kind {
        LexemeKind::Word(word) if word == wanted => Ok(()),
        _ => Err(NfgFault::Bad { at: token.at }),
    }
}

/// A number of at most 36 digits.
#[tactic(auto, unfolding(crate::specs::Wanted::number_at))]
pub fn number(tokens: &mut Lexer<'_>) -> Result<Frac, NfgFault>
    ensures { Reads (λ f. f) result tokens.new (number_at tokens.old) }
{
    let token = tokens.next_token();
    let LexemeKind::Word(word) = token.kind else {
        return Err(NfgFault::Bad { at: token.at });
    };
    match read_number(word) {
        Ok(number) => Ok(number),
        Err(NumberFault::NotNumber) => Err(NfgFault::Bad { at: token.at }),
        Err(NumberFault::Beyond { digits }) => Err(NfgFault::Limit {
            what: What::Digits,
            number: i128::from(digits),
            at: token.at,
        }),
    }
}

/// The whole number that a token is, or 10^36 where it is greater, and how many digits it has.
pub fn whole(token: &Lexeme<'_>) -> Option<(u128, u64)>
    ensures { MatchOption result (whole_in (token_of token.now).kind ≡ None) (λ w. (n : ℕ) × (whole_in (token_of token.now).kind ≡ Some (n, w.1)) × (w.0 ≡ min n (10 ^ 36)) × (w.1 ≤ 36 → w.0 ≡ n)) }
{
    let LexemeKind::Word(word) = token.kind else {
        return None;
    };
    let value = read_capped(word)?;
    Some((value, word.len() as u64))
}

/// The text between two quotes, without the backslashes before quotes.
pub(crate) fn text(alloc: Global, raw: &[u8]) -> Result<Text, NfgFault>
    ensures kept { IfOk result (λ t. t ≡ unescaped raw.now) }
    ensures memory { IfErr result (λ e. e ≡ NoMemory) }
{
    let text = token_text::text(alloc, raw)?;
    Ok(text)
}

/// Adds an item at the end of the list.
pub(crate) fn put<T: Drop>(list: &mut List<T>, item: T) -> Result<(), NfgFault>
    ensures kept { OnOk result (list.new ≡ list.old ++ item ∷ []) }
    ensures memory { IfErr result (λ e. e ≡ NoMemory) }
{
    token_text::put(list, item)?;
    Ok(())
}

/// A whole number that must pass no limit: a number with its digits as `whole` answers them.
pub fn limited(what: What, most: u128, at: u64, number: (u128, u64)) -> Result<u128, NfgFault>
    requires { number.0 ≤ 10 ^ 36 }
    ensures value { (n : ℕ) → (number.1 ≤ 36 → number.0 ≡ n) → Gives result (told what most at (n, number.1)) }
    ensures within { IfOk result (λ n. n ≤ most) }
{
    let (value, digits) = number;
    if digits > MOST_DIGITS {
        return Err(NfgFault::Limit {
            what: What::Digits,
            number: i128::from(digits),
            at,
        });
    }
    if value > most {
        return Err(NfgFault::Limit {
            what,
            number: value as i128,
            at,
        });
    }
    Ok(value)
}
