//! Outcomes of a game, and profiles by their numbers.

ghost use Rattle.std.specs.Prelude.{◌≡◌, ◌+◌, ◌<◌, ◌≤◌, ◌∷◌, ◌++◌, [], ℕ, length, IfOk};
ghost use Rattle.nfg_text.specs.Wanted.{Reads, Passes};
ghost use Rattle.nfg_text.specs.Grammar.{outcome_at, outcome_or_close_at, outcomes_at, outcome_of, choice_at, choices_at, chosen_at};

use crate::fault::NfgFault;
use crate::wants::{close, number, open, put, quoted, whole};
use crate::what::What;
use game_model::List;
use pay_frac::Frac;
use std::alloc::Global;
use token_text::{LexemeKind, Lexer};

/// The payoffs of both players.
#[derive(Clone, Copy, Drop)]
pub struct Outcome {
    pub first: Frac,
    pub second: Frac,
}

/// A name and a number for each player.
#[tactic(auto, unfolding(crate::specs::Grammar::outcome_at))]
fn next_outcome(tokens: &mut Lexer<'_>) -> Result<Outcome, NfgFault>
    ensures { Reads (λ o. o) result tokens.new (outcome_at tokens.old) }
{
    open(tokens)?;
    quoted(tokens)?;
    let first = number(tokens)?;
    let second = number(tokens)?;
    close(tokens)?;
    Ok(Outcome { first, second })
}

/// An outcome, or the close brace.
#[tactic(auto, unfolding(crate::specs::Grammar::outcome_or_close_at))]
fn outcome_or_close(tokens: &mut Lexer<'_>) -> Result<Option<Outcome>, NfgFault>
    ensures { Reads (λ o. o) result tokens.new (outcome_or_close_at tokens.old) }
{
    let token = tokens.peek();
    match token.kind {
        LexemeKind::Close => {
            tokens.next_token();
            Ok(None)
        }
        LexemeKind::Open => Ok(Some(next_outcome(tokens)?)),
        _ => Err(NfgFault::Bad { at: token.at }),
    }
}

/// Outcomes up to the close brace.
fn outcomes(alloc: Global, tokens: &mut Lexer<'_>) -> Result<List<Outcome>, NfgFault>
    ensures { Reads (λ os. os) result tokens.new (outcomes_at tokens.old) }
{
    let mut outcomes = List::new(alloc);
    while let Some(outcome) = outcome_or_close(tokens)? {
        put(&mut outcomes, outcome)?;
    }
    Ok(outcomes)
}

/// Outcome `k`, counted from 1 on; outcome 0 gives each player 0.
fn outcome_by_number(outcomes: &List<Outcome>, k: u32) -> Outcome
    requires { k ≤ length outcomes.now }
    ensures { result ≡ outcome_of outcomes.now k }
{
    if k == 0 {
        let zero = Frac::of(0, 1);
        Outcome {
            first: zero,
            second: zero,
        }
    } else {
        *outcomes.get(k - 1)
    }
}

/// The outcome of a profile.
#[tactic(auto, unfolding(crate::specs::Grammar::choice_at))]
fn choice(outcomes: &List<Outcome>, tokens: &mut Lexer<'_>) -> Result<Outcome, NfgFault>
    ensures { Reads (λ o. o) result tokens.new (choice_at outcomes.now tokens.old) }
{
    let token = tokens.next_token();
    let Some((number, digits)) = whole(&token) else {
        return Err(NfgFault::Bad { at: token.at });
    };
    if number > u128::from(outcomes.len()) {
        return Err(NfgFault::Bad { at: token.at });
    }
    if digits > 36 {
        return Err(NfgFault::Limit {
            what: What::Digits,
            number: i128::from(digits),
            at: token.at,
        });
    }
    Ok(outcome_by_number(outcomes, number as u32))
}

/// The payoffs of so many profiles.
fn choices(
    alloc: Global,
    outcomes: &List<Outcome>,
    tokens: &mut Lexer<'_>,
    profiles: u32,
) -> Result<List<Frac>, NfgFault>
    ensures { Reads (λ ps. ps) result tokens.new (choices_at outcomes.now profiles tokens.old) }
{
    let mut payoffs = List::new(alloc);
    for _ in 0..profiles {
        let outcome = choice(outcomes, tokens)?;
        put(&mut payoffs, outcome.first)?;
        put(&mut payoffs, outcome.second)?;
    }
    Ok(payoffs)
}

/// Outcomes in braces, and a number for each profile.
#[tactic(auto, unfolding(crate::specs::Grammar::chosen_at))]
pub(crate) fn chosen(
    alloc: Global,
    tokens: &mut Lexer<'_>,
    profiles: u32,
) -> Result<List<Frac>, NfgFault>
    ensures { Reads (λ ps. ps) result tokens.new (chosen_at profiles tokens.old) }
{
    open(tokens)?;
    let outcomes = outcomes(alloc, tokens)?;
    choices(alloc, &outcomes, tokens, profiles)
}
