//! The common denominator of a correspondence that was read, and all parts in its units.

ghost use Rattle.std.specs.Prelude.{◌≡◌, ℕ, ◌≤◌, ◌<◌, ◌-◌, ◌*◌, ◌/◌, min, ◌^◌, ◌++◌, ◌∷◌, [], length, take, pos, ◌*ℤ◌, ◌<ℤ◌, ◌≤ℤ◌, unsigned_abs, slice_index_or, IfErr, IfOk, OnOk};
ghost use Rattle.game_model.specs.Game.{states};
ghost use Rattle.selfgen_check.specs.Measures.{common_multiple, with_part, with_entry, with_state, scaled, scaled_entry, scaled_state, with_payoff, with_payoffs};
ghost use Rattle.selfgen_check.specs.Shapes.{IsWritten, AreWritten, AllWritten};
ghost use Rattle.selfgen_check.specs.TextFaults.{Gives, Shows, folded, each};
ghost use Rattle.selfgen_check.specs.declared.text_fault.CorrTextFault.TheVariants.{NoMemory};

use crate::entry::Entry;
use crate::lottery::Lottery;
use crate::text_fault::CorrTextFault;
use crate::written::Written;
use game_model::{Game, List};
use nfg_text::What;
use pay_frac::{Frac, capped_multiple, capped_product};
use std::alloc::{AllocError, Global};

/// The largest common denominator.
const MOST_COMMON: i128 = 1 << 44;

/// The largest part or payoff in units of the common denominator.
const MOST_POINT: i128 = 1 << 30;

/// The least common multiple of a denominator and those of all parts of all points.
pub(crate) fn common_of(
    denominator: u64,
    states: &List<List<Written>>,
) -> Result<u64, CorrTextFault>
    requires positive { 0 < denominator }
    requires small { denominator ≤ 2 ^ 44 }
    ensures common { Gives result (folded with_state denominator states.now) }
    ensures positive { IfOk result (λ m. 0 < m) }
    ensures small { IfOk result (λ m. m ≤ 2 ^ 44) }
{
    let mut common = denominator;
    for s in 0..states.len() {
        common = with_state(common, states.get(s))?;
    }
    Ok(common)
}

/// With the parts of a state's entries.
fn with_state(common: u64, entries: &List<Written>) -> Result<u64, CorrTextFault>
    requires positive { 0 < common }
    requires small { common ≤ 2 ^ 44 }
    ensures common { Gives result (with_state common entries.now) }
    ensures positive { IfOk result (λ m. 0 < m) }
    ensures small { IfOk result (λ m. m ≤ 2 ^ 44) }
{
    let mut multiple = common;
    for k in 0..entries.len() {
        multiple = with_entry(multiple, entries.get(k))?;
    }
    Ok(multiple)
}

/// With the parts of an entry's point.
fn with_entry(common: u64, entry: &Written) -> Result<u64, CorrTextFault>
    requires positive { 0 < common }
    requires small { common ≤ 2 ^ 44 }
    ensures common { Gives result (with_entry common entry.now) }
    ensures positive { IfOk result (λ m. 0 < m) }
    ensures small { IfOk result (λ m. m ≤ 2 ^ 44) }
{
    let mut multiple = common;
    for i in 0..entry.point.len() {
        multiple = with_part(multiple, *entry.point.get(i))?;
    }
    Ok(multiple)
}

/// With one part.
fn with_part(common: u64, part: Frac) -> Result<u64, CorrTextFault>
    requires positive { 0 < common }
    ensures common { Gives result (with_part common part) }
    ensures positive { IfOk result (λ m. 0 < m) }
    ensures small { IfOk result (λ m. m ≤ 2 ^ 44) }
{
    let multiple = multiple_of(common, part);
    if multiple > MOST_COMMON {
        return Err(CorrTextFault::Wide {
            what: What::Common,
            number: multiple,
        });
    }
    Ok(multiple as u64)
}

/// The least common multiple with a part's denominator, or 2^127 - 1 where it is larger.
fn multiple_of(common: u64, part: Frac) -> i128
    requires { 0 < common }
    ensures value { result ≡ pos (min (common_multiple common (unsigned_abs part.den)) (2 ^ 127 - 1)) }
    ensures positive { pos 0 <ℤ result }
{
    capped_multiple(i128::from(common), part.den())
}

/// All entries, with their points in units of one over the common denominator.
pub(crate) fn entries_of(
    alloc: Global,
    game: &Game,
    common: u64,
    written: &List<List<Written>>,
) -> Result<List<List<Entry>>, CorrTextFault>
    requires { AllWritten game.now.players (states game.now) written.now }
    ensures { Gives result (each (scaled_state common) written.now) }
{
    let mut entries = List::new(alloc);
    for s in 0..written.len() {
        put(&mut entries, state_of(alloc, game, common, written.get(s))?)?;
    }
    Ok(entries)
}

/// The entries of a state.
fn state_of(
    alloc: Global,
    game: &Game,
    common: u64,
    written: &List<Written>,
) -> Result<List<Entry>, CorrTextFault>
    requires { AreWritten game.now.players written.now }
    ensures { Gives result (scaled_state common written.now) }
{
    let mut entries = List::new(alloc);
    for k in 0..written.len() {
        put(&mut entries, entry_of(alloc, game, common, written.get(k))?)?;
    }
    Ok(entries)
}

/// An entry.
fn entry_of(
    alloc: Global,
    game: &Game,
    common: u64,
    written: &Written,
) -> Result<Entry, CorrTextFault>
    requires { IsWritten game.now.players written.now }
    ensures { Gives result (scaled_entry common written.now) }
{
    let _players = game.players();
    let point = point_of(common, &written.point)?;
    let profile = copied(alloc, &written.profile)?;
    let punish = copied(alloc, &written.punish)?;
    let lottery = same_lottery(&written.lottery);
    Ok(Entry::new(point, profile, lottery, punish))
}

/// The parts of a point.
fn point_of(common: u64, parts: &List<Frac>) -> Result<[i64; 3], CorrTextFault>
    requires { length parts.now ≤ 3 }
    ensures { Shows (λ p. take (length parts.now) p) result (each (scaled common) parts.now) }
{
    let mut point = [0; 3];
    for i in 0..parts.len() {
        point[i as usize] = scaled(common, *parts.get(i))?;
    }
    Ok(point)
}

/// A part of a point.
fn scaled(common: u64, part: Frac) -> Result<i64, CorrTextFault>
    ensures { Gives result (scaled common part) }
{
    let size = size_of(common, part);
    if size > MOST_POINT {
        return Err(CorrTextFault::Wide {
            what: What::Point,
            number: size,
        });
    }
    Ok(with_sign(part, size))
}

/// The absolute value of a part in units of one over the common denominator, or 2^127 - 1 where it is larger.
fn size_of(common: u64, part: Frac) -> i128
    ensures value { result ≡ pos (min (unsigned_abs part.num * (common / unsigned_abs part.den)) (2 ^ 127 - 1)) }
    ensures not_negative { pos 0 ≤ℤ result }
{
    let unit = units_of(common, part.den());
    capped_product(part.num().unsigned_abs() as i128, i128::from(unit))
}

/// How many units of one over the common denominator there are in one over another.
#[tactic(auto, using(crate::proofs::Capped::quotient_small))]
fn units_of(common: u64, den: i128) -> u64
    requires { pos 0 <ℤ den }
    ensures { result ≡ common / unsigned_abs den }
{
    (u128::from(common) / den.unsigned_abs()) as u64
}

/// A number of this size, with the sign of a part.
#[tactic(auto, using(crate::proofs::Capped::signed_up, crate::proofs::Capped::signed_down))]
fn with_sign(part: Frac, size: i128) -> i64
    requires not_negative { pos 0 ≤ℤ size }
    requires small { size ≤ℤ pos (2 ^ 30) }
    ensures { (k : ℕ) → size ≡ pos (unsigned_abs part.num * k) → result ≡ part.num *ℤ pos k }
{
    let size = size as i64;
    if part.num() < 0 {
        return -size;
    }
    size
}

/// The same numbers.
fn copied(alloc: Global, numbers: &List<u32>) -> Result<List<u32>, AllocError>
    ensures { IfOk result (λ ns. ns ≡ numbers.now) }
{
    let mut copy = List::new(alloc);
    for i in 0..numbers.len() {
        token_text::put(&mut copy, *numbers.get(i))?;
    }
    Ok(copy)
}

/// The same outcomes.
fn same_lottery(lottery: &Lottery) -> Lottery
    ensures { result ≡ lottery.now }
{
    let mut copy = Lottery::new();
    for i in 0..lottery.len() {
        copy.push(lottery.entry(i), lottery.weight(i));
    }
    copy
}

/// Whether no payoff is too large, in the order of state, profile and player.
pub(crate) fn measure_payoffs(game: &Game, scale: u64) -> Result<(), CorrTextFault>
    ensures { Shows (λ x. scale) result (folded with_payoffs scale game.now.payoffs) }
{
    let _players = game.players();
    for s in 0..game.states() {
        payoffs_in(game, scale, s)?;
    }
    Ok(())
}

/// The same of the payoffs in a state.
fn payoffs_in(game: &Game, scale: u64, s: u32) -> Result<(), CorrTextFault>
    requires { s < states game.now }
    ensures { Shows (λ x. scale) result (with_payoffs scale (slice_index_or game.now.payoffs s [])) }
{
    let players = u64::from(game.players());
    for k in 0..u64::from(game.profiles(s)) * players {
        let payoff = game.payoff(s, (k / players) as u32, (k % players) as u32);
        payoff_fits(payoff, scale)?;
    }
    Ok(())
}

/// The same of one payoff.
fn payoff_fits(payoff: i64, scale: u64) -> Result<(), CorrTextFault>
    ensures { Shows (λ x. scale) result (with_payoff scale payoff) }
{
    let size = capped_product(i128::from(payoff.unsigned_abs()), i128::from(scale));
    if size > MOST_POINT {
        return Err(CorrTextFault::Wide {
            what: What::Point,
            number: size,
        });
    }
    Ok(())
}

/// Adds an item at the end of the list.
fn put<T: Drop>(list: &mut List<T>, item: T) -> Result<(), CorrTextFault>
    ensures kept { OnOk result (list.new ≡ list.old ++ item ∷ []) }
    ensures memory { IfErr result (λ e. e ≡ NoMemory) }
{
    token_text::put(list, item)?;
    Ok(())
}
