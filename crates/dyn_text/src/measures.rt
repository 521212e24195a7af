//! The least common denominator of payoffs, and payoffs over it.

ghost use Rattle.std.specs.Prelude.{◌≡◌, ℕ, ◌/◌, ◌*◌, ◌^◌, ◌<◌, ◌≤◌, ◌⊎◌, List, [], ◌∷◌, ◌++◌, map, ℤ, pos, ◌*ℤ◌, IfOk, IfErr, OnOk};
ghost use Rattle.std.specs.List.{All};
ghost use Rattle.std.specs.Int.RustNames.{unsigned_abs};
ghost use Rattle.pay_frac.specs.Ratio.{IsLowest};
ghost use Rattle.pay_frac.specs.Whole.{IsLcm};
ghost use Rattle.nfg_text.specs.declared.what.What.TheVariants.{Denominator, Discount, Payoff};
ghost use Rattle.nfg_text.specs.ReadGame.{IsReadGame, IsShortNumber};
ghost use Rattle.game_model.specs.Game.{IsLeastCommonMultiple};
ghost use Rattle.dyn_text.specs.declared.fault.BuildFault.TheVariants.{NoMemory, Wide};
ghost use Rattle.dyn_text.specs.Assembled.{denominators_in, denominators_of, payoffs_in, units, IsDiscount};
ghost use Rattle.dyn_text.specs.BuildFaults.{shown, IsSmallPayoff, IsUnit, IsWideDenominator, IsWidePayoff};

use crate::fault::BuildFault;
use nfg_text::{Nfg, What};
use pay_frac::{Frac, capped_multiple, capped_product};
use std::alloc::{AllocError, Global};

/// The most that the denominator of a discount may be.
const MOST_DISCOUNT: i128 = 1024;

/// The most that a common denominator may be.
const MOST_DENOMINATOR: i128 = 1 << 40;

/// The most that a payoff over the common denominator may be, in absolute value.
const MOST_PAYOFF: i128 = 1 << 26;

/// The numerator and the denominator of a discount.
pub(crate) fn discount_parts(discount: &Frac) -> Result<(u32, u32), BuildFault>
    requires { IsDiscount discount.now }
    ensures parts { IfOk result (λ d. (d.0 ≡ unsigned_abs discount.now.num) × (d.1 ≡ unsigned_abs discount.now.den) × (unsigned_abs discount.now.den ≤ 1024)) }
    ensures fault { IfErr result (λ e. (1024 < unsigned_abs discount.now.den) × (e ≡ Wide Discount discount.now.den)) }
{
    let q = discount.den();
    if q > MOST_DISCOUNT {
        return Err(BuildFault::Wide {
            what: What::Discount,
            number: q,
        });
    }
    Ok((discount.num() as u32, q as u32))
}

/// The least common multiple of `unit` and the payoff's denominator, capped.
fn multiple_of(unit: u64, payoff: &Frac) -> i128
    requires positive { 0 < unit }
    requires lowest { IsLowest payoff.now }
    ensures { (m : ℕ) × IsLcm unit (unsigned_abs payoff.now.den) m × (result ≡ shown m) }
{
    capped_multiple(i128::from(unit), payoff.den())
}

/// The least common multiple of `unit` and the payoff's denominator, where it is within the limit.
fn with_denominator(unit: u64, payoff: &Frac) -> Result<u64, BuildFault>
    requires positive { 0 < unit }
    requires lowest { IsLowest payoff.now }
    ensures multiple { IfOk result (λ m. IsLcm unit (unsigned_abs payoff.now.den) m × (m ≤ 2 ^ 40)) }
    ensures fault { IfErr result (λ e. (m : ℕ) × IsLcm unit (unsigned_abs payoff.now.den) m × (2 ^ 40 < m) × (e ≡ Wide Denominator (shown m))) }
{
    let multiple = multiple_of(unit, payoff);
    if multiple > MOST_DENOMINATOR {
        return Err(BuildFault::Wide {
            what: What::Denominator,
            number: multiple,
        });
    }
    Ok(multiple as u64)
}

/// The least common multiple of `unit`, which is that of the denominators before, and the denominators of a game.
fn with_denominators(unit: u64, game: &Nfg) -> Result<u64, BuildFault>
    requires positive { 0 < unit }
    requires small { unit ≤ 2 ^ 40 }
    requires read { IsReadGame game.now }
    ensures multiple { IfOk result (λ m. ((before : List ℕ) → IsLeastCommonMultiple before unit → IsLeastCommonMultiple (before ++ denominators_of game.now) m) × (m ≤ 2 ^ 40)) }
    ensures fault { IfErr result (λ e. (number : ℤ) × (e ≡ Wide Denominator number) × ((before : List ℕ) → IsLeastCommonMultiple before unit → IsWideDenominator (before ++ denominators_of game.now) number)) }
{
    let mut multiple = unit;
    for k in 0..game.payoffs.len() {
        multiple = with_denominator(multiple, game.payoffs.get(k))?;
    }
    Ok(multiple)
}

/// The least common denominator of all payoffs.
pub(crate) fn common_denominator(games: &[Nfg]) -> Result<u64, BuildFault>
    requires { All IsReadGame games.now }
    ensures unit { IfOk result (IsUnit games.now) }
    ensures fault { IfErr result (λ e. (number : ℤ) × (e ≡ Wide Denominator number) × IsWideDenominator (denominators_in games.now) number) }
{
    let mut unit = 1;
    for game in games {
        unit = with_denominators(unit, game)?;
    }
    Ok(unit)
}

/// The absolute value.
fn size_of(number: i128) -> i128
    requires { unsigned_abs number < 2 ^ 127 }
    ensures { result ≡ pos (unsigned_abs number) }
{
    if number < 0 { -number } else { number }
}

/// How many units of `1/unit` the fraction `1/d` has, where `d` is the payoff's denominator.
fn parts(unit: u64, payoff: &Frac) -> i128
    requires { IsLowest payoff.now }
    ensures { result ≡ pos (unit / unsigned_abs payoff.now.den) }
{
    i128::from(unit) / payoff.den()
}

/// The payoff over `1/unit`.
fn in_units(unit: u64, payoff: &Frac) -> Result<i64, BuildFault>
    requires { IsLowest payoff.now }
    ensures value { IfOk result (λ u. (u ≡ units unit payoff.now) × IsSmallPayoff unit payoff.now) }
    ensures fault { IfErr result (λ e. (2 ^ 26 < unsigned_abs (units unit payoff.now)) × (e ≡ Wide Payoff (shown (unsigned_abs (units unit payoff.now))))) }
{
    let parts = parts(unit, payoff);
    let size = capped_product(size_of(payoff.num()), parts);
    if size > MOST_PAYOFF {
        return Err(BuildFault::Wide {
            what: What::Payoff,
            number: size,
        });
    }
    Ok((payoff.num() * parts) as i64)
}

/// Adds an item at the end.
fn add<T: Drop>(list: &mut Vec<T>, item: T) -> Result<(), AllocError>
    ensures { OnOk result (list.new.items ≡ list.old.items ++ item ∷ []) }
{
    list.push(item)?;
    Ok(())
}

/// The payoffs of a game over `1/unit`.
fn game_payoffs(alloc: Global, unit: u64, game: &Nfg) -> Result<Vec<i64>, BuildFault>
    requires { IsReadGame game.now }
    ensures values { IfOk result (λ v. (v.items ≡ map (units unit) game.now.payoffs) × All (IsSmallPayoff unit) game.now.payoffs) }
    ensures fault { IfErr result (λ e. (e ≡ NoMemory) ⊎ ((number : ℤ) × (e ≡ Wide Payoff number) × IsWidePayoff unit game.now.payoffs number)) }
{
    let mut payoffs = Vec::new(alloc);
    for k in 0..game.payoffs.len() {
        let payoff = in_units(unit, game.payoffs.get(k))?;
        add(&mut payoffs, payoff)?;
    }
    Ok(payoffs)
}

/// The payoffs of all states over `1/unit`.
pub(crate) fn all_payoffs(
    alloc: Global,
    unit: u64,
    games: &[Nfg],
) -> Result<Vec<Vec<i64>>, BuildFault>
    requires { All IsReadGame games.now }
    ensures values { IfOk result (λ v. (map (λ w. w.items) v.items ≡ map (λ n. map (units unit) n.payoffs) games.now) × All (IsSmallPayoff unit) (payoffs_in games.now)) }
    ensures fault { IfErr result (λ e. (e ≡ NoMemory) ⊎ ((number : ℤ) × (e ≡ Wide Payoff number) × IsWidePayoff unit (payoffs_in games.now) number)) }
{
    let mut payoffs = Vec::new(alloc);
    for game in games {
        let list = game_payoffs(alloc, unit, game)?;
        add(&mut payoffs, list)?;
    }
    Ok(payoffs)
}
