ghost use Rattle.std.specs.Prelude.{◌≡◌, ◌≤◌, ◌<◌, ◌^◌, ◌++◌, length};
ghost use Rattle.std.specs.Int.{IsGcd};
ghost use Rattle.hull_weights.specs.Cone.{IsOrdered};
ghost use Rattle.hull_weights.specs.LowestTerms.{IsLowestTerms, item_of};

use crate::HullWeights;
use crate::cone::Balance;

fn gcd(mut a: u128, mut b: u128) -> u128
    ensures { IsGcd a b result }
{
    while b != 0 {
        let rest = a % b;
        a = b;
        b = rest;
    }
    a
}

/// Adds an index with its weight, if that isn't 0.
fn push_if_positive(items: &mut HullWeights, index: u32, weight: u128)
    requires room { length items.old < 3 }
    requires small { weight ≤ 2 ^ 83 }
    ensures { items.new ≡ items.old ++ item_of index weight }
{
    if weight > 0 {
        items.push((index, weight as i128));
    }
}

/// The weights in lowest terms, without those that are 0. The indices are in order.
fn lowest_terms(low: (u32, u128), high: (u32, u128), last: (u32, u128)) -> HullWeights
    requires last_counts { 0 < last.1 }
    requires low_before { 0 < low.1 → low.0 < last.0 }
    requires high_before { 0 < high.1 → high.0 < last.0 }
    requires low_first { 0 < low.1 → 0 < high.1 → low.0 < high.0 }
    requires low_small { low.1 ≤ 2 ^ 83 }
    requires high_small { high.1 ≤ 2 ^ 83 }
    requires last_small { last.1 ≤ 2 ^ 83 }
    ensures { IsLowestTerms low high last result }
{
    let divisor = gcd(gcd(low.1, high.1), last.1);
    let mut items = HullWeights::new();
    push_if_positive(&mut items, low.0, low.1 / divisor);
    push_if_positive(&mut items, high.0, high.1 / divisor);
    push_if_positive(&mut items, last.0, last.1 / divisor);
    items
}

/// The indices of the arrows in ascending order, with the weights in lowest terms.
pub fn weights_of(balance: Balance) -> HullWeights
    requires { IsOrdered balance }
    ensures { IsLowestTerms (balance.first.index, balance.first_weight) (balance.second.index, balance.second_weight) (balance.last.index, balance.last_weight) result }
{
    let first = (balance.first.index, balance.first_weight);
    let second = (balance.second.index, balance.second_weight);
    let last = (balance.last.index, balance.last_weight);
    if first.0 < second.0 {
        lowest_terms(first, second, last)
    } else {
        lowest_terms(second, first, last)
    }
}
