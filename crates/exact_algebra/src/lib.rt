//! Lemmas and definitions over signed whole numbers, on which all exact arithmetic of this project stands.
#![tactic(auto)]

ghost use Rattle.exact_algebra.specs.Poly.{AtMostParts, BelowParts, SameParts, value};
ghost use Rattle.exact_algebra.specs.Average.{Average};
ghost use Rattle.exact_algebra.specs.Extremes.{IsGreatest};
ghost use Rattle.exact_algebra.specs.Quotients.{IsCeiling};
ghost use Rattle.exact_algebra.specs.Rounding.{Rounding};
ghost use Rattle.exact_algebra.specs.Values.{Values};
ghost use Rattle.exact_algebra.specs.Sides.{Sides};
ghost use Rattle.exact_algebra.specs.Sums.{total_by};
ghost use Rattle.exact_algebra.specs.Normal.{is_same};
ghost use Rattle.exact_algebra.specs.Cramer.{Coefficients, determinant, sum_at, with_first};
ghost use Rattle.std.specs.Prelude.{ℤ, ◌*ℤ◌, ◌<ℤ◌, ◌≡◌, ◌≤ℤ◌, ◌-ℤ◌, ◌∷◌, All, Any, IsTrue, pos};

/// Two polynomials are equal, at most one another, or below one another, where their parts are.
pub fn compare_by_parts()
    ghost sides: { Sides }
    ensures same { SameParts sides.values sides.left sides.right → value sides.values sides.left ≡ value sides.values sides.right }
    ensures at_most { AtMostParts sides.values sides.left sides.right → value sides.values sides.left ≤ℤ value sides.values sides.right }
    ensures below { BelowParts sides.values sides.left sides.right → value sides.values sides.left <ℤ value sides.values sides.right }
{}

/// Two polynomials that are the same, multiplied out, have the same value.
pub fn compare_multiplied_out()
    ghost sides: { Sides }
    ensures { IsTrue (is_same sides.left sides.right) → value sides.values sides.left ≡ value sides.values sides.right }
{}

/// Cramer's rule for the first of three unknowns.
pub fn cramer_three()
    ghost at: { Coefficients × Coefficients × Coefficients × ℤ × ℤ × ℤ }
    ensures { determinant at.0 at.1 at.2 *ℤ at.3 ≡ determinant (with_first (sum_at at.0 at.3 at.4 at.5) at.0) (with_first (sum_at at.1 at.3 at.4 at.5) at.1) (with_first (sum_at at.2 at.3 at.4 at.5) at.2) }
{}

/// A product by a factor that is not negative keeps an inequality.
pub fn scale_inequality(factor: i128, low: i128, high: i128)
    ensures at_most { pos 0 ≤ℤ factor → low ≤ℤ high → (factor *ℤ low) ≤ℤ (factor *ℤ high) }
    ensures cancels { pos 0 <ℤ factor → (factor *ℤ low) ≤ℤ (factor *ℤ high) → low ≤ℤ high }
    ensures below { pos 0 <ℤ factor → low <ℤ high → (factor *ℤ low) <ℤ (factor *ℤ high) }
{}

/// Where no weight is negative and each value keeps a bound, so does the weighted average, cleared by the sum of the weights.
pub fn bound_average()
    ghost average: { Average }
    ensures at_most { All (λ x. pos 0 ≤ℤ x.0) average.items → All (λ x. x.1 ≤ℤ average.bound) average.items → total_by (λ x. x.0 *ℤ x.1) average.items ≤ℤ (total_by (λ x. x.0) average.items *ℤ average.bound) }
    ensures at_least { All (λ x. pos 0 ≤ℤ x.0) average.items → All (λ x. average.bound ≤ℤ x.1) average.items → (total_by (λ x. x.0) average.items *ℤ average.bound) ≤ℤ total_by (λ x. x.0 *ℤ x.1) average.items }
{}

/// The least whole number that is not below a fraction is at most each other such number, and so there is one alone.
pub fn round_up()
    ghost at: { Rounding }
    ensures at_most { pos 0 <ℤ at.den → IsCeiling at.num at.den at.rounded → at.num ≤ℤ (at.other *ℤ at.den) → at.rounded ≤ℤ at.other }
    ensures alone { pos 0 <ℤ at.den → IsCeiling at.num at.den at.rounded → IsCeiling at.num at.den at.other → at.rounded ≡ at.other }
{}

/// A list that isn't empty has a greatest value, and in each unit a least whole bound.
pub fn bound_values()
    ghost at: { Values }
    ensures greatest { (m : ℤ) × IsGreatest (λ x. x) (at.first ∷ at.rest) m }
    ensures least_bound { pos 0 <ℤ at.unit → (q : ℤ) × All (λ x. x ≤ℤ (q *ℤ at.unit)) (at.first ∷ at.rest) × Any (λ x. ((q -ℤ pos 1) *ℤ at.unit) <ℤ x) (at.first ∷ at.rest) }
{}
