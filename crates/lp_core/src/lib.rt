//! Linear programs of one to three variables, solved exactly, with certificates.
#![tactic(auto)]

ghost use Rattle.lp_cert.specs.Program.{IsProgram, Meets, entry};
ghost use Rattle.lp_cert.specs.Program.{Point as FractionVector};
ghost use Rattle.lp_core.specs.Answer.{IfBest, IfInfeasible, IsBestPoint, IsInfeasible, IsProof};
ghost use Rattle.lp_core.specs.Kept.{is_kept};
ghost use Rattle.lp_core.specs.Lines.{all_seen};
ghost use Rattle.std.specs.List.{filter};
ghost use Rattle.lp_core.specs.Planar.{whole_of};
ghost use Rattle.lp_core.specs.Search.{IsOutcome};
ghost use Rattle.std.specs.Int.RustNames.{unsigned_abs};
ghost use Rattle.std.specs.Prelude.{ℕ, ◌↔◌, ◌≡◌, ◌≤◌, All, pos};

mod corner;
mod edge;
mod elimination;
mod kept;
mod limits;
mod pivot;
mod planar;
mod plane;
mod reduced;
mod search;
#[cfg(test)]
mod tests;
mod view;
mod wide;

use lp_cert::{Dual, Farkas, Multipliers, Rows};
use search::Outcome;

/// A vector of fractions `num[i] / den`, with a positive denominator.
#[derive(Clone, Copy, Debug, PartialEq, Eq)]
pub struct Point {
    pub num: [i128; 3],
    pub den: i128,
}

/// What a program comes to.
#[derive(Drop)]
pub enum LpAnswer {
    /// The point meets all rows, the objective times its numerators is `value`, and the dual proves that no point does better.
    Best {
        point: Point,
        value: i128,
        dual: Dual,
    },
    /// No point meets the rows.
    Infeasible {
        farkas: Farkas,
    },
}

/// What a program comes to: by the walk in two variables, or else by the search in all of them.
fn outcome(rows: &Rows, objective: [i32; 3]) -> Outcome
    requires objective { All (λ x. unsigned_abs x ≤ 4096) objective }
    requires zeros { (k : ℕ) → rows.now.dimension ≤ k → entry objective k ≡ pos 0 }
    ensures outcome { IsOutcome all_seen (whole_of rows.now) objective result }
    ensures program { IsProgram rows.now }
{
    if rows.dimension() == 2 {
        if let Some(outcome) = planar::walk(rows, objective) {
            return outcome;
        }
    }
    search::searched(rows, objective)
}

/// The multipliers that add something, as a certificate. It is kept apart from the programs that have an optimum.
#[inline(never)]
fn certificate(items: Multipliers) -> Farkas
    ensures { result.items ≡ filter is_kept items }
{
    Farkas {
        items: kept::without_zeros(&items),
    }
}

/// The greatest value of the objective over the points that meet the rows, or a proof that there is none.
///
/// Entries of the objective are at most 4096 in absolute value, and 0 past the dimension of the rows. The value and the parts
/// of the point are in units of `1 / point.den`, which is at most 2^20, as each multiplier is; no multiplier is 0. Parts of the
/// point are at most 2^88 in absolute value, and the value is at most 2^102.
///
/// Rows are taken one by one. One that the optimum so far breaks becomes an equation, which eliminates a variable, and the
/// rows before it are solved in one variable less (Seidel 1991). The multipliers come back with the optimum, so each answer
/// is certified (Gale, Kuhn and Tucker 1951; Farkas 1902). No memory is taken.
pub fn solve(rows: &Rows, objective: [i32; 3]) -> LpAnswer
    requires objective { All (λ x. unsigned_abs x ≤ 4096) objective }
    requires zeros { (k : ℕ) → rows.now.dimension ≤ k → entry objective k ≡ pos 0 }
    ensures best { IfBest result (IsBestPoint rows.now objective) }
    ensures farkas { IfInfeasible result (IsProof rows.now) }
    ensures infeasible { IsInfeasible result ↔ ((y : FractionVector) → Meets rows.now y → ⊥) }
{
    match outcome(rows, objective) {
        Outcome::Best(best) => {
            let num = best.num;
            let value = reduced::product(reduced::widened(objective), num);
            LpAnswer::Best {
                point: Point { num, den: best.den },
                value,
                dual: Dual {
                    items: kept::without_zeros(&best.items),
                },
            }
        }
        Outcome::Infeasible(items) => LpAnswer::Infeasible {
            farkas: certificate(items),
        },
    }
}
