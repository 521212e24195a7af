//! The best corner of a box.

ghost use Rattle.lp_core.specs.Corner.{IsEnd, lower_side, upper_side};
ghost use Rattle.lp_core.specs.Lines.{is_seen};
ghost use Rattle.lp_core.specs.Search.{HasBox, IsOutcome, IsReduced};
ghost use Rattle.std.specs.Int.RustNames.{unsigned_abs};
ghost use Rattle.std.specs.Prelude.{[], ◌*◌, ◌+ℤ◌, ◌+◌, ◌<ℤ◌, ◌<◌, ◌^◌, ◌∷◌, ◌≡◌, ◌≤◌, MatchOption, length, pos};

use crate::reduced::Optimum;
use crate::search::Outcome;
use crate::view::View;
use lp_cert::Multipliers;

/// The best end of a variable's box, and the multiplier of its row.
#[derive(Clone, Copy)]
struct End {
    at: i128,
    row: u32,
    times: i128,
}

/// The end of a variable's box that is best for its coefficient in the objective, if the box isn't empty.
fn end_of(program: &View, k: u32, times: i128) -> Option<End>
    requires place { k < 3 }
    requires within { 2 * k + 1 < length program.now.lines }
    requires upper { unsigned_abs (upper_side program.now.lines k) ≤ 2 ^ 80 }
    requires lower { unsigned_abs (lower_side program.now.lines k) ≤ 2 ^ 80 }
    requires times { unsigned_abs times ≤ 2 ^ 21 }
    ensures { MatchOption result ((upper_side program.now.lines k +ℤ lower_side program.now.lines k) <ℤ pos 0) (IsEnd program.now.lines k times) }
{
    let upper = program.line(2 * k).h;
    let lower = program.line(2 * k + 1).h;
    if upper + lower < 0 {
        return None;
    }
    if times < 0 {
        return Some(End {
            at: -lower,
            row: 2 * k + 1,
            times: -times,
        });
    }
    Some(End {
        at: upper,
        row: 2 * k,
        times,
    })
}

/// The two rows of a box, each once.
fn empty_box(k: u32) -> Multipliers
    requires { k < 3 }
    ensures { result ≡ (2 * k, pos 1) ∷ (2 * k + 1, pos 1) ∷ [] }
{
    let mut items = Multipliers::new();
    items.push((2 * k, 1));
    items.push((2 * k + 1, 1));
    items
}

/// The best corner of the box of the variables that are live, with its dual.
pub fn corner(program: &View, objective: [i128; 3]) -> Outcome
    requires { IsReduced program.now objective }
    ensures { IsOutcome (is_seen program.now.live 0) program.now objective result }
{
    let live = program.live();
    let mut num = [0; 3];
    let mut items = Multipliers::new();
    for k in 0..3u32 {
        if live[k as usize] {
            let Some(end) = end_of(program, k, objective[k as usize]) else {
                return Outcome::Infeasible(empty_box(k));
            };
            num[k as usize] = end.at;
            items.push((end.row, end.times));
        }
    }
    Outcome::Best(Optimum { num, den: 1, items })
}
