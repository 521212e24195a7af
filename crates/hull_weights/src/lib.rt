//! Whether a point of the plane is an average of others, answered with weights or with a line between.
#![tactic(auto)]

ghost use Rattle.std.specs.Prelude.{◌≡◌, ◌+◌, ◌^◌, ◌<◌, ◌↔◌, All, IsTrue, length};
ghost use Rattle.hull_weights.specs.Answer.{IfOutside, IfWeights, IsOutside};
ghost use Rattle.hull_weights.specs.Cone.{IsArrow, Spans};
ghost use Rattle.hull_weights.specs.Hull.{IsInHull, IsSmallNormal, IsSmallPoint, IsTriangle, Separates};

mod arrow;
mod cone;
mod fewer;
mod lowest_terms;

use arrow::Arrow;
use cone::{Balance, Cone, Step};
pub use fewer::{corners, is_in_hull};
use lists::Few;

/// Indices of points with their weights, at most three.
pub type HullWeights = Few<(u32, i128), 3>;

/// Where a target lies.
#[derive(Debug, Drop)]
pub enum HullAnswer {
    /// In the hull: the target is the average of the points of these indices with these weights.
    Weights { items: HullWeights },
    /// Outside: the product of the normal with the target is greater than with each point.
    Outside { normal: [i128; 2] },
}

/// Whether `target` is an average of the points with whole weights that are not negative.
///
/// `Weights` has at most three points, by ascending indices, with positive weights of greatest
/// common divisor 1. `Outside` comes exactly where the target is no average, as where there are
/// no points. Parts of points may be up to 2^40 in absolute value. One pass over the points keeps
/// the narrowest cone that has them all as seen from the target; no memory is taken.
pub fn triangle(points: &[[i128; 2]], target: [i128; 2]) -> HullAnswer
    requires few { length points.now < 2 ^ 32 }
    requires points_small { All IsSmallPoint points.now }
    requires target_small { IsSmallPoint target }
    ensures weights { IfWeights result (IsTriangle points.now target) }
    ensures normal { IfOutside result (Separates points.now target) }
    ensures normal_small { IfOutside result IsSmallNormal }
    ensures outside { IsOutside result ↔ ¬ IsInHull points.now target }
{
    let mut cone = Cone::Empty;
    for index in 0..points.len() {
        match cone::widened(cone, arrow_to(points, target, index)) {
            Step::Wider(wider) => cone = wider,
            Step::Balanced(balance) => return HullAnswer::Weights {
                items: lowest_terms::weights_of(balance),
            },
        }
    }
    HullAnswer::Outside {
        normal: cone::normal(cone),
    }
}

/// The way from the target to the point of this index.
fn arrow_to(points: &[[i128; 2]], target: [i128; 2], index: usize) -> Arrow
    requires within { index < length points.now }
    requires few { length points.now < 2 ^ 32 }
    requires points_small { All IsSmallPoint points.now }
    requires target_small { IsSmallPoint target }
    ensures arrow { IsArrow points.now target (index + 1) result }
    ensures index { result.index ≡ index }
{
    let point = points[index];
    Arrow {
        index: index as u32,
        x: point[0] - target[0],
        y: point[1] - target[1],
    }
}

/// A law: the two answers exclude each other, as a target that a normal separates is in no hull.
pub fn excludes(points: &[[i128; 2]], target: [i128; 2], normal: [i128; 2])
    ensures { Separates points.now target normal → ¬ IsInHull points.now target }
{}

#[cfg(test)]
mod tests {
    use super::*;
    use std::test::Fail;

    fn is_small(point: &[i128; 2]) -> bool
        ensures { IsTrue result → IsSmallPoint point.now }
    {
        let limit = 1 << 40;
        -limit <= point[0] && point[0] <= limit && -limit <= point[1] && point[1] <= limit
    }

    fn are_small(points: &[[i128; 2]]) -> bool
        ensures { IsTrue result → All IsSmallPoint points.now }
    {
        points.iter().all(|point| is_small(point))
    }

    fn turn(a: [i128; 2], b: [i128; 2], target: [i128; 2]) -> i128 {
        let [ax, ay] = [a[0].wrapping_sub(target[0]), a[1].wrapping_sub(target[1])];
        let [bx, by] = [b[0].wrapping_sub(target[0]), b[1].wrapping_sub(target[1])];
        ax.wrapping_mul(by).wrapping_sub(ay.wrapping_mul(bx))
    }

    fn ahead(a: [i128; 2], b: [i128; 2], target: [i128; 2]) -> i128 {
        let [ax, ay] = [a[0].wrapping_sub(target[0]), a[1].wrapping_sub(target[1])];
        let [bx, by] = [b[0].wrapping_sub(target[0]), b[1].wrapping_sub(target[1])];
        ax.wrapping_mul(bx).wrapping_add(ay.wrapping_mul(by))
    }

    /// Whether the target is in the triangle of these three, which may be a segment or a point.
    fn is_in_triangle(a: [i128; 2], b: [i128; 2], c: [i128; 2], target: [i128; 2]) -> bool {
        let (ab, bc, ca) = (turn(a, b, target), turn(b, c, target), turn(c, a, target));
        if ab == 0 && bc == 0 && ca == 0 {
            return ahead(a, b, target) <= 0 || ahead(b, c, target) <= 0 || ahead(c, a, target) <= 0;
        }
        let area = ab.wrapping_add(bc).wrapping_add(ca);
        area > 0 && ab >= 0 && bc >= 0 && ca >= 0 || area < 0 && ab <= 0 && bc <= 0 && ca <= 0
    }

    fn is_in_some_triangle(points: &[[i128; 2]], target: [i128; 2]) -> bool {
        for a in points {
            for b in points {
                for c in points {
                    if is_in_triangle(*a, *b, *c, target) {
                        return true;
                    }
                }
            }
        }
        false
    }

    /// A part of a point, from -4 to 4, of a fixed congruential generator.
    fn next_part(state: &mut u64) -> i128 {
        *state = state
            .wrapping_mul(6364136223846793005)
            .wrapping_add(1442695040888963407);
        i128::from((*state >> 33) % 9) - 4
    }

    #[test]
    fn answers_are_right(rt: HostRuntime) -> Result<(), Fail> {
        let far = 1 << 40;
        let cases: [(&[[i128; 2]], [i128; 2], &[(u32, i128)]); 13] = [
            (&[[0, 0], [3, 0], [0, 3]], [1, 1], &[(0, 1), (1, 1), (2, 1)]),
            (&[[0, 0], [3, 0], [0, 3]], [3, 3], &[]),
            (&[], [0, 0], &[]),
            (&[[5, 7]], [5, 7], &[(0, 1)]),
            (&[[5, 7]], [5, 8], &[]),
            (&[[2, 2], [6, 6]], [3, 3], &[(0, 3), (1, 1)]),
            (&[[0, 0], [2, 2], [6, 6]], [6, 6], &[(2, 1)]),
            (&[[0, 0], [2, 2], [6, 6]], [7, 7], &[]),
            (&[[1, 1], [1, 1], [1, 1]], [2, 1], &[]),
            (&[[0, 0], [0, 0], [2, 0]], [2, 0], &[(2, 1)]),
            (&[[0, 4], [0, 0], [4, 0]], [1, 3], &[(0, 3), (2, 1)]),
            (&[[0, 4], [0, 0], [4, 0]], [4, 0], &[(2, 1)]),
            (
                &[[-far, -far], [far, -far], [0, far]],
                [0, 0],
                &[(0, 1), (1, 1), (2, 2)],
            ),
        ];
        for (points, target, wanted) in cases {
            assert!(rt; are_small(points) && is_small(&target));
            assert!(rt; points.len() < 4);
            match triangle(points, target) {
                HullAnswer::Weights { items } => {
                    assert_eq!(rt; items.len() as usize, wanted.len(), "{points:?} {target:?}");
                    for i in 0..items.len() {
                        assert!(rt; (i as usize) < wanted.len());
                        assert_eq!(rt; *items.get(i), wanted[i as usize], "{points:?} {target:?}");
                    }
                }
                HullAnswer::Outside { .. } => assert!(rt;
                    wanted.is_empty(),
                    "{points:?} {target:?}"
                ),
            }
        }
        let mut state = 2026;
        for count in 0..300usize {
            let mut points = [[0; 2]; 6];
            for point in points.iter_mut() {
                *point = [next_part(&mut state), next_part(&mut state)];
            }
            let points = &points[..count % 6 + 1];
            let target = [next_part(&mut state), next_part(&mut state)];
            assert!(rt; are_small(points) && is_small(&target));
            let is_inside = matches!(triangle(points, target), HullAnswer::Weights { .. });
            assert_eq!(rt;
                is_inside,
                is_in_some_triangle(points, target),
                "{points:?} {target:?}"
            );
        }
        Ok(())
    }
}
